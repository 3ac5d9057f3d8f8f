//! Writes of pages as they are planned, before any old bytes are there.

use unit_fields::UnitNo;

/// Where the old bytes of a page are that gets new ones.
#[derive(Clone, Copy)]
pub enum OldBytes {
    /// The page was a hole, or none of them stays.
    Zeros,
    /// The transaction has put them: they are what the unit of this taking is to hold so far.
    Put(u32),
    /// The page stands on this unit, which has to be read.
    Read(UnitNo),
}

/// A page that gets new bytes.
#[derive(Clone, Copy)]
pub struct PageWrite {
    /// Which operation of the transaction writes it, counted from 0.
    pub op: u32,
    /// The page of the operation's object.
    pub page: u32,
    /// The number of the taking whose unit is to hold it.
    pub taking: u32,
    /// Where its old bytes are.
    pub old: OldBytes,
}
