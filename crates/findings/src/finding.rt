//! One thing that is wrong with a store.

use byte_maps::Bytes;

/// One thing that is wrong with a store. Units are given by their numbers.
#[derive(Drop)]
pub enum Finding {
    /// The row under this key is bad. Where there is such a row, nothing else is looked for.
    BadRow { key: Bytes },
    /// A page stands on a unit that holds bytes with another checksum than the one that is kept for the page.
    BadSum { unit: u32, kept: u32, found: u32 },
    /// The bitmap marks the unit, and nobody owns it.
    Leaked { unit: u32 },
    /// The unit has an owner, and the bitmap doesn't mark it.
    Unmarked { unit: u32 },
    /// The unit has two owners or more.
    Doubled { unit: u32 },
    /// A slot of a shared blob on the unit keeps another count than pages name it.
    WrongCount { unit: u32, kept: u32, counted: u64 },
}
