//! Contexts: accepted transactions on their way to the log.
//!
//! A context counts the units that were given to the device and those that have reached it, and not its writes, so that where its runs
//! begin is a function of that count.

use byte_maps::Items;
use meta_rows::RowOp;
use plan_rows::FreshUnit;
use unit_fields::{CollName, UnitNo};

/// An accepted transaction that isn't committed. (Ceph's `TransContext`.)
#[derive(Drop)]
pub struct Context {
    /// The place of its entry in the book.
    pub place: u32,
    /// The collection that it changes.
    pub coll: CollName,
    /// The row operations that its commit applies.
    pub ops: Items<RowOp>,
    /// The units of a record that holds these operations alone.
    pub need: u32,
    /// The units that it took, ascending. Each is written before the record is.
    pub fresh: Items<FreshUnit>,
    /// The units that come back to the free ones at its commit.
    pub released: Items<UnitNo>,
    /// How many of its units were given to the device: the first ones of `fresh`.
    pub given: u32,
    /// How many of these have reached it: their writes have ended well.
    pub done: u32,
}
