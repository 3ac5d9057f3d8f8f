//! The rows of a store that is to be opened or checked: which rows are bad, the units that the rows own, and whether the bitmap says so.
//!
//! In Ceph's BlueStore this is what `fsck` asks of onodes and extents.
//!
//! Proved: `find_bad_row` gives the least key of a bad row, and none exactly where no row is bad: for all rows that these formats allow,
//! of objects with any number of pages, extents and shards, and of shared blobs; `bad_rows` gives the keys of all bad rows, ascending.
//! `marked_units` gives the least unit that has an owner and isn't marked, that has two owners, or that is that of a slot with a wrong count,
//! and else exactly the marked units; one of the first comes exactly where there is such a unit. `wrong_units` gives the units that are leaked,
//! those that are owned and not marked, those that have two owners, and the slots with wrong counts, each list ascending and with no others.
#![tactic(auto)]

mod bad;
mod bitmap;
mod blobs;
mod counts;
mod in_place;
mod namers;
mod owners;
mod passed;
mod tallies;
mod unit_marks;

pub use bad::{bad_rows, find_bad_row};
pub use bitmap::{WrongUnits, marked_units, wrong_units};
pub use counts::SlotCount;
pub use owners::is_shard;
