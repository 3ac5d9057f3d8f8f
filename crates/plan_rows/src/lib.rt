//! What an accepted transaction makes of rows: its plan, and all that is known of one above the crate that proves it.
//!
//! Proved: where no row is bad each shared blob has a home, the one collection whose shards name it; operations on rows of some collections
//! and of the blobs at home there leave the rows of others and of the blobs that operations on those change, and change places with such
//! operations, and turn exactly the bits of the units that are taken and released; what is known of a plan over rows is known over all that
//! agree with them on its collections, on their blobs and on those that it changes, and by each superblock of the same units and half.
#![tactic(auto)]

mod laws;
mod plan;

pub use laws::{
    agreement, collections_are_apart, each_blob_has_a_home, the_epoch_is_nothing_to_plans,
};
pub use plan::{FreshUnit, PageUnit, Plan, ReadUnit, SlotNo};
