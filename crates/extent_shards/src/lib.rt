//! The shards of an object: its extents as they stand in rows, one row for each shard.
//!
//! In Ceph's BlueStore this is `ExtentMap::reshard` and `ExtentMap::fault_range`. Here a map is cut into shards in the pass that writes
//! their values, without a copy of its pages; the other way rows are read straight into a map, without the extents between.
//!
//! Proved: the shards of a map are its extents, cut so that an extent joins a shard where the shard's bytes stay within the bound, and
//! else begins the next; each shard is within the bound, or has one extent alone, and begins at a page of its own; without a bound there
//! is one. `push_shard` writes the spelling of the first one's extents, and says how many pages it has; `add` puts the pages of the extents
//! that a value spells in their places. Whatever the bound, the shards of a map, joined, are the map.
#![tactic(auto)]

mod joining;
mod laws;
mod pushing;
mod reading;
mod writing;

pub use joining::JoinedShards;
pub use laws::{a_split_is_bounded, a_split_is_joined, a_split_rises, a_split_without_bound};
pub use pushing::{Front, SHARD_BYTES, push_shard};
pub use writing::pages_behind;
