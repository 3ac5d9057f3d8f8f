//! Pages looked up in the bytes of an object's shards: where a page stands, without a map of all of them.
//!
//! In Ceph's BlueStore this is `ExtentMap::find` with `seek_shard` and `seek_lextent`, over shards that were decoded. Here nothing is decoded
//! before it is needed: the shards are bisected by their first pages, and an extent in front of the page is skipped by the number of its
//! pages.
//!
//! Proved: `find` gives the page's place among the extents that the bytes spell; of extents that ascend it is the one that the map of all
//! pages has.
#![tactic(auto)]

mod laws;
mod pages;
mod shard;

pub use laws::{found_is_the_place, spelled_is_read};
pub use pages::ShardPages;
