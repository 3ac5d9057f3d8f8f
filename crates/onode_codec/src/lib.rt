//! Keys and values of metadata rows in memory: the keys of all rows, an object's onode, and its extents.
//!
//! In Ceph's BlueStore these are `get_object_key` and its kin, `bluestore_onode_t`, and the blobs and extents of a shard.
//!
//! Proved: a key is the spelled one; `decode` is None exactly where the bytes are no spelling.
#![tactic(auto)]

mod csum;
mod extent;
mod keys;
mod laws;
mod onode;

pub use csum::{push_csum, read_csum};
pub use extent::{Body, Extent, Head, LonePage, Start, decode_extents, encode_extents};
pub use keys::{
    COLLS_END, RowKind, attr_key, bitmap_key, coll_key, colls_first, deferred_key, header_key,
    objects_end, objects_first, omap_key, onode_key, shard_key, shards_end, shared_key,
};
pub use laws::{one_list_of_extents_for_a_spelling, one_onode_for_a_spelling};
pub use onode::Onode;
