//! Shared blobs: consecutive units on which pages of several objects stand, with a slot for each that counts the pages that name it.
//!
//! In Ceph's BlueStore this is `SharedBlob` with its `bluestore_extent_ref_map_t`, whose `get` and `put` count references; a `put` gives the
//! extents back that nobody references any more. Here each slot is one unit, and keeps the checksum of its bytes too.
//!
//! Proved: a blob that is decoded is the one that its row's value spells, and what is encoded spells it, or nothing where no slot is named;
//! `get` and `put` change the count of one slot by one; `put` gives the unit of a slot that the last page has left, which keeps no checksum
//! then. Where pages leave slots, each blob is lowered once for each of them, and the units come free of exactly those slots that no page
//! names any more.
#![tactic(auto)]

mod lowering;
mod shared_blob;

pub use lowering::{Lowered, lower};
pub use shared_blob::SharedBlob;
