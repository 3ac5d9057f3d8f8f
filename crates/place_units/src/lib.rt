//! On which unit a page is, and which checksum is kept for it, by the place that its object's extents give it.
//!
//! A page on a unit of the object's own is there. One on a slot of a shared blob is where the blob's row says (Ceph: `SharedBlob`, whose
//! pages a blob's `get_blob()` maps to disk); the row is looked up by the blob's number, and the slot is read without reading those before it.
//!
//! Proved: over rows of which none is bad, just that unit and that checksum.
#![tactic(auto)]

mod blobs;
mod places;

pub use blobs::{blob_value, slot_unit};
pub use places::page_unit;
