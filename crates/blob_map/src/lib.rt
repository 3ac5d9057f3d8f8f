//! The page map of an object: where each of its pages stands, and the extents that say so in rows.
//!
//! In Ceph's BlueStore this is `ExtentMap` with its blobs. Here the map goes from page to place, and the extents are written from it into
//! rows: there is one list of extents for a map, so that nothing has to be kept in order meanwhile.
//!
//! Proved: each call is that of a finite map from pages to places; `extents` gives the one list of longest runs, cut at 256 pages, which
//! has exactly the map's pages, fits its fields and ascends, and of which no two neighbours could be one.
#![tactic(auto)]

mod extents;
mod laws;
mod page_map;
mod place;

pub use laws::{bounds_of_extents, normal_form, one_map_for_extents};
pub use page_map::PageMap;
pub use place::{At, Place};
