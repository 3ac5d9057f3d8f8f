//! Objects as their rows have them: the size, the map of the pages, and the shards that the map's extents stand in.
//!
//! In Ceph's BlueStore this is `get_onode` with `ExtentMap::fault_range`: an onode and its extent map, decoded from their keys. Whoever plans
//! a change of an object or reads it begins here: a change has the whole map, a read looks up the pages that it wants.
//!
//! Proved: `object_state` gives its size, its page map and its shards; `find_object` finds it exactly where it is there, with its pages one by
//! one, and no others.
#![tactic(auto)]

mod object;

pub use object::{FoundObject, ObjectState, find_object, object_size, object_state};
