//! The rows of an object: where the keys of its values begin and end, what its shards say, whether it is there, and which object comes next
//! in a walk over all of them.
//!
//! In Ceph's BlueStore the walk is `collection_list`. What an object's rows say together stands here once, for those who plan changes of it
//! and for those who read it.
//!
//! Proved: the next name is the least of those behind the one before it, and none comes exactly where none is behind; all names stand in one
//! order.
#![tactic(auto)]

mod laws;
mod names;
mod ranges;
mod there;
mod walk;

pub use laws::object_by_shards;
pub use names::{coll_name_is_one, name_is_one};
pub use ranges::{ValueKind, pairs_end, pairs_first, values_end, values_first};
pub use there::{has_collection, has_onode};
pub use walk::{next_collection, next_name, object_names};
