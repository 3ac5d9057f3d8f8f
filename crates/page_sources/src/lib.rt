//! Where the bytes of pages come from: memory, as long as the transaction that took their unit isn't committed, or the device, with a
//! checksum that is compared. The pages of an object are read some at a time, old bytes that a transaction needs by their units.
//!
//! A page is looked up by its place, which is a unit of the object's own or a slot of a shared blob, and found on a unit; so pages on consecutive
//! units are read at once, whatever their places are.
//!
//! In Ceph's BlueStore this is `_do_read` with `_read_cache` and `_verify_csum`.
//!
//! Proved: pages of an object that were read are good, and their checksums are at hand: zeros in holes, the bytes in memory of a page
//! whose unit is there, or what the device has on consecutive units, each with the checksum that is kept for it; else it is the first bad
//! page. Old bytes come in the order of their units, each unit whole: of one in memory just these, whatever checksum is kept, of another
//! one what the device has, with the checksum that is kept; else it is the first unit that isn't in memory and has bytes with another one.
//! The device is as it was, and that it failed is said only where its count rose.
#![tactic(auto)]

mod finding;
mod parts;
mod places;

pub use finding::UnitPages;
pub use parts::{PartFail, Sums, read_part};
pub use places::read_places;
