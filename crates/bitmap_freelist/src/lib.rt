//! The freelist: a bitmap in metadata rows that says which units are taken.
//!
//! In Ceph it is `BitmapFreelistManager`, whose rows are keys of RocksDB that are changed by a merge operator, the exclusive-or.
//!
//! Proved: the row operations for a set of units are one for each row that has one of them, in order, with exactly their bits; they turn
//! these bits and no others, leave rows of other keys alone and no row of zeros; two sets may be turned in either order, and one that is
//! turned twice is as it was; what the rows say of objects stays, and no row is bad then where the units are data units; each operation
//! has 28 bytes; `read` gives exactly the units whose bits are 1.
#![tactic(auto)]

mod flips;
mod laws;
mod marks;

pub use flips::push_flips;
pub use laws::{
    flips_change_order, flips_leave_objects, flips_leave_other_rows, flips_stay_in_the_table,
    flips_turn_their_units, flips_twice_restore, good_bitmaps, record_of_flips,
};
pub use marks::read;
