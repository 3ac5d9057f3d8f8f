//! Which units of a range are free: those that nobody was given and nobody holds.
//!
//! It stands in the place of Ceph's `Allocator` over the free space of BlueStore's device, and gives the lowest free units first.
//!
//! Proved: `take` gives the lowest free units, and NoSpace exactly where they are too few, with both numbers; a unit that is given back
//! is free unless somebody holds it.
#![tactic(auto)]

mod allocator;
mod bits;
mod hold_counts;
mod indexed_bits;
mod laws;

pub use allocator::{Allocator, Run, TakeFail};
pub use laws::{
    free_after_giving, free_after_taking, free_is_listed, free_units_ascend, given_is_free,
    given_while_held, held_is_not_free, last_hold_ends, listed_is_within, lowest_is_free,
    new_is_free, new_is_unheld, new_is_within, one_less_is_free, one_more_is_free, range_stays,
    taken_is_not_free, taken_of_one,
};
