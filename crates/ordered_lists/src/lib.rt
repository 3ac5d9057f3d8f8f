//! Lists in ascending order that have exactly the things of which something holds: how a list is said to be complete. The function has a law
//! for its contract and does nothing.
//!
//! Proved: two ascending lists of the same numbers are one.
#![tactic(auto)]

mod laws;

pub use laws::the_same_numbers_make_one_list;
