//! What is known of the superblock slots and of the half of the log that isn't in use, over each step of a switch of halves.
//!
//! Proved: each call keeps it; behind a switch the half that is in use has the rows; a crash at any moment of a checkpoint leaves a front of
//! the commits.
#![tactic(auto)]

mod laws;

pub use laws::{
    a_cut_while_halves_switch, a_switch_makes_the_half, steps_keep_the_other_half,
    the_pieces_are_apart, the_pieces_cover,
};
