//! What is in flight, part by part, for any number of contexts under way: the data writes of those that wait, what is in flight
//! for the open batch, and what is for a switch of halves. A law says that each step keeps this and leaves less to do; others say
//! which units are in no flight. Nothing here speaks of the rows.
//!
//! Batch and switch go by stages, each of which goes on once the one before it has ended: one submission, or pieces in any order.
//!
//! Proved: each step that is ready keeps it and leaves less to do; a unit that no context gave, that is of no piece of the record or
//! of the checkpoint, and not the other slot, is in no flight.
#![tactic(auto)]

mod laws;

pub use laws::{
    a_checkpoint_has_few_pieces, a_step_leaves_device_and_book, flights_match,
    flushed_units_have_landed, nothing_is_left_where_no_step_is_ready, steps_match,
    what_is_left_is_not_given,
};
