//! What is known of the book from call to call and along a run, whatever the device is: at each end the book is legal, but for the
//! bytes that reads gave.
//!
//! Proved: each call keeps it; a run makes a legal book; want of space or of room in a run only where its transactions together ask for
//! more than there was.
#![tactic(auto)]

mod laws;

pub use laws::{
    a_call_keeps_the_book, a_context_has_one_name, a_known_book_is_legal, a_new_book_is_known,
    a_run_keeps_the_order, a_run_makes_a_legal_book, room_suffices, space_suffices,
    want_of_space_is_beyond_the_demand,
};
