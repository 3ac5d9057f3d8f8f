//! What the kernel keeps from call to call and so along runs, whatever its device is, and that each call which leaves it up has
//! a footprint: facts of the whole state, rows and room and book beside what is in flight, and a law for each call that says
//! that it keeps them.
//!
//! Proved: each step and each submission keeps it, and each step lowers the work that is left; a call that leaves the kernel up has a
//! footprint, by which the facts above are kept; which contexts a batch takes, and with which others these change places; a unit with a
//! page that isn't in memory is in no flight.
#![tactic(auto)]

mod laws;

pub use laws::{
    a_call_has_a_footprint, a_checkpoint_can_be_written, a_choice,
    a_run_keeps_what_the_kernel_keeps, bytes_are_in_memory_until_committed, drained_is_idle,
    flushes_cover, idle_units_are_not_busy, next_is_untouched, opened_keeps, steps_have_room,
    steps_keep, submitted_rows_are_short, transactions_keep, units_not_in_memory_can_be_read,
};
