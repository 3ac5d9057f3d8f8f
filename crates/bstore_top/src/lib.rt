//! The call that the program makes: it reads the words of a command line, does the command's work on the device that the
//! bay gives, and prints what came of it.
#![tactic(auto)]

mod dump_work;
mod fsck_work;
mod laws;
mod making;
mod outcome;
mod running;
mod script_work;

pub use laws::{
    a_dump_that_returns_0_shows_all, a_fsck_returns_4_where_something_is_wrong,
    a_good_dump_ends_well, a_good_fsck_ends_well, a_good_start_ends_well,
    a_run_drained_after_a_lost_read_keeps_all, a_run_of_scripts_is_a_run,
    a_run_that_returns_0_has_succeeded, scripts_within_the_free_units_have_no_want_of_them,
    what_was_told_ok_is_there,
};
pub use outcome::Outcome;
pub use running::{solo, top};
