//! What is known of rows and of free units while any number of accepted transactions is under way: each is planned over the rows of every fair
//! selection before it, and a data unit is idle exactly where it isn't busy. Each function has laws for its contract and does nothing.
//!
//! Proved: where each transaction under way is planned over the rows of every fair selection before it, and they took different units,
//! the rows with any fair selection are good, and the owned units change by what its transactions take and release. A plan over the
//! submitted rows that takes free units can join them, and then all this is so with it; it depends on the order within each collection
//! alone; and after a commit it is so of those that wait. A data unit is idle exactly where it isn't busy, before and after each of
//! these, whoever holds it. Operations make rows longer by their own bytes at most, so that the committed rows as one record take no more
//! units than the records of the log, and the submitted ones no more than these and what is reserved.
#![tactic(auto)]

mod laws;

pub use laws::{
    bits_do_not_tell, commits_keep_plans, free_units_can_join, nothing_under_way,
    one_more_is_planned, one_more_may_come_last, order_between_collections, released_are_busy,
    released_come_back_in_turn, rows_are_no_longer_than_records, rows_by_intents,
    rows_stay_within_the_log, selections_own, selections_stay_good, space_stays_counted,
    switches_keep_plans,
};
