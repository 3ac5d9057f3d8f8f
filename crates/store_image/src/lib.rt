//! What an image of a device stands for, as definitions and the laws that they deserve: bad rows, the page map, owners of
//! units, the objects that rows and units stand for, the premise on chance, and prefix durability.
//!
//! Proved: an image stands for at most one Objects; only units on which pages stand matter, and these are the owned ones.
#![tactic(auto)]

mod laws;

pub use laws::{
    counts_follow_names, exact_images, exact_rows, good_rows_have_no_bad_one, one_count_for_a_slot,
    one_place_for_a_page, one_unit_for_a_place, only_units_with_pages_matter, pages_decide_bytes,
    placed_pages_stand, shared_pages_stay_exact, stands_for_one, units_with_pages_are_owned,
};
