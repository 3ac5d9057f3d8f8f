//! Fair selections of things under names: of each name the first ones, in order.
//!
//! Whether a thing is under a name is said by a test, so a thing may have none, or several; no law asks for just one. Each function has
//! laws for its contract and does nothing.
//!
//! Proved: which selections of things under names are fair; what holds of nothing and goes on with each that comes next holds of each
//! fair one; two lists of the same order within each name come to the same. The contexts under way are such things, and their collections
//! the names.
#![tactic(auto)]

mod laws;

pub use laws::{
    fair_selections, few_selections, nine_are_fair, one_that_came_last, order_between_names,
};
