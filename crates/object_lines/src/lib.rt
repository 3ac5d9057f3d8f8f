//! Cases of the reference store: operations on plain objects and reads of them, a line each.
//!
//! Proved: nothing but that it is total: it is safe and returns.
#![tactic(auto)]

mod answers;
mod lines;
mod operations;
mod questions;
mod reading;
mod transactions;

pub use lines::ObjectLines;
pub use questions::question;
pub use transactions::transaction;
