//! Crashes of runs over devices in memory. The device's log is cut at its events and what is dirty torn in each way, and the plain
//! reader says which objects it finds. What runs a command line is a parameter.
//!
//! Proved: nothing but that it is total: it is safe and returns.
#![tactic(auto)]

mod again;
mod case;
mod dumped;
mod last;
mod lines;
mod looked;
mod told;

pub use case::Sweep;
pub use told::{Script, scripts_of, told_by};
