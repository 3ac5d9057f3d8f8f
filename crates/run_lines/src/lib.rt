//! Runs of commands over devices in memory: what is set up, which commands are run on it, and what is shown of what came. What runs a
//! command line is a parameter, so that this crate stands on no store.
//!
//! Proved: nothing but that it is total: it is safe and returns.
#![tactic(auto)]

mod case;
mod commands;
mod running;
mod showing;

pub use case::Case;
pub use commands::{Commands, Ran};
