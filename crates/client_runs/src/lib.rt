//! Clients run their scripts beside each other on a mounted store. Before each call it is drawn which one comes next, the next
//! command of one of the clients or a step of the kernel, by a generator that begins with a seed.
//!
//! Proved: on a mounted kernel of which nothing was asked yet, scripts are run beside each other, each by a client of its own. What the
//! kernel and the device are at the end is where drawn calls have led: before each the generator was turned, and the call is the one that
//! it names in the list of those that can be made, the next commands of the clients whose `wait` before it is over, by their numbers, and
//! then the ready steps. Each client's entries in the book are its first commands in order, with their lines, and there are no other
//! entries. An Ok comes only where nothing is left to be drawn; Fault only where a submission ended badly and DeviceRead only where a
//! client's command was drawn, a read or a transaction, and the device failed at a read for it, its count having risen for both, and
//! after that steps alone were drawn; Memory for want of it.
#![tactic(auto)]

mod client;
mod clients;
mod commands;
mod drawing;
mod generator;
mod laws;
mod run_fail;
mod running;
mod stepping;

pub use laws::{a_drawn_run_is_a_run, no_command_is_left_at_the_end};
pub use run_fail::RunFail;
pub use running::run_scripts;
