//! Devices over files of the operating system: the edge of the store, where a promise rests on the system and not on a
//! proof. What a file keeps can't be said in a clause, so these devices tell neither contents nor log.
//!
//! Proved: it keeps every clause of `Device`, gives ends in the order of tickets, always one while something is in flight, and says that
//! something failed only where its count rose. It tells no contents.
#![tactic(auto)]

mod opening;
mod sync;

pub use sync::SyncFile;
