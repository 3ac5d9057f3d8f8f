//! Calls of the kernel over devices in memory, step by step, with making stores, mounting and unmounting them. A program
//! of cases follows them.
//!
//! Proved: nothing but that it is total: it is safe and returns.
#![tactic(auto)]

mod asking;
mod crowding;
mod cutting;
mod devices;
mod drawing;
mod lines;
mod lists;
mod looked;
mod mounted;
mod stepping;
mod submitting;
mod walking;

pub use lines::KernelLines;
