//! What a store meets at its ends: where its text comes from and goes to, who hands it devices and
//! scripts by name, and who is asked before each turn. Each as a trait, and in memory for tests.
//!
//! Proved: bytes read are the next ones, bytes written are appended, a device that is handed out is fresh and has its name's contents
//! (each where it is told). A fault is answered only where a count rose, and a call that went well has counted none (clause `kept`); nor
//! has a read of a source that wanted memory (`memory`).
#![tactic(auto)]

mod bay;
mod gate;
mod memory_bay;
mod memory_sink;
mod memory_source;
mod sink;
mod source;

pub use bay::{Bay, How};
pub use gate::{Gate, OpenGate, Pass, Role};
pub use memory_bay::{BayPlan, Call, MemoryBay};
pub use memory_sink::MemorySink;
pub use memory_source::MemorySource;
pub use sink::{Fault, Sink};
pub use source::Source;
