//! The contexts of one collection that wait to be committed, in order of submission: Ceph's OpSequencer.
//!
//! Proved: `head_ready` and `pop_ready` give the first one's place exactly where it is done, `ready_behind` that of the next; over any calls
//! what is popped is a front of what was pushed, in order.
#![tactic(auto)]

mod laws;
mod sequencer;

pub use laws::pops_in_order;
pub use sequencer::{Sequencer, Turn};
