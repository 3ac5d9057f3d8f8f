//! The states of a transaction on its way from its plan to its end. Each call that takes it on consumes one state and gives the next, so a
//! transaction is in one state only, and no step can be left out.
//!
//! They stand in the place of the states of a `TransContext` in Ceph's BlueStore: `Prepared` is STATE_PREPARE, `Waiting` STATE_AIO_WAIT,
//! `Queued` STATE_KV_QUEUED, `Committed` STATE_KV_DONE, `DeferredWait` STATE_DEFERRED_QUEUED, `Finished` STATE_DONE.
//!
//! Proved: each call gives what the definitions of contexts give; `next_write` is the next run of units; a transaction is queued only
//! when all its writes have ended.
#![tactic(auto)]

mod committed;
mod next_write;
mod prepared;
mod queued;
mod waiting;

pub use committed::{After, Committed, DeferredWait, Finished};
pub use next_write::NextWrite;
pub use prepared::Prepared;
pub use queued::Queued;
pub use waiting::Waiting;
