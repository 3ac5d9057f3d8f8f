//! Batches: transactions whose data is written, on their way to one record of the log. In Ceph's BlueStore it is one round of the thread that
//! syncs the log (`_kv_sync_thread`).
//!
//! Proved: `take_batch` takes the contexts that `choice` gives, in that order, and leaves the others; `seal` begins the record of the operations
//! of all of them in the metadata store, and `commit` leaves the log as the definitions say.
#![tactic(auto)]

mod batch;

pub use batch::{Batch, CommittedBatch, SealedBatch, choose_batch, commit, take_batch};
