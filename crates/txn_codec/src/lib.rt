//! A transaction in bytes: its one spelling, and what bytes spell.
//!
//! In Ceph this is the encoding of `ObjectStore::Transaction`.
//!
//! Proved: `encode` gives the transaction's one spelling; `decode` gives the transaction with which bytes begin and how many are used,
//! and None exactly where they begin with none; no spelling begins another.
#![tactic(auto)]

mod codes;
mod fail;
mod field_reading;
mod field_writing;
mod laws;
mod op_reading;
mod op_writing;
mod txn_reading;
mod txn_writing;

pub use laws::{one_transaction_at_the_front, what_was_read_is_encodable};
pub use txn_reading::decode;
pub use txn_writing::encode;
