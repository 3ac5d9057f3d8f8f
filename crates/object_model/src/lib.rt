//! What the store promises its users: objects by name in collections by name, what a transaction does to them, what each command is
//! answered, and the book of a run. The store of blocks and records is proved to answer as these definitions say.
//!
//! Proved: the limits of a whole transaction.
#![tactic(auto)]

mod asked;
mod book;
mod command;
mod laws;
mod limits;
mod op;
mod transaction;

pub use asked::{Asked, ReadKind};
pub use book::{Book, Commit, Entry};
pub use command::{Answer, Command, Read};
pub use laws::{
    a_transaction_has_one_name, replay_by_collections, replay_keeps_other_collections,
    replay_of_refused, replay_of_two_collections, replay_of_two_lists,
};
pub use limits::ends_too_far;
pub use op::{Op, Pair, Refusal};
pub use transaction::Transaction;
