//! What a transaction is turned into before it is accepted: the row operations, the units that it takes and those that it releases.
//!
//! Its operations are taken one after the other, each over what those before it made of the collection. The rows in memory stay as they are
//! meanwhile, and the difference to them is taken at the end, so that each row is named once. Two passes: the first finds what is refused,
//! counts units and finds which old bytes are needed, and the second, once these are read, makes the bytes of pages.
//!
//! In Ceph's BlueStore this is the work of `_txc_add_transaction` on onodes that it changes as it goes, of `_txc_write_nodes` and of
//! `_txc_finalize_kv`. An operation that fails there has the process end; here the transaction is refused and nothing was changed.
//!
//! Proved: where no row is bad and nobody owns the free units, a transaction is turned into exactly such a plan, on the lowest free units
//! by the order of its takings, with each object's extents in their one form of longest runs, cut at 256 pages; or the answer is exactly
//! the refusal that plain objects of the rows' shape give, or NoSpace with both numbers, which comes exactly where its operations take
//! more units one after the other than are free. The draft before it names the places whose old bytes it needs, and the plan has just
//! those that it was given.
#![tactic(auto)]

mod drafts;
mod fails;
mod finishing;
mod laying;
mod operations;
mod planning;
mod shard_rows;
mod standing;
mod steps;
mod touched;
mod turns;

pub use drafts::{TxnDraft, begin};
pub use fails::PlanFail;
