//! What the kernel of the store is made of, and what each of its calls does, as plain data: contexts, the open batch, what
//! is in flight, a switch of the halves of the log among it; the table of steps; the answer to a transaction. The kernel's contracts
//! and the facts that it keeps are said in these words.
//!
//! In Ceph's BlueStore a context is a `TransContext`, and the steps are the parts of its state machine.
//!
//! Proved: the table of steps, `Does`, `Accepts`, `Refuses`, runs of calls, footprints.
#![tactic(auto)]

mod context;
mod flight;
mod step;

pub use context::Context;
pub use flight::{FlushState, Flying, Job, Switching};
pub use plan_rows::{FreshUnit, Plan};
pub use step::{ALL_STEPS, Step};
