//! The reference store: objects in memory as the model has them, with what each operation does and what each command is answered.
//! Programs over cases compare the store of blocks and records with it; the store itself doesn't use it.
//!
//! Proved: a transaction changes the objects as the table of seventeen operations says, or is refused with its first refusal and changes
//! nothing; replies are those of plain objects.
#![tactic(auto)]

mod applying;
mod collection;
mod fault;
mod object;
mod plain;
mod reply;

pub use applying::{effect, effects};
pub use collection::Collection;
pub use fault::ArgFault;
pub use object::{PlainObject, overwritten, resized};
pub use plain::Plain;
