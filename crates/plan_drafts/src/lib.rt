//! What a transaction of several operations makes of its collection, one operation after the other, and which plans it may have.
//!
//! Nothing here looks at rows in between: each object is a draft, in which a page either stands where it stood or is put by one of the
//! transaction's takings of a unit. Which units these are and what they hold is said at the end, of the last draft alone.
//!
//! Proved: `with_ops`: what operations make of it one after the other; `AreTaken`, `AreRefused`: whether all are taken, or which refusal
//! comes first; `Plans`; a place whose old bytes are asked for is that of an object's page.
#![tactic(auto)]

mod draft;
mod fate;

pub use draft::Draft;
pub use fate::Fate;
