//! What the operations of transactions come to as changes of rows: that the plans which `plan_drafts` describes keep all that is asked of
//! rows, and make of the objects what the transaction makes of them.
//!
//! Proved: a plan over good rows and free units, of any operations but clones, takes free units, no more than its transaction may ask
//! for, and has operations on rows of its own collection, on those of shared blobs that are at home there, and on the bits of its own units;
//! it makes no blob. Over all rows that are the same in its collection, in the blobs that this one's shards name and in those that it
//! changes, and where its units are unmarked, it leaves no bad row, an exact bitmap and exact counts, and blobs at home where they were; the
//! units on which it puts pages have owners then, and each that it releases has lost its own and is released once; the rows have the shape
//! of the objects after the transaction, and stand for them where the units that were read held what was read, the fresh ones hold theirs,
//! and those with pages what they held. Plain objects of the rows' shape accept a transaction, or refuse it with its first refusal, just as
//! its operations are taken or refused one after the other on the draft.
#![tactic(auto)]

mod laws;
mod plans;

pub use laws::objects_have_layouts;
pub use plans::{asks_are_few, plans_keep, records_are_short, replies_by_drafts};
