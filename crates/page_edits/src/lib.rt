//! The pages of an object under the operations of a transaction. First, without any bytes: which pages get new ones, by which takings, and
//! where their old bytes are. Then what the units that are taken are to hold; and the page map that the object has with them. And laws of
//! what that makes of the object's pages and of its bytes.
//!
//! In Ceph's BlueStore `_do_write`, `_do_zero` and `_do_truncate` do this work, and change the onode as they go.
//!
//! Proved: of an object in the middle of a transaction, some of whose pages stand where they stood and some were put by takings before,
//! `edit` gives what an operation on its bytes makes: which pages it puts, by which takings, which it clears, which places are left, and
//! the units whose old bytes it needs, by the rows where pages stand on slots of shared blobs. `contents` gives what the units of all
//! takings are to hold, from the bytes that were read; a page that was put before is changed from what it was given then. `lay` puts the
//! pages on units, each with the checksum of its bytes. No page stands past the object's end, each taking is of one page, and where the old
//! pages held the object's bytes, the new ones hold its bytes after the operation.
#![tactic(auto)]

mod edits;
mod fate;
mod laws;
mod layouts;
mod page_bytes;
mod ranges;
mod spans;
mod writes;

pub use edits::{Edited, edit};
pub use laws::{
    an_edit_makes_bytes, an_edit_moves_pages, an_edit_takes_few_units, writes_make_contents,
};
pub use layouts::lay;
pub use page_bytes::contents;
pub use writes::{OldBytes, PageWrite};
