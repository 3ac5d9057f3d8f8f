//! What reads answer: pages of objects as the device holds them, names in byte order, and what the answers have to do with those of
//! plain objects.
//!
//! Proved: a read is answered as plain objects answer: exactly where the device tells what it holds and that stands for them, else but
//! for the bytes; a walk shows just these objects.
#![tactic(auto)]

mod laws;
mod view;

pub use laws::{
    bytes_in_memory_are_read, names_come_in_one_order, reads_and_walks_go_on,
    reads_are_as_plain_objects, reads_are_plain_but_for_bytes, rows_have_objects,
    units_are_as_plain_objects, walks_show_plain_objects,
};
pub use view::{BadSum, CollView, ObjectView, ValueView};
