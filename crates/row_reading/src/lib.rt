//! Rows read one by one: a key as what it names, and a key with its value as the row that they spell.
//!
//! In Ceph's BlueStore this is `get_key_object` and its kin, with the decoders of the values.
//!
//! Proved: `read_key` and `read_row` are None exactly where a key, or a key and a value, are no row's.
#![tactic(auto)]

mod key;
mod row;
mod slots;

pub use key::{OBJECT, Part, RowKey, read_key, read_key_after};
pub use row::{Row, read_row, read_row_after};
pub use slots::Slot;
