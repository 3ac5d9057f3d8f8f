//! Byte strings, lists, and finite maps under byte strings in byte order; and the words for byte lists that are cut into units of 4096 bytes.
//!
//! Clauses see a `Bytes` as the list of its bytes, an `Items` as the list of its values and a `ByteMap` as a finite map, and none of them shows a capacity.
//!
//! Proved: each call of `ByteMap` is that of a finite map under byte strings; `byte_order` is the order of byte strings; `is_zero` is true
//! exactly where each byte is zero; of a finite map and of lists cut into units there are laws.
#![tactic(auto)]

mod byte_map;
mod bytes;
mod comparing;
mod items;
mod theorems;
mod zero_test;

pub use byte_map::ByteMap;
pub use bytes::{Bytes, Duplicate};
pub use comparing::byte_order;
pub use items::Items;
pub use theorems::{answers_without_range, equal_unit_by_unit, equal_where_alike};
pub use zero_test::is_zero;
