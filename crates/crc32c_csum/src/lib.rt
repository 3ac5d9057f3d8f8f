//! The checksum of the store, CRC-32C, and units of 4096 bytes that carry theirs. Slots, records and the units of
//! objects are all told apart from damaged ones by it, as in BlueStore with `csum_type` crc32c.
//!
//! Proved: equal to the division bit by bit, in one piece or in parts, of which a page may be given by its checksum alone; a checked unit
//! has 4096 bytes and their checksum.
#![tactic(auto)]

mod behind;
mod crc;
mod fold;
mod tables;
mod unit;

pub use crc::{Digest, crc32c};
pub use unit::CheckedUnit;
