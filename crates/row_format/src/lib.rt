//! The rows of the metadata store as definitions: their keys, and the spelling of onodes and extents.
//!
//! The codecs cite these definitions for what they read and write, and what an image stands for is said by them.
//! In Ceph's BlueStore the same things are the keys of the `O`, `C`, `M`, `X`, `L` and `b` prefixes in RocksDB.
//!
//! Proved: a key of each kind is read as what it was spelled for, and a row as itself; so there is one row for a spelling, and different
//! things have different keys.
#![tactic(auto)]

mod laws;

pub use laws::{
    different_things_have_different_keys, keys_of_numbers_are_read, keys_of_objects_are_read,
    one_row_for_a_spelling,
};
