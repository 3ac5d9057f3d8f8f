//! Tests of the crates below the store: what no clause of theirs says, in memory and over real files. Each module is of the crate that it is
//! named after, and makes its public calls. They stand here and not in those crates, since a crate that has tests is proved twice.
//!
//! Proved: nothing but that it is total: it is safe and returns.
#![tactic(auto)]

#[cfg(test)]
mod bitmap_freelist_tests;
#[cfg(test)]
mod cases;
#[cfg(test)]
mod crc32c_csum_tests;
#[cfg(test)]
mod device_file_tests;
#[cfg(test)]
mod extent_shards_tests;
#[cfg(test)]
mod file_ends_tests;
#[cfg(test)]
mod log_replay_tests;
#[cfg(test)]
mod meta_log_tests;
#[cfg(test)]
mod meta_rows_tests;
#[cfg(test)]
mod meta_store_tests;
#[cfg(test)]
mod onode_codec_tests;
#[cfg(test)]
mod row_check_tests;
#[cfg(test)]
mod script_text_tests;
#[cfg(test)]
mod shared_blobs_tests;
#[cfg(test)]
mod txn_codec_tests;
#[cfg(test)]
mod unit_allocator_tests;
#[cfg(test)]
mod unit_fields_tests;
