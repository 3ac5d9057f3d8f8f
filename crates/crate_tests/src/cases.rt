//! The one test of all cases in memory: it names the first case that comes out otherwise than it is written down. It is one since a test has to be proved,
//! and costs the more the more it calls.

use crate::{
    bitmap_freelist_tests, crc32c_csum_tests, extent_shards_tests, log_replay_tests,
    meta_log_tests, meta_rows_tests, meta_store_tests, onode_codec_tests, row_check_tests,
    script_text_tests, shared_blobs_tests, txn_codec_tests, unit_allocator_tests,
    unit_fields_tests,
};
use std::alloc::{AllocError, Global};
use std::test::*;

/// The place of the first of these that doesn't hold.
pub fn first_false(held: &[bool]) -> Option<usize> {
    for (i, holds) in held.iter().enumerate() {
        if !*holds {
            return Some(i);
        }
    }
    None
}

// The place that is said, or the largest number where memory ran out.
fn place(found: Result<Option<usize>, AllocError>) -> Option<usize> {
    found.unwrap_or(Some(usize::MAX))
}

// What comes out otherwise than it is written down, and the place of the case.
type Wrong = (&'static str, usize);

fn first_wrong(alloc: Global) -> Option<Wrong> {
    let found = [
        (
            "bits that are turned",
            place(bitmap_freelist_tests::first_wrong(alloc)),
        ),
        ("checksums", crc32c_csum_tests::first_wrong()),
        (
            "a slot and a record",
            place(meta_log_tests::first_wrong(alloc)),
        ),
        (
            "torn records",
            place(meta_log_tests::first_wrong_torn(alloc)),
        ),
        (
            "units that aren't zero",
            place(log_replay_tests::first_wrong(alloc)),
        ),
        ("rows", place(meta_rows_tests::first_wrong(alloc))),
        ("a full log", place(meta_store_tests::first_wrong(alloc))),
        (
            "a shard by hand",
            place(extent_shards_tests::first_wrong_value(alloc)),
        ),
        ("shards", place(extent_shards_tests::first_wrong(alloc))),
        (
            "lengths of names and values",
            place(row_check_tests::first_wrong(alloc)),
        ),
        ("keys", place(onode_codec_tests::first_wrong(alloc))),
        (
            "reads that fail",
            place(script_text_tests::first_wrong_read(alloc)),
        ),
        (
            "long scripts",
            place(script_text_tests::first_wrong_long(alloc)),
        ),
        (
            "slots of a blob",
            place(shared_blobs_tests::first_wrong(alloc)),
        ),
        ("operations", place(txn_codec_tests::first_wrong(alloc))),
        (
            "fronts of transactions",
            place(txn_codec_tests::first_wrong_front(alloc)),
        ),
        (
            "free units",
            place(unit_allocator_tests::first_wrong(alloc)),
        ),
        (
            "names of collections",
            place(unit_fields_tests::first_wrong(alloc)),
        ),
    ];
    for (what, place) in &found {
        if let Some(place) = place {
            return Some((*what, *place));
        }
    }
    None
}

#[test]
fn cases(rt: HostRuntime) {
    assert_eq!(rt; first_wrong(rt.alloc()), None);
}
