//! The values of shards' rows spelled by hand, and maps cut by a bound on the bytes of a shard.

use crate::cases::first_false;
use blob_map::{At, PageMap, Place};
use byte_maps::Bytes;
use extent_shards::{pages_behind, push_shard};
use std::alloc::{AllocError, Global};
use unit_fields::{UnitNo, Width};

// The values of the rows of a map's shards, cut by a bound on their bytes.
fn shard_values(alloc: Global, pages: &PageMap, bound: u32) -> Result<Vec<Bytes>, AllocError> {
    let mut values = Vec::new(alloc);
    let mut left = pages.pages();
    for _ in 0..pages.pages().len() {
        if !left.is_empty() {
            let mut value = Vec::new(alloc);
            let front = push_shard(&mut value, Width::FourBytes, left, bound)?;
            values.push(Bytes::from_vec(value))?;
            left = pages_behind(left, front.count);
        }
    }
    Ok(values)
}

// The values of the shards of the map of these pages, each with its unit, cut by a bound.
fn values_of(alloc: Global, pages: &[(u32, u32)], bound: u32) -> Result<Vec<Bytes>, AllocError> {
    let mut map = PageMap::new(alloc);
    for (page, unit) in pages {
        let at = At::Unit {
            unit: UnitNo::new(*unit),
            csum: unit / 2,
        };
        map.set(*page, Place { at })?;
    }
    shard_values(alloc, &map, bound)
}

// Pages 3 and 4 on units 40 and 41, and page 7 on unit 60.
const TWO_EXTENTS: &[u8] =
    b"\x03\0\0\0\x02\0\0\x28\0\0\0\x14\0\0\0\x14\0\0\0\x07\0\0\0\x01\0\0\x3c\0\0\0\x1e\0\0\0";

// Whether there is one value, and it is this.
fn is_only(values: &[Bytes], wanted: &[u8]) -> bool {
    match values {
        [only] => only.as_slice() == wanted,
        _ => false,
    }
}

// Whether their shard alone has this value.
fn is_value(alloc: Global) -> Result<bool, AllocError> {
    let values = values_of(alloc, &[(7, 60), (3, 40), (4, 41)], u32::MAX)?;
    Ok(is_only(values.as_slice(), TWO_EXTENTS))
}

// Pages 5 and 6 on the slots 7 and 8 of the blob 2, page 7 on the slot 9 of the blob 3.
const SLOTS: &[u8] =
    b"\x05\0\0\0\x02\0\x01\x02\0\0\0\0\0\0\0\x07\0\x07\0\0\0\x01\0\x01\x03\0\0\0\0\0\0\0\x09\0";

// Whether their shard alone has this value.
fn is_value_of_slots(alloc: Global) -> Result<bool, AllocError> {
    let mut map = PageMap::new(alloc);
    for (page, sbid, index) in [(6, 2, 8), (7, 3, 9), (5, 2, 7)] {
        let at = At::Slot { sbid, index };
        map.set(page, Place { at })?;
    }
    let values = shard_values(alloc, &map, u32::MAX)?;
    Ok(is_only(values.as_slice(), SLOTS))
}

// A map whose extents have 19, 15 and 15 bytes.
const THREE: &[(u32, u32)] = &[(3, 40), (4, 41), (7, 60), (9, 50)];

// The pages, a bound, and the bytes of each shard then.
type Cut = (&'static [(u32, u32)], u32, &'static [usize]);

static CUTS: [Cut; 7] = [
    (THREE, u32::MAX, &[49]),
    (THREE, 49, &[49]),
    (THREE, 48, &[34, 15]),
    (THREE, 33, &[19, 30]),
    (THREE, 29, &[19, 15, 15]),
    (THREE, 0, &[19, 15, 15]),
    // a map of holes has no shards
    (&[], u32::MAX, &[]),
];

fn have_lengths(values: &[Bytes], lengths: &[usize]) -> bool {
    for (value, length) in values.iter().zip(lengths) {
        if value.len() != *length {
            return false;
        }
    }
    values.len() == lengths.len()
}

/// The place of the first that is cut otherwise.
pub fn first_wrong(alloc: Global) -> Result<Option<usize>, AllocError> {
    for (i, (pages, bound, lengths)) in CUTS.iter().enumerate() {
        if !have_lengths(&values_of(alloc, pages, *bound)?, lengths) {
            return Ok(Some(i));
        }
    }
    Ok(None)
}

/// The place of the first value that is spelled by hand and is another.
pub fn first_wrong_value(alloc: Global) -> Result<Option<usize>, AllocError> {
    Ok(first_false(&[is_value(alloc)?, is_value_of_slots(alloc)?]))
}
