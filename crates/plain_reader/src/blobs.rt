//! Shared blobs: what their rows keep of slots, and how many pages stand there.

use crate::object::{is_shard_key, read_extent};
use crate::reader::{Reader, number_at};
use byte_maps::Bytes;

/// What a blob's row keeps of a slot.
#[derive(Clone, Copy)]
pub struct KeptSlot {
    pub unit: u64,
    /// The checksum of the unit; 0 where no page stands there.
    pub sum: u64,
    /// How many pages stand there.
    pub count: u64,
}

/// The number of the blob whose row has this key.
pub fn blob_number(key: &[u8]) -> Option<u64> {
    match key {
        [b'X', a, b, c, d, e, f, g, h] => {
            Some(u64::from_be_bytes([*a, *b, *c, *d, *e, *f, *g, *h]))
        }
        _ => None,
    }
}

/// How many slots a blob has, by its row.
pub fn slot_count(value: &[u8]) -> u64 {
    number_at(value, 4, 2)
}

/// Whether this may be the value of a blob's row: of 1 to 256 slots.
pub fn is_blob(value: &[u8]) -> bool {
    let count = slot_count(value);
    0 < count && count <= 256 && value.len() as u64 == count.saturating_mul(8).saturating_add(6)
}

/// What a blob's row keeps of the slot of this number, if it has one.
pub fn slot_in(value: &[u8], index: u64) -> Option<KeptSlot> {
    let at = index.saturating_mul(8).saturating_add(6) as usize;
    if index < slot_count(value) {
        Some(KeptSlot {
            unit: number_at(value, 0, 4).saturating_add(index),
            sum: number_at(value, at, 4),
            count: number_at(value, at.saturating_add(4), 4),
        })
    } else {
        None
    }
}

/// What is kept of a slot of the blob of this number, if there is one.
pub fn slot_of(rows: &[(Bytes, Bytes)], blob: u64, index: u64) -> Option<KeptSlot> {
    for row in rows {
        match blob_number(row.0.as_slice()) {
            Some(number) if number == blob => return slot_in(row.1.as_slice(), index),
            _ => {}
        }
    }
    None
}

/// How many pages of a shard stand on the slot.
fn pages_in(shard: &[u8], blob: u64, index: u64) -> u64 {
    let mut fields = Reader::new(shard);
    let mut count = 0u64;
    for _ in 0..shard.len() {
        if !fields.is_empty() && read_extent(&mut fields).stands_on(blob, index) {
            count = count.wrapping_add(1);
        }
    }
    count
}

/// How many pages stand on the slot.
pub fn pages_on(rows: &[(Bytes, Bytes)], blob: u64, index: u64) -> u64 {
    let mut count = 0u64;
    for row in rows {
        if is_shard_key(row.0.as_slice()) {
            count = count.wrapping_add(pages_in(row.1.as_slice(), blob, index));
        }
    }
    count
}
