//! What an image of a device holds.

use crate::bitmap::{leaked_units, row_number};
use crate::blobs::{blob_number, is_blob};
use crate::object::{Object, read_object};
use crate::reader::{are_zeros, number_at};
use crate::record::{Rows, make_all, read_record};
use crate::values::is_value;
use byte_maps::{ByteMap, Bytes};
use crc32c_csum::crc32c;
use std::alloc::Global;

/// The rows of a store in an image.
#[derive(Drop)]
pub struct Found {
    alloc: Global,
    rows: Rows,
    /// The first data unit, and how many there are.
    first: u64,
    count: u64,
}

/// A valid superblock slot.
#[derive(Clone, Copy)]
struct Slot {
    units: u64,
    half: u64,
    epoch: u64,
    first: u64,
}

/// The place of a unit's first byte.
pub fn start_of(unit: u64) -> usize {
    unit.saturating_mul(4096) as usize
}

/// The bytes of so many units; none where the image ends before.
fn units(image: &[u8], from: u64, count: u64) -> &[u8] {
    image
        .get(start_of(from)..start_of(from.saturating_add(count)))
        .unwrap_or(&[])
}

/// The bytes of a unit; none where the image ends before.
pub fn unit(image: &[u8], at: u64) -> &[u8] {
    units(image, at, 1)
}

/// Whether a unit is a slot of version 1 by its first bytes, with zeros behind the fields and a right checksum.
fn is_slot(unit: &[u8]) -> bool {
    let body = unit.get(..4092).unwrap_or(&[]);
    body.starts_with(b"BSTORE01")
        && number_at(body, 8, 4) == 1
        && are_zeros(body, 40)
        && number_at(unit, 4092, 4) == u64::from(crc32c(body))
}

impl Slot {
    /// Whether the slot of this number may say this of an image of so many bytes.
    fn fits(&self, len: usize, at: u64) -> bool {
        len == start_of(self.units) && self.first_data() < self.units && self.epoch % 2 == at
    }

    /// The first data unit.
    fn first_data(&self) -> u64 {
        self.half.saturating_mul(2).saturating_add(2)
    }
}

/// The slot of this number, where it is valid.
fn read_slot(image: &[u8], at: u64) -> Option<Slot> {
    let unit = unit(image, at);
    let slot = Slot {
        units: number_at(unit, 12, 4),
        half: number_at(unit, 16, 4),
        epoch: number_at(unit, 24, 8),
        first: number_at(unit, 32, 8),
    };
    if is_slot(unit) && slot.fits(image.len(), at) {
        Some(slot)
    } else {
        None
    }
}

/// The valid slot of greatest epoch.
fn active_slot(image: &[u8]) -> Option<Slot> {
    match (read_slot(image, 0), read_slot(image, 1)) {
        (Some(a), Some(b)) => Some(if a.epoch < b.epoch { b } else { a }),
        (Some(a), None) => Some(a),
        (None, b) => b,
    }
}

/// The units of the active half.
fn active_half<'a>(image: &'a [u8], slot: &Slot) -> &'a [u8] {
    let start = slot.half.saturating_mul(slot.epoch % 2).saturating_add(2);
    units(image, start, slot.half)
}

/// Whether these are the bits of a row of the bitmap: 16 bytes, not all of them zero.
fn are_bits(value: &[u8]) -> bool {
    value.len() == 16 && !are_zeros(value, 0)
}

/// Whether the row is one of a collection, of an object, of a shard, of a value of an object, of a shared blob, or of the bitmap.
fn is_known(row: &(Bytes, Bytes)) -> bool {
    match row.0.as_slice() {
        [b'C', ..] => row.1.is_empty(),
        [b'O', ..] => !row.1.is_empty(),
        key @ ([b'A', ..] | [b'M', ..]) => is_value(key, row.1.as_slice()),
        key @ [b'X', ..] => blob_number(key).is_some() && is_blob(row.1.as_slice()),
        key => row_number(key).is_some() && are_bits(row.1.as_slice()),
    }
}

impl Found {
    /// What the image holds; None where neither slot is valid, or a row is of no kind that there is, or memory runs out.
    pub fn read(alloc: Global, image: &[u8]) -> Option<Found> {
        match active_slot(image) {
            Some(slot) => Found::of_slot(alloc, image, &slot),
            None => None,
        }
    }

    /// What the image holds, where this is its slot.
    fn of_slot(alloc: Global, image: &[u8], slot: &Slot) -> Option<Found> {
        let first = slot.first_data();
        let mut found = Found {
            alloc,
            rows: ByteMap::new(alloc),
            first,
            count: slot.units.saturating_sub(first),
        };
        if found.make_rows(active_half(image, slot), slot) && found.are_known() {
            Some(found)
        } else {
            None
        }
    }

    /// Makes the rows that the records of a half make; false where memory runs out.
    fn make_rows(&mut self, half: &[u8], slot: &Slot) -> bool {
        let mut left = half;
        let mut number = slot.first;
        for _ in 0..slot.half {
            let Some(record) = read_record(left, number) else {
                break;
            };
            if make_all(self.alloc, &mut self.rows, &record).is_err() {
                return false;
            }
            left = record.rest;
            number = number.wrapping_add(1);
        }
        true
    }

    /// Whether each row is of a kind that there is.
    fn are_known(&self) -> bool {
        for row in self.rows.entries() {
            if !is_known(row) {
                return false;
            }
        }
        true
    }

    /// All rows, by their keys.
    pub fn rows(&self) -> &[(Bytes, Bytes)] {
        self.rows.entries()
    }

    /// How many rows there are of collections, of objects, of shards and of values together.
    pub fn len(&self) -> usize {
        let mut count = 0usize;
        for row in self.rows.entries() {
            if !matches!(row.0.as_slice(), [b'X' | b'b', ..]) {
                count = count.wrapping_add(1);
            }
        }
        count
    }

    /// Whether the bitmap has the row of this number.
    pub fn has_bitmap_row(&self, number: u8) -> bool {
        self.rows.contains_key(&[b'b', 0, 0, 0, number])
    }

    /// The units that the bitmap marks and on which no page stands, ascending. None where the bitmap isn't exact but for these: a bit is 1
    /// that is of no data unit, or a page or a slot that counts pages is on a unit whose bit is 0, or on one of another page or slot; where
    /// the count of a slot isn't the number of pages that stand there; or where memory runs out.
    pub fn leaked(&self) -> Option<Vec<u64>> {
        leaked_units(self.alloc, self.rows.entries(), self.first, self.count)
    }

    /// Whether there is this collection.
    pub fn has_collection(&self, coll: &[u8]) -> bool {
        for row in self.rows.entries() {
            match row.0.as_slice() {
                [b'C', name @ ..] if name == coll => return true,
                _ => {}
            }
        }
        false
    }

    /// The object under two names, if there is one.
    pub fn object(&self, image: &[u8], coll: &[u8], name: &[u8]) -> Option<Object> {
        read_object(self.alloc, image, self.rows.entries(), coll, name)
    }
}
