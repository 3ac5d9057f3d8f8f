//! What the rows say of each data unit: its bit in the freelist's bitmap, and the page or the slot of a shared blob that it is of.

use crate::blobs::{blob_number, pages_on, slot_count, slot_in};
use crate::object::{Run, is_shard_key, read_extent};
use crate::reader::Reader;
use byte_maps::Bytes;
use std::alloc::Global;

/// Marks of data units, of which each is set and taken away in turn.
#[derive(Drop)]
struct Marks {
    /// The first data unit.
    first: u64,
    marks: Vec<bool>,
    /// Whether nothing was marked or taken away that couldn't be.
    are_good: bool,
}

impl Marks {
    /// Of so many data units none is marked.
    fn new(alloc: Global, first: u64, count: u64) -> Marks {
        let mut marks = Vec::new(alloc);
        let are_good = marks.resize(count as usize, false).is_ok();
        Marks {
            first,
            marks,
            are_good,
        }
    }

    /// Turns the mark of a unit, which must be the other one so far.
    fn turn(&mut self, unit: u64, to: bool) {
        match self.marks.get_mut(unit.wrapping_sub(self.first) as usize) {
            Some(mark) => {
                self.are_good = self.are_good && *mark != to;
                *mark = to;
            }
            None => self.are_good = false,
        }
    }

    /// Marks the units whose bits are 1 in a byte, from the lowest bit on.
    fn mark_byte(&mut self, unit: u64, byte: u8) {
        for bit in 0..8u64 {
            if (byte >> bit) % 2 == 1 {
                self.turn(unit.saturating_add(bit), true);
            }
        }
    }

    /// Marks the units whose bits are 1 in a row.
    fn mark_row(&mut self, number: u64, bits: &[u8]) {
        let mut unit = number.saturating_mul(128);
        for byte in bits {
            self.mark_byte(unit, *byte);
            unit = unit.saturating_add(8);
        }
    }

    /// Takes away the marks of so many units.
    fn unmark_units(&mut self, first: u64, count: u64) {
        for i in 0..count {
            self.turn(first.saturating_add(i), false);
        }
    }

    /// Takes away the marks of an extent's units. Those of slots go with their blob.
    fn unmark_extent(&mut self, fields: &mut Reader<'_>) {
        let extent = read_extent(fields);
        match extent.run {
            Run::Units { first, .. } => self.unmark_units(first, extent.count),
            Run::Slots { .. } => {}
        }
    }

    /// Takes away the marks of a shard's units.
    fn unmark_shard(&mut self, shard: &[u8]) {
        let mut fields = Reader::new(shard);
        for _ in 0..shard.len() {
            if !fields.is_empty() {
                self.unmark_extent(&mut fields);
            }
        }
        if !fields.is_done() {
            self.are_good = false;
        }
    }

    /// Marks what the bitmap marks.
    fn mark_all(&mut self, rows: &[(Bytes, Bytes)]) {
        for row in rows {
            if let Some(number) = row_number(row.0.as_slice()) {
                self.mark_row(number, row.1.as_slice());
            }
        }
    }

    /// Takes away the mark of a slot's unit, where pages stand there: as many as its count says. Tells whether some do.
    fn unmark_slot(
        &mut self,
        rows: &[(Bytes, Bytes)],
        blob: u64,
        value: &[u8],
        index: u64,
    ) -> bool {
        let Some(slot) = slot_in(value, index) else {
            return false;
        };
        let is_named = slot.count != 0;
        if is_named {
            self.turn(slot.unit, false);
        }
        self.are_good = self.are_good
            && slot.count == pages_on(rows, blob, index)
            && (is_named || slot.sum == 0);
        is_named
    }

    /// Takes away the marks of a blob's units on which pages stand. There must be some.
    fn unmark_blob(&mut self, rows: &[(Bytes, Bytes)], blob: u64, value: &[u8]) {
        let mut is_named = false;
        for index in 0..slot_count(value) {
            is_named = self.unmark_slot(rows, blob, value, index) || is_named;
        }
        self.are_good = self.are_good && is_named;
    }

    /// Takes away the marks of a row's units.
    fn unmark_row(&mut self, rows: &[(Bytes, Bytes)], key: &[u8], value: &[u8]) {
        if let Some(blob) = blob_number(key) {
            self.unmark_blob(rows, blob, value);
        } else if is_shard_key(key) {
            self.unmark_shard(value);
        }
    }

    /// Takes away the marks of the units of all pages and slots.
    fn unmark_all(&mut self, rows: &[(Bytes, Bytes)]) {
        for row in rows {
            self.unmark_row(rows, row.0.as_slice(), row.1.as_slice());
        }
    }

    /// The units that are marked, ascending.
    fn units(&self, alloc: Global) -> Option<Vec<u64>> {
        let mut units = Vec::new(alloc);
        let mut unit = self.first;
        let mut are_good = self.are_good;
        for mark in &self.marks {
            if *mark && units.push(unit).is_err() {
                are_good = false;
            }
            unit = unit.wrapping_add(1);
        }
        if are_good { Some(units) } else { None }
    }
}

/// The number of the bitmap's row that has this key.
pub fn row_number(key: &[u8]) -> Option<u64> {
    match key {
        [b'b', a, b, c, d] => Some(u64::from(u32::from_be_bytes([*a, *b, *c, *d]))),
        _ => None,
    }
}

/// Of so many data units from the first one on, those whose bit is 1 and on which no page stands, ascending. None where a bit is 1 that is
/// of no data unit, or a page or a slot that counts pages is on a unit whose bit is 0, or on one of another page or slot; where the count of a
/// slot isn't the number of pages that stand there; or where memory runs out.
pub fn leaked_units(
    alloc: Global,
    rows: &[(Bytes, Bytes)],
    first: u64,
    count: u64,
) -> Option<Vec<u64>> {
    let mut marks = Marks::new(alloc, first, count);
    marks.mark_all(rows);
    marks.unmark_all(rows);
    marks.units(alloc)
}
