//! The units whose bits are 1.
ghost use Rattle.std.specs.Prelude.{◌≡◌, ◌↔◌, ◌/◌, ◌%◌, ◌<◌, ◌^◌, ℕ, Some, length, slice_index, IsTrue, IfOk, OnOk};
ghost use Rattle.row_format.specs.Prelude.{bitmap_key};
ghost use Rattle.bitmap_freelist.specs.Bitmap.{AreBitmapRows, AreMarked, IsBitmapRow};
ghost use Rattle.bitmap_freelist.specs.Masks.{AddsUpTo, AddsRow};

use crate::flips::{BYTE_UNITS, ROW_UNITS};
use meta_rows::RowTable;
use std::alloc::{AllocError, Global};
use unit_fields::{Fields, UnitSet};

// The first byte of the keys of the table, and the first one behind them.
const FIRST: &[u8] = b"b";

const END: &[u8] = b"c";

// The number of the row that has this key.
fn row_number(key: &[u8]) -> Option<u32>
    ensures { (row : ℕ) → row < 33554432 → key.now ≡ bitmap_key row → result ≡ Some row }
{
    let mut fields = Fields::new(key);
    fields.u8()?;
    fields.u32_be()
}

// Whether the bit at this place of a row is 1.
fn is_one(value: &[u8], place: u32) -> bool
    requires size { length value.now ≡ 16 }
    requires place { place < 128 }
    ensures { IsTrue result ↔ (slice_index value.now (place / 8) / 2 ^ (place % 8) % 2 ≡ 1) }
{
    (value[(place / BYTE_UNITS) as usize] >> (place % BYTE_UNITS)) & 1 == 1
}

// Puts in the units of a row whose bits are 1.
fn insert_marked(units: &mut UnitSet, row: u32, value: &[u8]) -> Result<(), AllocError>
    requires row { row < 33554432 }
    requires size { length value.now ≡ 16 }
    ensures { OnOk result (AddsUpTo 128 row value.now units.old units.new) }
{
    for place in 0..ROW_UNITS {
        if is_one(value, place) {
            units.insert(ROW_UNITS * row + place)?;
        }
    }
    Ok(())
}

// Puts in the units that a row says are taken.
fn insert_row(units: &mut UnitSet, key: &[u8], value: &[u8]) -> Result<(), AllocError>
    requires { IsBitmapRow key.now value.now }
    ensures { OnOk result (AddsRow key.now value.now units.old units.new) }
{
    match row_number(key) {
        Some(row) => insert_marked(units, row, value),
        None => unreachable!(),
    }
}

/// The units whose bits are 1: those that are taken. It goes over the rows of the table once, in the order of the units, each of
/// which takes a look-up in the set so far. (Ceph: `BitmapFreelistManager::enumerate_next`, over all.)
pub fn read(alloc: Global, rows: &RowTable) -> Result<UnitSet, AllocError>
    requires { AreBitmapRows rows.now.rows }
    ensures { IfOk result (λ units. AreMarked rows.now.rows units) }
{
    let mut units = UnitSet::new(alloc);
    for (key, value) in rows.range(FIRST, Some(END)) {
        insert_row(&mut units, key.as_slice(), value.as_slice())?;
    }
    Ok(units)
}
