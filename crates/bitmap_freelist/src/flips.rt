//! The row operations that turn units' bits.
ghost use Rattle.std.specs.Prelude.{◌≡◌, IfOk, OnOk};
ghost use Rattle.meta_rows.specs.Prelude.{FitsRowOp};
ghost use Rattle.meta_rows.specs.declared.row_op.RowOp.TheVariants.{Flip};
ghost use Rattle.row_format.specs.Prelude.{bitmap_key};
ghost use Rattle.bitmap_freelist.specs.Bitmap.{GetFlips};
ghost use Rattle.bitmap_freelist.specs.Masks.{IsFrontOfRow, mask_of};

use byte_maps::Bytes;
use meta_rows::RowOp;
use onode_codec::bitmap_key;
use std::alloc::{AllocError, Global};
use unit_fields::UnitSet;

/// The bits of so many units stand in one row.
pub(crate) const ROW_UNITS: u32 = 128;

/// And of so many in one byte of it.
pub(crate) const BYTE_UNITS: u32 = 8;

// The bytes of a row or of a mask.
const ROW_BYTES: usize = 16;

// How many units at the front are of this row.
fn count_of_row(units: &[u32], row: u32) -> usize
    ensures { IsFrontOfRow row result units.now }
{
    for (i, unit) in units.iter().enumerate() {
        if *unit / ROW_UNITS != row {
            return i;
        }
    }
    units.len()
}

// The bytes of a row in which the bits of these units are 1.
fn row_mask(units: &[u32]) -> [u8; ROW_BYTES]
    ensures { result ≡ mask_of units.now }
{
    let mut mask = [0; ROW_BYTES];
    for unit in units {
        mask[(*unit % ROW_UNITS / BYTE_UNITS) as usize] |= 1 << (*unit % BYTE_UNITS);
    }
    mask
}

// The operation that turns the bits of these units of a row.
fn flip(alloc: Global, row: u32, units: &[u32]) -> Result<RowOp, AllocError>
    ensures is { IfOk result (λ op. op ≡ Flip (bitmap_key row) (mask_of units.now)) }
    ensures fits { IfOk result FitsRowOp }
{
    let key = bitmap_key(alloc, row)?;
    let mask = Bytes::from_slice(alloc, &row_mask(units))?;
    Ok(RowOp::Flip { key, mask })
}

/// Pushes the row operations that turn the bits of these units, from 0 to 1 where they are taken and from 1 to 0 where they are freed: one
/// for each row that has one of them, in the order of the rows, whose mask has 16 bytes. It looks at each unit twice.
/// (Ceph: `BitmapFreelistManager::allocate` and `release`, which both are `_xor`.)
pub fn push_flips(ops: &mut Vec<RowOp>, units: &UnitSet) -> Result<(), AllocError>
    ensures { OnOk result (GetFlips units.now ops.old.items ops.new.items) }
{
    let alloc = *ops.allocator();
    let mut left = units.as_slice();
    while let Some(first) = left.first() {
        let row = *first / ROW_UNITS;
        let (of_row, behind) = left.split_at(count_of_row(left, row));
        ops.push(flip(alloc, row, of_row)?)?;
        left = behind;
    }
    Ok(())
}
