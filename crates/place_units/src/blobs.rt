//! Rows of shared blobs, and their slots.
ghost use Rattle.std.specs.Prelude.{◌≡◌, Some, option_copied};
ghost use Rattle.std.specs.FinMap as map;
ghost use Rattle.row_format.specs.Prelude.{shared_key};
ghost use Rattle.plan_rows.specs.Prelude.{slot_unit};
ghost use Rattle.place_units.specs.Blobs.{HasAllSlots, IsBlobValue, csum_of_slot};

use byte_maps::Bytes;
use meta_rows::RowTable;
use onode_codec::{RowKind, read_csum};
use plan_rows::PageUnit;
use unit_fields::{Fields, UnitNo, Width};

// The bytes of a slot's count.
const COUNT_BYTES: usize = 4;

// The key of a blob's row.
fn blob_key(sbid: u64) -> [u8; 9]
    ensures { result ≡ shared_key sbid }
{
    let mut key = [RowKind::Shared as u8, 0, 0, 0, 0, 0, 0, 0, 0];
    key[1..].copy_from_slice(&sbid.to_be_bytes());
    key
}

/// The value of a blob's row, lent. None: there is no such row.
pub fn blob_value<'a>(rows: &'a RowTable, sbid: u64) -> Option<&'a Bytes>
    ensures { option_copied result ≡ map.get rows.now.rows (shared_key sbid) }
{
    rows.get(&blob_key(sbid))
}

// The checksum that is kept for a slot, by what stands behind the first unit in the row's value.
fn csum_of_slot(width: Width, fields: &mut Fields, index: u16) -> u32
    requires { HasAllSlots width fields.old }
    ensures { result ≡ csum_of_slot width fields.old index }
{
    let Some(count) = fields.u16() else {
        unreachable!();
    };
    if index >= count {
        return 0;
    }
    let before = width.bytes_of(usize::from(index)) + COUNT_BYTES * usize::from(index);
    let Some(_) = fields.bytes(before) else {
        unreachable!();
    };
    let Some(csum) = read_csum(fields, width) else {
        unreachable!();
    };
    csum
}

/// Where a slot of a blob is, by the value of the blob's row: its unit, and the checksum that is kept for it.
pub fn slot_unit(width: Width, value: &[u8], index: u16) -> PageUnit
    requires { IsBlobValue width value.now }
    ensures { result ≡ slot_unit width (Some value.now) index }
{
    let mut fields = Fields::new(value);
    let Some(first) = fields.u32() else {
        unreachable!();
    };
    let unit = UnitNo::new(first + u32::from(index));
    let csum = csum_of_slot(width, &mut fields, index);
    PageUnit { unit, csum }
}
