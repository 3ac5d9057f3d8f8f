//! Places of pages.
ghost use Rattle.std.specs.Prelude.{◌≡◌};
ghost use Rattle.row_format.specs.Prelude.{slot};
ghost use Rattle.plan_rows.specs.Prelude.{page_unit};
ghost use Rattle.plan_rows.specs.Stores.{AreRowsOfWidth};

use crate::blobs::{blob_value, slot_unit};
use blob_map::{At, Place};
use meta_rows::RowTable;
use plan_rows::PageUnit;
use unit_fields::{UnitNo, Width};

// Where a slot of a blob is, by the rows.
fn unit_of_slot(width: Width, rows: &RowTable, sbid: u64, index: u16) -> PageUnit
    requires { AreRowsOfWidth width rows.now.rows }
    ensures { result ≡ page_unit width rows.now.rows (slot sbid index) }
{
    match blob_value(rows, sbid) {
        Some(value) => slot_unit(width, value.as_slice(), index),
        None => PageUnit {
            unit: UnitNo::new(0),
            csum: 0,
        },
    }
}

/// The unit on which a page at this place stands, and the checksum that is kept for it.
pub fn page_unit(width: Width, rows: &RowTable, place: &Place) -> PageUnit
    requires { AreRowsOfWidth width rows.now.rows }
    ensures { result ≡ page_unit width rows.now.rows place.now }
{
    match place.at {
        At::Unit { unit, csum } => PageUnit { unit, csum },
        At::Slot { sbid, index } => unit_of_slot(width, rows, sbid, index),
    }
}
