//! Pages of an object, found on units.
ghost use Rattle.std.specs.Prelude.{◌≡◌, ℕ, option_copied};
ghost use Rattle.std.specs.FinMap as finite;
ghost use Rattle.row_format.specs.Prelude.{slot, shared_key};
ghost use Rattle.plan_rows.specs.Prelude.{page_unit};
ghost use Rattle.plan_rows.specs.Stores.{AreRowsOfWidth};
ghost use Rattle.page_lookup.specs.Prelude.{HasNumber};
ghost use Rattle.page_sources.specs.Found.{unit_found};

use blob_map::{At, Place};
use byte_maps::Bytes;
use meta_rows::RowTable;
use page_lookup::ShardPages;
use place_units::{blob_value, slot_unit};
use plan_rows::PageUnit;
use std::marker::Model;
use unit_fields::{UnitNo, Width};

/// The pages of an object, each looked up in its shards and found on the unit where its place is. The row of a blob whose slots follow each
/// other is looked up once: the last blob's number and the value of its row are kept.
#[derive(Drop)]
pub struct UnitPages<'a> {
    width: Width,
    rows: &'a RowTable,
    pages: ShardPages<'a>,
    // The blob that was looked up last, and the value of its row, if it has one.
    sbid: u64,
    blob: Option<&'a Bytes>,
}

impl<'a> Model for UnitPages<'a> {
    ghost use Rattle.std.specs.Prelude.{ℕ, option_copied};
    ghost use Rattle.std.specs.Coded.{codes};
    ghost use Rattle.meta_log.specs.Prelude.{coded_rows};
    ghost use Rattle.page_lookup.specs.Prelude.{HasNumber};
    ghost use Rattle.plan_rows.specs.Stores.{AreRowsOfWidth};
    ghost use Rattle.page_sources.specs.Found.{PagesByRows, IsRowOfBlob};

    ghost Value = { PagesByRows };

    ghost coded = { Prim.hlevel (codes, coded_rows) };

    ghost view = { λ a. record { width = a.width; rows = a.rows.now.rows; extents = a.pages } };

    ghost invariant = { λ a. AreRowsOfWidth a.width a.rows.now.rows × ((page : ℕ) → HasNumber a.pages page)
        × IsRowOfBlob a.rows.now.rows a.sbid (option_copied a.blob) };
}

impl<'a> UnitPages<'a> {
    /// The pages of an object of these rows.
    pub fn new(width: Width, rows: &'a RowTable, pages: ShardPages<'a>) -> UnitPages<'a>
        requires rows { AreRowsOfWidth width rows.now.rows }
        requires numbers { (page : ℕ) → HasNumber pages page }
        ensures { result ≡ record { width = width; rows = rows.now.rows; extents = pages.entry } }
    {
        UnitPages {
            width,
            rows,
            pages,
            sbid: 0,
            blob: None,
        }
    }

    // The value of a blob's row, which is looked up and kept.
    fn look_up(&mut self, sbid: u64) -> Option<&'a Bytes>
        ensures value { option_copied result ≡ finite.get self.old.rows (shared_key sbid) }
        ensures same { self.new ≡ self.old }
    {
        let value = blob_value(self.rows, sbid);
        self.sbid = sbid;
        self.blob = value;
        value
    }

    // The same. That of the last blob is at hand.
    fn value_of(&mut self, sbid: u64) -> Option<&'a Bytes>
        ensures value { option_copied result ≡ finite.get self.old.rows (shared_key sbid) }
        ensures same { self.new ≡ self.old }
    {
        match self.blob {
            Some(value) if self.sbid == sbid => Some(value),
            _ => self.look_up(sbid),
        }
    }

    // Where a slot of a blob is.
    fn unit_of_slot(&mut self, sbid: u64, index: u16) -> PageUnit
        ensures unit { result ≡ page_unit self.old.width self.old.rows (slot sbid index) }
        ensures same { self.new ≡ self.old }
    {
        match self.value_of(sbid) {
            Some(value) => slot_unit(self.width, value.as_slice(), index),
            None => PageUnit {
                unit: UnitNo::new(0),
                csum: 0,
            },
        }
    }

    // Where a place is.
    fn unit_of(&mut self, place: &Place) -> PageUnit
        ensures unit { result ≡ page_unit self.old.width self.old.rows place.now }
        ensures same { self.new ≡ self.old }
    {
        match place.at {
            At::Unit { unit, csum } => PageUnit { unit, csum },
            At::Slot { sbid, index } => self.unit_of_slot(sbid, index),
        }
    }

    /// The unit that a page stands on, and the checksum that is kept for it. None: the page is a hole.
    pub fn find(&mut self, page: u32) -> Option<PageUnit>
        ensures unit { result ≡ unit_found self.old page }
        ensures same { self.new ≡ self.old }
    {
        let place = self.pages.find(page)?;
        Some(self.unit_of(&place))
    }
}
