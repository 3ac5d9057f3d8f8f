//! The units that the rows own.
ghost use Rattle.std.specs.Prelude.{ℕ, ◌≡◌, ◌<◌, ◌^◌, IfOk, OnOk, false, length, slice_index_or};
ghost use Rattle.std.specs.FinSet as set;
ghost use Rattle.meta_log.specs.Prelude.{width_of, IsSuper};
ghost use Rattle.store_image.specs.Prelude.{NoBadRow, IsOwned};
ghost use Rattle.row_check.specs.Marks.{EndsBlobBy, AddsMarks};
ghost use Rattle.row_check.specs.Owned.{AreOwned, AreShared, MarksOwners, AreMarkedOn, SpellsRowWithin, TellsShard};

use crate::counts::is_blob_key;
use crate::unit_marks::UnitMarks;
use meta_log::Super;
use meta_rows::RowTable;
use row_reading::{OBJECT, Row, read_row};
use std::alloc::{AllocError, Global};
use unit_fields::{UnitSet, Width};

// The bytes of an onode's value.
const ONODE_BYTES: usize = 8;

/// The units that the rows own, and those of them that have two owners or more.
#[derive(Drop)]
pub(crate) struct OwnedUnits {
    /// A page of an object's own or a slot that pages name stands on each of these.
    pub(crate) owned: UnitSet,
    /// Two such pages or slots or more stand on each of these.
    pub(crate) shared: UnitSet,
}

/// Whether the row that a key and a value spell is a shard: of an object's other row, its onode, the value has eight bytes.
pub fn is_shard(key: &[u8], value: &[u8]) -> bool
    ensures { (width : Width) → TellsShard width key.now value.now result }
{
    match key.split_first() {
        Some((kind, _)) => *kind == OBJECT && value.len() != ONODE_BYTES,
        None => false,
    }
}

// Marks the units of the slots that pages name of the row that was read, if it is a blob's.
fn mark_blob(marks: &mut UnitMarks, row: &Option<Row>)
    requires { EndsBlobBy (length marks.old.owned) row.now }
    ensures { AddsMarks row.now marks.old marks.new }
{
    match row {
        Some(
            Row::Blob {
                sbid: _sbid,
                first,
                slots,
            },
        ) => marks.mark_slots(first.number() as usize, slots.as_slice()),
        _ => {}
    }
}

// Marks the units of the pages, or of the slots, of the row that a key and a value spell.
fn mark_row(
    alloc: Global,
    marks: &mut UnitMarks,
    width: Width,
    key: &[u8],
    value: &[u8],
) -> Result<(), AllocError>
    requires { SpellsRowWithin width key.now value.now (length marks.old.owned) }
    ensures { OnOk result (AreMarkedOn width key.now value.now marks.old marks.new) }
{
    if is_shard(key, value) {
        marks.mark_spelled(width, value);
        return Ok(());
    }
    if !is_blob_key(key) {
        return Ok(());
    }
    let row = read_row(alloc, width, key, value)?;
    mark_blob(marks, &row);
    Ok(())
}

// Marks the units of all pages of objects' own, and of all slots that pages name.
fn marks_of(alloc: Global, sup: &Super, rows: &RowTable) -> Result<UnitMarks, AllocError>
    requires { NoBadRow sup.now rows.now.rows }
    ensures { IfOk result (λ marks. MarksOwners (width_of sup.now) rows.now.rows marks
        × (length marks.owned ≡ sup.now.units) × (length marks.shared ≡ sup.now.units)) }
{
    let mut marks = UnitMarks::new(alloc, sup.units)?;
    for (key, value) in rows.range(b"", None) {
        mark_row(
            alloc,
            &mut marks,
            sup.width(),
            key.as_slice(),
            value.as_slice(),
        )?;
    }
    Ok(marks)
}

// The units with a mark.
fn units_with_mark(alloc: Global, marks: &[bool]) -> Result<UnitSet, AllocError>
    requires { length marks.now < 2 ^ 32 }
    ensures { IfOk result (λ units. (unit : ℕ) → set.contains units unit ≡ slice_index_or marks.now unit false) }
{
    let mut units = Vec::new(alloc);
    for (unit, marked) in marks.iter().enumerate() {
        if *marked {
            units.push(unit as u32)?;
        }
    }
    Ok(UnitSet::from_ascending(units))
}

/// The units that the rows own, and those of them that have two owners or more.
///
/// Each row is read once, and two marks are kept for each unit of the device meanwhile.
pub(crate) fn owned_units(
    alloc: Global,
    sup: &Super,
    rows: &RowTable,
) -> Result<OwnedUnits, AllocError>
    requires limits { IsSuper sup.now }
    requires good { NoBadRow sup.now rows.now.rows }
    ensures owned { IfOk result (λ units. AreOwned (width_of sup.now) rows.now.rows units.owned) }
    ensures shared { IfOk result (λ units. AreShared (width_of sup.now) rows.now.rows units.shared) }
    ensures below { IfOk result (λ units. (unit : ℕ) → IsOwned (width_of sup.now) rows.now.rows unit → unit < sup.now.units) }
{
    let marks = marks_of(alloc, sup, rows)?;
    let owned = units_with_mark(alloc, marks.owned())?;
    let shared = units_with_mark(alloc, marks.shared())?;
    Ok(OwnedUnits { owned, shared })
}
