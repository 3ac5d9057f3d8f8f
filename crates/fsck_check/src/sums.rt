//! The bytes of the units on which pages stand, compared with the checksums that are kept for the pages.
ghost use Rattle.std.specs.Prelude.{◌≡◌, ◌+◌, ◌*◌, ◌<◌, ◌≤◌, ◌^◌, [], ◌∷◌, length, IfOk, OnOk, IsErrOf};
ghost use Rattle.byte_maps.specs.Units.{IsUnits, unit_at};
ghost use Rattle.block_device.specs.Prelude.{Rose};
ghost use Rattle.meta_log.specs.Prelude.{IsSuper, width_of};
ghost use Rattle.row_format.specs.Prelude.{Extent, shared, slot};
ghost use Rattle.plan_rows.specs.Prelude.{page_unit};
ghost use Rattle.plan_rows.specs.Stores.{AreRowsOfWidth};
ghost use Rattle.store_image.specs.Prelude.{NoBadRow};
ghost use Rattle.read_facts.specs.Prelude.{IsHeldAt};
ghost use Rattle.fsck_check.specs.Sums.{
  IsUnitIn,
  unit_sums_from,
  sum_at,
  slot_sums,
  extent_places,
  shard_places,
  BodyInside,
  AllInside,
  SpellsInside,
  AddsSums,
  AddsRowSums,
  FindsSums,
};

use blob_map::{At, Place};
use block_device::{Device, Failed};
use byte_maps::Items;
use crc32c_csum::crc32c;
use findings::Finding;
use meta_log::Super;
use meta_rows::RowTable;
use onode_codec::{Body, Extent, decode_extents};
use place_units::page_unit;
use row_check::is_shard;
use std::alloc::{AllocError, Global};
use unit_fields::Width;
use unit_fields::limits::{PIECE_UNITS, UNIT_BYTES};

// The most units of one read.
const READ_UNITS: usize = PIECE_UNITS as usize;

fn unit_of(bytes: &[u8], i: usize) -> &[u8]
    requires { 4096 * i + 4096 ≤ length bytes.now }
    ensures { result.now ≡ unit_at i bytes.now }
{
    &bytes[UNIT_BYTES * i..UNIT_BYTES * i + UNIT_BYTES]
}

// Compares the bytes of consecutive units with the checksums that are kept for them, and adds a finding for each unit with another one.
fn compare(
    at: u32,
    kept: &[u32],
    bytes: &[u8],
    found: &mut Items<Finding>,
) -> Result<(), AllocError>
    requires whole { IsUnits (length kept.now) bytes.now }
    requires fits { at + length kept.now ≤ 2 ^ 32 }
    ensures { OnOk result (AddsSums (IsUnitIn at (length kept.now) bytes.now) (unit_sums_from at kept.now) found.old found.new) }
{
    for i in 0..kept.len() {
        let sum = crc32c(unit_of(bytes, i));
        let own = kept[i];
        if sum != own {
            let unit = at + i as u32;
            found.push(Finding::BadSum {
                unit,
                kept: own,
                found: sum,
            })?;
        }
    }
    Ok(())
}

// Reads consecutive units and compares their bytes.
fn check_run<D: Device>(
    dev: &mut D,
    at: u32,
    kept: &[u32],
    buffer: &mut Vec<u8>,
    found: &mut Items<Finding>,
) -> Result<(), Failed>
    requires idle { (D.disk dev.old).flights ≡ [] }
    requires inside { at + length kept.now ≤ (D.disk dev.old).units }
    requires fits { at + length kept.now ≤ 2 ^ 32 }
    requires few { length kept.now < 2 ^ 32 }
    ensures same { D.disk dev.new ≡ D.disk dev.old }
    ensures sums { OnOk result (AddsSums (IsHeldAt (D.disk dev.old)) (unit_sums_from at kept.now) found.old found.new) }
    ensures later { D.faults dev.old ≤ D.faults dev.new }
    ensures cause { IsErrOf result Failed.Fault → Rose (D.faults dev.old) (D.faults dev.new) }
{
    dev.read(at, kept.len() as u32, buffer)?;
    match compare(at, kept, buffer, found) {
        Ok(()) => Ok(()),
        Err(_) => Err(Failed::Memory),
    }
}

// Does so for as many units as there are, at most 64 at a time.
fn check_units<D: Device>(
    dev: &mut D,
    unit: u32,
    csums: &[u32],
    buffer: &mut Vec<u8>,
    found: &mut Items<Finding>,
) -> Result<(), Failed>
    requires idle { (D.disk dev.old).flights ≡ [] }
    requires units { (D.disk dev.old).units ≤ 1048576 }
    requires inside { unit + length csums.now ≤ (D.disk dev.old).units }
    ensures same { D.disk dev.new ≡ D.disk dev.old }
    ensures sums { OnOk result (AddsSums (IsHeldAt (D.disk dev.old)) (unit_sums_from unit csums.now) found.old found.new) }
    ensures later { D.faults dev.old ≤ D.faults dev.new }
    ensures cause { IsErrOf result Failed.Fault → Rose (D.faults dev.old) (D.faults dev.new) }
{
    let mut at = unit;
    let mut left = csums;
    'pieces: while !left.is_empty() {
        let (piece, rest) = left.split_at(left.len().min(READ_UNITS));
        check_run(dev, at, piece, buffer, found)?;
        at += piece.len() as u32;
        left = rest;
    }
    Ok(())
}

// Does so for the unit of a slot of a blob.
fn check_slot<D: Device>(
    dev: &mut D,
    width: Width,
    rows: &RowTable,
    sbid: u64,
    index: u16,
    buffer: &mut Vec<u8>,
    found: &mut Items<Finding>,
) -> Result<(), Failed>
    requires idle { (D.disk dev.old).flights ≡ [] }
    requires units { (D.disk dev.old).units ≤ 1048576 }
    requires rows { AreRowsOfWidth width rows.now.rows }
    requires inside { (page_unit width rows.now.rows (slot sbid index)).unit < (D.disk dev.old).units }
    ensures same { D.disk dev.new ≡ D.disk dev.old }
    ensures sums { OnOk result (AddsSums (IsHeldAt (D.disk dev.old)) (sum_at (page_unit width rows.now.rows (slot sbid index)) ∷ []) found.old found.new) }
    ensures later { D.faults dev.old ≤ D.faults dev.new }
    ensures cause { IsErrOf result Failed.Fault → Rose (D.faults dev.old) (D.faults dev.new) }
{
    let place = Place {
        at: At::Slot { sbid, index },
    };
    let on = page_unit(width, rows, &place);
    check_units(dev, on.unit.number(), &[on.csum], buffer, found)
}

// Does so for the units of consecutive slots.
fn check_slots<D: Device>(
    dev: &mut D,
    width: Width,
    rows: &RowTable,
    sbid: u64,
    first: u16,
    count: u16,
    buffer: &mut Vec<u8>,
    found: &mut Items<Finding>,
) -> Result<(), Failed>
    requires idle { (D.disk dev.old).flights ≡ [] }
    requires units { (D.disk dev.old).units ≤ 1048576 }
    requires rows { AreRowsOfWidth width rows.now.rows }
    requires inside { BodyInside width rows.now.rows (D.disk dev.old).units (shared sbid first count) }
    ensures same { D.disk dev.new ≡ D.disk dev.old }
    ensures sums { OnOk result (AddsSums (IsHeldAt (D.disk dev.old)) (slot_sums width rows.now.rows sbid first count) found.old found.new) }
    ensures later { D.faults dev.old ≤ D.faults dev.new }
    ensures cause { IsErrOf result Failed.Fault → Rose (D.faults dev.old) (D.faults dev.new) }
{
    for i in 0..count {
        check_slot(dev, width, rows, sbid, first + i, buffer, found)?;
    }
    Ok(())
}

// Does so for the units of an extent.
fn check_extent<D: Device>(
    dev: &mut D,
    width: Width,
    rows: &RowTable,
    extent: &Extent,
    buffer: &mut Vec<u8>,
    found: &mut Items<Finding>,
) -> Result<(), Failed>
    requires idle { (D.disk dev.old).flights ≡ [] }
    requires units { (D.disk dev.old).units ≤ 1048576 }
    requires rows { AreRowsOfWidth width rows.now.rows }
    requires inside { BodyInside width rows.now.rows (D.disk dev.old).units extent.now.body }
    ensures same { D.disk dev.new ≡ D.disk dev.old }
    ensures sums { OnOk result (AddsSums (IsHeldAt (D.disk dev.old)) (extent_places width rows.now.rows extent.now) found.old found.new) }
    ensures later { D.faults dev.old ≤ D.faults dev.new }
    ensures cause { IsErrOf result Failed.Fault → Rose (D.faults dev.old) (D.faults dev.new) }
{
    match &extent.body {
        Body::Private { unit, csums } => {
            check_units(dev, unit.number(), csums.as_slice(), buffer, found)
        }
        Body::Shared { sbid, first, count } => {
            check_slots(dev, width, rows, *sbid, *first, *count, buffer, found)
        }
    }
}

// Does so for the extents of a shard.
fn check_shard<D: Device>(
    dev: &mut D,
    width: Width,
    rows: &RowTable,
    extents: &[Extent],
    buffer: &mut Vec<u8>,
    found: &mut Items<Finding>,
) -> Result<(), Failed>
    requires idle { (D.disk dev.old).flights ≡ [] }
    requires units { (D.disk dev.old).units ≤ 1048576 }
    requires rows { AreRowsOfWidth width rows.now.rows }
    requires inside { AllInside width rows.now.rows (D.disk dev.old).units extents.now }
    ensures same { D.disk dev.new ≡ D.disk dev.old }
    ensures sums { OnOk result (AddsSums (IsHeldAt (D.disk dev.old)) (shard_places width rows.now.rows extents.now) found.old found.new) }
    ensures later { D.faults dev.old ≤ D.faults dev.new }
    ensures cause { IsErrOf result Failed.Fault → Rose (D.faults dev.old) (D.faults dev.new) }
{
    for extent in extents {
        check_extent(dev, width, rows, extent, buffer, found)?;
    }
    Ok(())
}

// Does so for a row that is a shard; another row has no pages.
fn check_row<D: Device>(
    alloc: Global,
    dev: &mut D,
    width: Width,
    rows: &RowTable,
    key: &[u8],
    value: &[u8],
    buffer: &mut Vec<u8>,
    found: &mut Items<Finding>,
) -> Result<(), Failed>
    requires idle { (D.disk dev.old).flights ≡ [] }
    requires units { (D.disk dev.old).units ≤ 1048576 }
    requires rows { AreRowsOfWidth width rows.now.rows }
    requires spells { SpellsInside width rows.now.rows key.now value.now (D.disk dev.old).units }
    ensures same { D.disk dev.new ≡ D.disk dev.old }
    ensures sums { OnOk result (AddsRowSums width rows.now.rows (IsHeldAt (D.disk dev.old)) key.now value.now found.old found.new) }
    ensures later { D.faults dev.old ≤ D.faults dev.new }
    ensures cause { IsErrOf result Failed.Fault → Rose (D.faults dev.old) (D.faults dev.new) }
{
    if !is_shard(key, value) {
        return Ok(());
    }
    let decoded = match decode_extents(alloc, width, value) {
        Ok(decoded) => decoded,
        Err(_) => return Err(Failed::Memory),
    };
    let Some(extents) = decoded else {
        unreachable!();
    };
    check_shard(dev, width, rows, &extents, buffer, found)
}

/// The bad pages of a store without bad rows, as findings: the units of each shard are read, at most 64 at a time, or one by one where pages are
/// on slots, in the order of the keys, which is that of collections, objects and pages.
pub(crate) fn bad_sums<D: Device>(
    alloc: Global,
    dev: &mut D,
    sup: &Super,
    rows: &RowTable,
) -> Result<Items<Finding>, Failed>
    requires idle { (D.disk dev.old).flights ≡ [] }
    requires limits { IsSuper sup.now }
    requires units { sup.now.units ≡ (D.disk dev.old).units }
    requires good { NoBadRow sup.now rows.now.rows }
    ensures same { D.disk dev.new ≡ D.disk dev.old }
    ensures sums { IfOk result (FindsSums (width_of sup.now) (IsHeldAt (D.disk dev.old)) rows.now.rows) }
    ensures later { D.faults dev.old ≤ D.faults dev.new }
    ensures cause { IsErrOf result Failed.Fault → Rose (D.faults dev.old) (D.faults dev.new) }
{
    let width = sup.width();
    let mut buffer = Vec::new(alloc);
    let mut found = Items::new(alloc);
    for (key, value) in rows.range(b"", None) {
        check_row(
            alloc,
            dev,
            width,
            rows,
            key.as_slice(),
            value.as_slice(),
            &mut buffer,
            &mut found,
        )?;
    }
    Ok(found)
}
