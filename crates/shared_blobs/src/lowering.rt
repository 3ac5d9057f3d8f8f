//! Blobs whose slots pages leave.
ghost use Rattle.std.specs.Prelude.{◌≡◌, ◌<◌, ◌^◌, ◌++◌, ◌∷◌, [], ℕ, List, option_to_list, IfOk, OnOk};
ghost use Rattle.std.specs.Option.{IfSome};
ghost use Rattle.std.specs.FinMap as finite;
ghost use Rattle.row_format.specs.Prelude.{shared_key};
ghost use Rattle.plan_rows.specs.Stores.{AreRowsOfWidth};
ghost use Rattle.plan_rows.specs.declared.plan.SlotNo.{SlotNo};
ghost use Rattle.shared_blobs.specs.Blob.{blob_now, HasUnits};
ghost use Rattle.shared_blobs.specs.Lowering.{blob_left, HaveUnits, AreLowered};

use crate::shared_blob::SharedBlob;
use byte_maps::{ByteMap, Bytes};
use meta_rows::RowTable;
use onode_codec::shared_key;
use place_units::blob_value;
use plan_rows::SlotNo;
use std::alloc::{AllocError, Global};
use unit_fields::{UnitNo, Width};

/// Blobs that pages left.
#[derive(Drop)]
pub struct Lowered {
    /// As they are then, by the keys of their rows.
    pub blobs: ByteMap<SharedBlob>,
    /// The units of the slots that no page names any more.
    pub freed: Vec<UnitNo>,
}

// The key of a blob's row.
fn blob_key(alloc: Global, sbid: u64) -> Result<Bytes, AllocError>
    ensures key { IfOk result (λ key. key ≡ shared_key sbid) }
    ensures small { sbid < 2 ^ 64 }
{
    shared_key(alloc, sbid)
}

// The blob as its row has it. None: there is no such row.
fn read_blob(
    alloc: Global,
    width: Width,
    rows: &RowTable,
    sbid: u64,
) -> Result<Option<SharedBlob>, AllocError>
    requires { AreRowsOfWidth width rows.now.rows }
    ensures { IfOk result (λ blob. blob ≡ blob_now width (finite.get rows.now.rows (shared_key sbid)) []) }
{
    match blob_value(rows, sbid) {
        Some(value) => match SharedBlob::decode(alloc, width, value.as_slice())? {
            Some(blob) => Ok(Some(blob)),
            None => unreachable!(),
        },
        None => Ok(None),
    }
}

// Takes a blob out of those that pages left, or reads it from its row.
fn take_blob(
    alloc: Global,
    width: Width,
    rows: &RowTable,
    sbid: u64,
    key: &Bytes,
    blobs: &mut ByteMap<SharedBlob>,
) -> Result<Option<SharedBlob>, AllocError>
    requires good { AreRowsOfWidth width rows.now.rows }
    requires key { key.now ≡ shared_key sbid }
    requires units { HaveUnits blobs.old }
    ensures blob { IfOk result (λ blob. (ks : List ℕ)
        → finite.get blobs.old (shared_key sbid) ≡ blob_left width (finite.get rows.now.rows (shared_key sbid)) ks
        → blob ≡ blob_now width (finite.get rows.now.rows (shared_key sbid)) ks) }
    ensures units { IfOk result (λ blob. IfSome blob HasUnits) }
    ensures taken { OnOk result (blobs.new ≡ finite.remove blobs.old (shared_key sbid)) }
{
    match blobs.take(key.as_slice()) {
        Some(blob) => Ok(Some(blob)),
        None => read_blob(alloc, width, rows, sbid),
    }
}

// Adds a unit, if there is one.
fn add(freed: &mut Vec<UnitNo>, unit: Option<UnitNo>) -> Result<(), AllocError>
    ensures { OnOk result (freed.new.items ≡ freed.old.items ++ option_to_list unit) }
{
    match unit {
        Some(unit) => Ok(freed.push(unit)?),
        None => Ok(()),
    }
}

// One page leaves a slot. Its blob is read where none has left a slot of that before.
fn leave(
    alloc: Global,
    width: Width,
    rows: &RowTable,
    slot: SlotNo,
    lowered: &mut Lowered,
) -> Result<(), AllocError>
    requires good { AreRowsOfWidth width rows.now.rows }
    requires units { HaveUnits lowered.old.blobs }
    ensures { OnOk result ((left : List SlotNo) → AreLowered width rows.now.rows left lowered.old
        → AreLowered width rows.now.rows (left ++ slot ∷ []) lowered.new) }
{
    let key = blob_key(alloc, slot.sbid)?;
    let held = take_blob(alloc, width, rows, slot.sbid, &key, &mut lowered.blobs)?;
    let Some(mut blob) = held else {
        return Ok(());
    };
    let unit = blob.put(slot.index);
    add(&mut lowered.freed, unit)?;
    lowered.blobs.insert(key, blob)
}

/// The blobs of these slots once a page has left each of them, and the units that come free. Where there is none nothing is read, and no memory
/// taken.
pub fn lower(
    alloc: Global,
    width: Width,
    rows: &RowTable,
    left: &[SlotNo],
) -> Result<Lowered, AllocError>
    requires { AreRowsOfWidth width rows.now.rows }
    ensures { IfOk result (AreLowered width rows.now.rows left.now) }
{
    let mut lowered = Lowered {
        blobs: ByteMap::new(alloc),
        freed: Vec::new(alloc),
    };
    for slot in left {
        leave(alloc, width, rows, *slot, &mut lowered)?;
    }
    Ok(lowered)
}
