//! The rows of the objects that a transaction has changed, once its units are taken.
//!
//! An onode is written where the object is longer or shorter than it was. Where one of its pages has come, gone or moved, its map is cut
//! into shards anew, and of these the ones are written whose bytes aren't those of the row that is there. Each blob of which pages have left
//! slots is written once, or its row goes.
ghost use Rattle.std.specs.Prelude.{◌≡◌, ◌≤◌, ℕ, Option, length, slice_get, IfOk, OnOk};
ghost use Rattle.std.specs.Option.{option_map};
ghost use Rattle.std.specs.FinMap as finite;
ghost use Rattle.row_format.specs.Prelude.{coll_key};
ghost use Rattle.plan_drafts.specs.Prelude.{or_empty, laid};
ghost use Rattle.page_edits.specs.Writes.{held_in};
ghost use Rattle.shared_blobs.specs.Lowering.{AreLowered};
ghost use Rattle.txn_planner.specs.Laying.{
  PutsBelow,
  AllTakeBelow,
  AllNamed,
  is_as_long,
  with_onode,
  with_touched,
  with_objects,
  coll_row,
  with_blobs,
  IsChangesOf,
};

use crate::operations::is_any_on_coll;
use crate::planning::Planning;
use crate::shard_rows::put_map;
use crate::touched::Touched;
use blob_map::PageMap;
use byte_maps::{ByteMap, Bytes};
use bytes::Bytes as SharedBytes;
use meta_rows::RowTable;
use object_model::Transaction;
use object_rows::coll_name_is_one;
use onode_codec::{Onode, coll_key, onode_key};
use page_edits::lay;
use plan_drafts::Draft;
use row_changes::RowChanges;
use shared_blobs::{Lowered, SharedBlob};
use std::alloc::{AllocError, Global};
use unit_fields::{CollName, Name, UnitNo, Width};

// ---- one object

// Its pages: those that stand where they stood, and those that were put, on their units. A missing object has none.
fn lay_pages(
    alloc: Global,
    now: Option<Draft>,
    units: &[UnitNo],
    contents: &[SharedBytes],
) -> Result<PageMap, AllocError>
    requires units { PutsBelow (length units.now) now }
    requires contents { PutsBelow (length contents.now) now }
    ensures { IfOk result (λ pages. pages ≡ (or_empty (option_map (laid units.now (held_in contents.now)) now)).pages) }
{
    match now {
        Some(draft) => lay(draft, units, contents),
        None => Ok(PageMap::new(alloc)),
    }
}

// Whether the object is as long as it was, or missing as it was.
fn is_as_long(before: Option<u64>, size: Option<u64>) -> bool
    ensures { result ≡ is_as_long before size }
{
    match (before, size) {
        (Some(before), Some(size)) => before == size,
        (None, None) => true,
        _ => false,
    }
}

// Its onode says this size, or goes where there is none. One that says it already stays.
fn put_onode(
    alloc: Global,
    coll: &CollName,
    object: &Name,
    before: Option<u64>,
    size: Option<u64>,
    changes: &mut RowChanges,
) -> Result<(), AllocError>
    ensures { OnOk result (changes.new ≡ with_onode coll.now object.now before size changes.old) }
{
    if is_as_long(before, size) {
        return Ok(());
    }
    let key = onode_key(alloc, coll, object)?;
    match size {
        Some(size) => {
            let value = Onode { size }.encode(alloc)?;
            changes.set(key, Some(value))
        }
        None => changes.set(key, None),
    }
}

// An object that was looked at gets its rows: its onode by its size alone, and its shards by its map alone.
fn put_touched(
    alloc: Global,
    width: Width,
    rows: &RowTable,
    coll: &CollName,
    object: &Name,
    touched: Touched,
    units: &[UnitNo],
    contents: &[SharedBytes],
    changes: &mut RowChanges,
) -> Result<(), AllocError>
    requires units { PutsBelow (length units.now) touched.now }
    requires contents { PutsBelow (length contents.now) touched.now }
    ensures { OnOk result (changes.new
        ≡ with_touched width rows.now.rows coll.now units.now (held_in contents.now) object.now touched changes.old) }
{
    let is_moved = touched.is_moved();
    let Touched {
        before,
        shards,
        now,
        left: _,
    } = touched;
    let size = now.as_ref().map(|draft| draft.size);
    put_onode(alloc, coll, object, before, size, changes)?;
    if !is_moved {
        return Ok(());
    }
    let pages = lay_pages(alloc, now, units, contents)?;
    put_map(alloc, width, rows, coll, object, &shards, &pages, changes)
}

// ---- all objects

// The first name of the objects that were looked at.
fn first_name(alloc: Global, objects: &ByteMap<Touched>) -> Result<Option<Name>, AllocError>
    requires { AllNamed objects.now }
    ensures { IfOk result (λ name. name ≡ slice_get (finite.keys objects.now) 0) }
{
    match objects.entries().first() {
        Some((name, _)) => match Name::read(alloc, name.as_slice())? {
            Some(name) => Ok(Some(name)),
            None => unreachable!(),
        },
        None => Ok(None),
    }
}

// Each of them gets its rows, by the order of their names.
fn put_objects(
    alloc: Global,
    width: Width,
    rows: &RowTable,
    coll: &CollName,
    mut objects: ByteMap<Touched>,
    units: &[UnitNo],
    contents: &[SharedBytes],
    changes: &mut RowChanges,
) -> Result<(), AllocError>
    requires named { AllNamed objects }
    requires units { AllTakeBelow (length units.now) objects }
    requires contents { AllTakeBelow (length contents.now) objects }
    ensures { OnOk result (changes.new
        ≡ with_objects width rows.now.rows coll.now units.now (held_in contents.now) (finite.keys objects) objects changes.old) }
{
    'names: while let Some(name) = first_name(alloc, &objects)? {
        if let Some(touched) = objects.take(name.as_slice()) {
            put_touched(
                alloc, width, rows, coll, &name, touched, units, contents, changes,
            )?;
        }
        drop(name);
    }
    Ok(())
}

// The row of a collection that is there, or none.
fn put_collection(
    alloc: Global,
    coll: &CollName,
    there: bool,
    changes: &mut RowChanges,
) -> Result<(), AllocError>
    ensures { OnOk result (changes.new ≡ finite.insert changes.old (coll_key coll.now) (coll_row there)) }
{
    let row = if there { Some(Bytes::new(alloc)) } else { None };
    changes.set(coll_key(alloc, coll)?, row)
}

// ---- shared blobs

// Each of these blobs gets its row as it is then, or loses it where no page names one of its slots.
fn put_blobs(
    alloc: Global,
    width: Width,
    blobs: &ByteMap<SharedBlob>,
    changes: &mut RowChanges,
) -> Result<(), AllocError>
    ensures { OnOk result (changes.new ≡ with_blobs width (finite.entries blobs.now) changes.old) }
{
    for entry in blobs.entries() {
        let key = Bytes::from_slice(alloc, entry.0.as_slice())?;
        let value = entry.1.encode(alloc, width)?;
        changes.set(key, value)?;
    }
    Ok(())
}

// ---- all of them

/// The changes of these rows that a planned transaction comes to, where it has taken these units and they are to hold these bytes: those of
/// values, the onode of each object that is longer or shorter than it was, the shards of each of which a page has moved, the row of the
/// collection where an operation was on that, and those of the blobs whose slots pages have left.
pub fn changed_rows(
    alloc: Global,
    width: Width,
    rows: &RowTable,
    txn: &Transaction,
    planning: Planning,
    lowered: &Lowered,
    units: &[UnitNo],
    contents: &[SharedBytes],
) -> Result<RowChanges, AllocError>
    requires lowered { AreLowered width rows.now.rows planning.unshared.items lowered.now }
    requires named { AllNamed planning.objects }
    requires units { AllTakeBelow (length units.now) planning.objects }
    requires contents { AllTakeBelow (length contents.now) planning.objects }
    ensures { IfOk result (λ changes. IsChangesOf width rows.now.rows txn.now planning units.now (held_in contents.now) changes) }
{
    coll_name_is_one(txn.coll());
    let Planning {
        there,
        objects,
        values: mut changes,
        ..
    } = planning;
    let coll = txn.coll();
    put_objects(
        alloc,
        width,
        rows,
        coll,
        objects,
        units,
        contents,
        &mut changes,
    )?;
    if is_any_on_coll(txn.ops()) {
        put_collection(alloc, coll, there, &mut changes)?;
    }
    put_blobs(alloc, width, &lowered.blobs, &mut changes)?;
    Ok(changes)
}
