//! One operation, over what those before it made of the collection.
ghost use Rattle.std.specs.Prelude.{◌≡◌, ◌+◌, ◌*◌, ◌<◌, ◌≤◌, ◌⊎◌, ◌^◌, ◌++◌, ◌||◌, ℕ, List, Some, None, length, true, false, IfErr, OnOk};
ghost use Rattle.std.specs.List.{flat_map};
ghost use Rattle.std.specs.Option.{IfSome};
ghost use Rattle.object_model.specs.Prelude.{is_too_large};
ghost use Rattle.object_model.specs.declared.op.Op.TheVariants.{Touch, Truncate, Remove};
ghost use Rattle.plan_drafts.specs.Prelude.{IsKnown, IsOnObject, IsInLimits, is_beyond, object_of, HasNames, page_unit, units_released, slots_released, or_new, edit_on, edit_of, IsBare};
ghost use Rattle.unit_fields.specs.Prelude.{IsName};
ghost use Rattle.object_rows.specs.Stores.{AreRowsOfAStore, AreRowsOfWidth};
ghost use Rattle.value_changes.specs.Changed.{AreOfValues, ChangesValues};
ghost use Rattle.page_edits.specs.Ranges.{IsOnBytes};
ghost use Rattle.txn_planner.specs.Planning.{PlannedTo};
ghost use Rattle.txn_planner.specs.Drafts.{IsPlanRefused};
ghost use Rattle.txn_planner.specs.Steps.{ChangesObject, IsTruncate, OfState, IsNotMade, IsNotDropped, IsFit, IsUnfit, AddsEdit, EditsDraft, EditsObject, LeavesObject, DropsObject, MakesObject, has_any};
ghost use Rattle.unit_fields.specs.declared.width.Width.{Width};

use crate::fails::PlanFail;
use crate::operations::{is_beyond, needs_object, object_in};
use crate::planning::Planning;
use crate::touched::Touched;
use blob_map::{At, PageMap, Place};
use meta_rows::RowTable;
use number_map::NumberMap;
use object_model::{Op, Refusal, Transaction};
use object_rows::{coll_name_is_one, name_is_one};
use page_edits::{Edited, PageWrite, edit};
use plan_drafts::Draft;
use plan_rows::SlotNo;
use std::alloc::{AllocError, Global};
use std::mem::replace;
use unit_fields::{CollName, Name, UnitNo, Width};
use value_changes::change_values;

// ---- the collection

fn make_collection(p: &mut Planning) -> Result<(), PlanFail>
    ensures was { OnOk result (p.old.there ≡ false) }
    ensures made { OnOk result (p.new ≡ record p.old { there = true }) }
    ensures fail { IfErr result (IsNotMade p.old) }
{
    if p.there {
        return Err(PlanFail::Refusal(Refusal::CollectionExists));
    }
    p.there = true;
    Ok(())
}

fn drop_collection(
    alloc: Global,
    rows: &RowTable,
    coll: &CollName,
    p: &mut Planning,
) -> Result<(), PlanFail>
    requires { AreRowsOfAStore rows.now.rows }
    ensures was { OnOk result (p.old.there ≡ true) }
    ensures bare { OnOk result (OfState rows.now.rows coll.now p.old IsBare) }
    ensures gone { OnOk result (p.new ≡ record p.old { there = false }) }
    ensures fail { IfErr result (IsNotDropped rows.now.rows coll.now p.old) }
{
    if !p.there {
        return Err(PlanFail::Refusal(Refusal::NoCollection));
    }
    if p.has_objects(alloc, rows, coll)? {
        return Err(PlanFail::Refusal(Refusal::NotEmpty));
    }
    p.there = false;
    Ok(())
}

// ---- an object

// Refuses an operation on an object whose collection is missing, that goes past the limit of an object or a value, or that wants its object
// and doesn't find it.
fn check_object(
    alloc: Global,
    rows: &RowTable,
    coll: &CollName,
    op: &Op,
    p: &Planning,
) -> Result<(), PlanFail>
    requires { IsOnObject op.now }
    ensures ok { OnOk result (IsFit rows.now.rows coll.now op.now p.now) }
    ensures fail { IfErr result (IsUnfit rows.now.rows coll.now op.now p.now) }
{
    if !p.there {
        return Err(PlanFail::Refusal(Refusal::NoCollection));
    }
    if is_beyond(op) {
        return Err(PlanFail::Refusal(Refusal::TooBig));
    }
    if needs_object(op) && !p.has_object(alloc, rows, coll, object_in(op))? {
        return Err(PlanFail::Refusal(Refusal::NoObject));
    }
    Ok(())
}

// Adds the units that are released where these pages were left, and the slots that they leave.
fn add_left(
    left: &mut Vec<UnitNo>,
    unshared: &mut Vec<SlotNo>,
    pages: &[(u32, Place)],
) -> Result<(), AllocError>
    ensures left { OnOk result (left.new.items ≡ left.old.items ++ flat_map (λ p. units_released p.1) pages.now) }
    ensures unshared { OnOk result (unshared.new.items ≡ unshared.old.items ++ flat_map (λ p. slots_released p.1) pages.now) }
{
    for entry in pages {
        match entry.1.at {
            At::Unit { unit, csum: _ } => left.push(unit)?,
            At::Slot { sbid, index } => unshared.push(SlotNo { sbid, index })?,
        }
    }
    Ok(())
}

// Adds writes. Where there were none nothing is copied.
fn add_writes(writes: &mut Vec<PageWrite>, mut more: Vec<PageWrite>) -> Result<(), AllocError>
    ensures { OnOk result (writes.new.items ≡ writes.old.items ++ more.items) }
{
    if writes.is_empty() {
        drop(replace(writes, more));
        return Ok(());
    }
    writes.append(&mut more)
}

// Adds what an edit tells.
fn add_edit(p: &mut Planning, edited: Edited) -> Result<(), AllocError>
    ensures adds { OnOk result (AddsEdit edited p.old p.new) }
    ensures there { OnOk result (p.new.there ≡ p.old.there) }
    ensures objects { OnOk result (p.new.objects ≡ p.old.objects) }
    ensures values { OnOk result (p.new.values ≡ p.old.values) }
{
    let Edited {
        writes,
        places,
        left,
        taken,
    } = edited;
    add_writes(&mut p.writes, writes.into_vec())?;
    p.places.append(&mut places.into_vec())?;
    add_left(&mut p.left, &mut p.unshared, left.as_slice())?;
    p.taken = taken;
    Ok(())
}

// A new object, which has no bytes and no pages.
fn new_draft(alloc: Global) -> Draft
    ensures { result ≡ or_new None }
{
    Draft {
        size: 0,
        kept: PageMap::new(alloc),
        puts: NumberMap::new(alloc),
    }
}

// The draft that an operation edits: a missing object is a new one, but a truncate leaves it missing.
fn draft_to_edit(alloc: Global, op: &Op, now: Option<Draft>) -> Option<Draft>
    requires { IsOnBytes op.now }
    ensures some { IfSome result (λ draft. (draft ≡ or_new now) × (edit_on op.now now ≡ Some (edit_of op.now draft.size))) }
    ensures none { result ≡ None → (now ≡ None) × IsTruncate op.now }
{
    match now {
        Some(draft) => Some(draft),
        None if matches!(op, Op::Truncate { .. }) => None,
        None => Some(new_draft(alloc)),
    }
}

// Whether pages of an object had left before, or these have.
fn has_left(left: bool, pages: &[(u32, Place)]) -> bool
    ensures { result ≡ (left || has_any pages.now) }
{
    left || !pages.is_empty()
}

// Edits a draft, and puts the object back as it stands then.
fn edit_draft(
    alloc: Global,
    width: Width,
    rows: &RowTable,
    op: &Op,
    at: u32,
    object: &Name,
    mut touched: Touched,
    mut draft: Draft,
    p: &mut Planning,
) -> Result<(), AllocError>
    requires good { AreRowsOfWidth width rows.now.rows }
    requires bytes { IsOnBytes op.now }
    requires within { IsInLimits op.now }
    requires few { p.old.taken ≤ 2 ^ 24 }
    ensures { OnOk result (EditsDraft (page_unit width rows.now.rows) op.now at object.now touched draft p.old p.new) }
{
    let edited = edit(alloc, width, rows, op, at, &mut draft, p.taken)?;
    touched.left = has_left(touched.left, edited.left.as_slice());
    touched.now = Some(draft);
    p.put_object(alloc, object, touched)?;
    add_edit(p, edited)
}

// An operation on an object's bytes. A truncate leaves one missing that is so.
fn edit_object(
    alloc: Global,
    width: Width,
    rows: &RowTable,
    coll: &CollName,
    op: &Op,
    at: u32,
    p: &mut Planning,
) -> Result<(), AllocError>
    requires good { AreRowsOfWidth width rows.now.rows }
    requires bytes { IsOnBytes op.now }
    requires within { IsInLimits op.now }
    requires few { p.old.taken ≤ 2 ^ 24 }
    ensures { OnOk result (EditsObject width rows.now.rows coll.now op.now at p.old p.new
        ⊎ (LeavesObject width rows.now.rows coll.now op.now p.old p.new × IsTruncate op.now)) }
{
    let object = object_in(op);
    let mut touched = p.take_object(alloc, width, rows, coll, object)?;
    let now = touched.now.take();
    match draft_to_edit(alloc, op, now) {
        Some(draft) => edit_draft(alloc, width, rows, op, at, object, touched, draft, p),
        None => p.put_object(alloc, object, touched),
    }
}

// The pages of an object that stand where they stood. A missing one has none.
fn kept_pages(alloc: Global, now: Option<Draft>) -> PageMap
    ensures { result ≡ (or_new now).kept }
{
    match now {
        Some(draft) => draft.kept,
        None => PageMap::new(alloc),
    }
}

// An object goes with its pages. Where it is missing nothing changes.
fn drop_object(
    alloc: Global,
    width: Width,
    rows: &RowTable,
    coll: &CollName,
    object: &Name,
    p: &mut Planning,
) -> Result<(), AllocError>
    requires good { AreRowsOfWidth width rows.now.rows }
    ensures { OnOk result (DropsObject width rows.now.rows coll.now object.now p.old p.new) }
{
    name_is_one(object);
    let mut touched = p.take_object(alloc, width, rows, coll, object)?;
    let kept = kept_pages(alloc, touched.now.take());
    touched.left = has_left(touched.left, kept.pages());
    p.put_object(alloc, object, touched)?;
    add_left(&mut p.left, &mut p.unshared, kept.pages())
}

// What an operation makes of its object's bytes, or of the object as a whole.
fn change_object(
    alloc: Global,
    width: Width,
    rows: &RowTable,
    coll: &CollName,
    op: &Op,
    at: u32,
    p: &mut Planning,
) -> Result<(), AllocError>
    requires good { AreRowsOfWidth width rows.now.rows }
    requires on { IsOnObject op.now }
    requires within { is_beyond op.now ≡ false }
    requires few { p.old.taken ≤ 2 ^ 24 }
    ensures { OnOk result (ChangesObject width rows.now.rows coll.now op.now at p.old p.new) }
{
    match op {
        Op::Touch { object } => {
            name_is_one(object);
            if p.has_object(alloc, rows, coll, object)? {
                return Ok(());
            }
            edit_object(alloc, width, rows, coll, op, at, p)
        }
        Op::Write { .. } | Op::Zero { .. } | Op::Truncate { .. } => {
            edit_object(alloc, width, rows, coll, op, at, p)
        }
        Op::Remove { object } => drop_object(alloc, width, rows, coll, object, p),
        _ => Ok(()),
    }
}

// An operation on an object.
fn plan_on_object(
    alloc: Global,
    width: Width,
    rows: &RowTable,
    coll: &CollName,
    op: &Op,
    at: u32,
    p: &mut Planning,
) -> Result<(), PlanFail>
    requires good { AreRowsOfWidth width rows.now.rows }
    requires on { IsOnObject op.now }
    requires few { p.old.taken ≤ 2 ^ 24 }
    requires of_values { AreOfValues coll.now p.old.values }
    ensures fit { OnOk result (IsFit rows.now.rows coll.now op.now p.old) }
    ensures named { OnOk result (IsName (object_of op.now)) }
    ensures names { OnOk result (HasNames op.now) }
    ensures ok { OnOk result (MakesObject width rows.now.rows coll.now op.now at p.old p.new) }
    ensures fail { IfErr result (IsUnfit rows.now.rows coll.now op.now p.old) }
{
    check_object(alloc, rows, coll, op, p)?;
    object_in(op);
    change_object(alloc, width, rows, coll, op, at, p)?;
    change_values(alloc, rows, &mut p.values, coll, op)?;
    Ok(())
}

/// Plans the next operation of a transaction, at this place among them. Where it is refused, or memory runs out, the state may be anything:
/// the caller gives it up.
pub fn plan_op(
    alloc: Global,
    width: Width,
    rows: &RowTable,
    txn: &Transaction,
    at: usize,
    p: &mut Planning,
) -> Result<(), PlanFail>
    requires good { AreRowsOfWidth width rows.now.rows }
    requires known { IsKnown txn.now.ops }
    requires small { is_too_large txn.now ≡ false }
    requires inside { at < length txn.now.ops }
    requires taken { p.old.taken ≤ 258 * at }
    requires of_values { AreOfValues txn.now.coll p.old.values }
    ensures ok { OnOk result (PlannedTo width txn.now rows.now.rows at p.old → PlannedTo width txn.now rows.now.rows (at + 1) p.new) }
    ensures fail { IfErr result (λ why. PlannedTo width txn.now rows.now.rows at p.old → IsPlanRefused width txn.now rows.now.rows why) }
    ensures taken { OnOk result (PlannedTo width txn.now rows.now.rows at p.old → p.new.taken ≤ 258 * (at + 1)) }
    ensures of_values { OnOk result (AreOfValues txn.now.coll p.new.values) }
{
    coll_name_is_one(txn.coll());
    match &txn.ops()[at] {
        Op::MkColl => make_collection(p),
        Op::RmColl => drop_collection(alloc, rows, txn.coll(), p),
        op => plan_on_object(alloc, width, rows, txn.coll(), op, at as u32, p),
    }
}
