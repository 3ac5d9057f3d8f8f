//! Shared blobs whose slots shards name, and the collections that named them first.
ghost use Rattle.std.specs.Prelude.{◌≡◌, ◌↔◌, ◌<◌, ◌≤◌, IsTrue, IfOk, IfSome, OnOk, Any, List, ℕ, length};
ghost use Rattle.std.specs.List.{AllByRecursion};
ghost use Rattle.row_format.specs.Prelude.{Slot, slot_bytes, FitsBlob, blob, row_value};
ghost use Rattle.store_image.specs.Prelude.{IsBlank, IsBlobInPlace, HasSlots};
ghost use Rattle.unit_fields.specs.declared.width.Width.{Width};
ghost use Rattle.row_check.specs.Named.{SaysSlots, HasSoMany, IsCountSaid, IsNamedByOther, KnowsEarlier, named_too, all_named, row_named};

use crate::in_place::are_data;
use crate::namers::Namers;
use meta_log::Super;
use meta_rows::RowTable;
use onode_codec::{Body, Extent, shared_key};
use row_reading::{Row, Slot, read_row};
use std::alloc::{AllocError, Global};
use unit_fields::{CollName, Fields, UnitNo, Width};

// The least number that is too high for a blob.
const HIGH_SBID: u64 = 1 << 62;

// How many slots a value says, if it is that of a blob's row.
fn slots_said(value: &[u8]) -> Option<u16>
    ensures { IfSome result (IsCountSaid value.now) }
{
    let mut fields = Fields::new(value);
    let _first = fields.u32()?;
    fields.u16()
}

// Whether the row has so many slots or more, if it is a blob's.
fn has_so_many(row: &Option<Row>, end: u64) -> bool
    ensures { IsTrue result ↔ HasSoMany row.now end }
{
    match row {
        Some(
            Row::Blob {
                sbid: _sbid,
                first: _first,
                slots,
            },
        ) => end <= slots.len() as u64,
        _ => true,
    }
}

// Whether the row under a blob's key says so many slots or more, if it says any. Its slots are read only where its front says fewer.
fn says_slots(
    alloc: Global,
    width: Width,
    key: &[u8],
    value: &[u8],
    end: u64,
) -> Result<bool, AllocError>
    ensures { IfOk result (λ says. IsTrue says ↔ SaysSlots width key.now value.now end) }
{
    match slots_said(value) {
        Some(count) if end <= u64::from(count) => return Ok(true),
        _ => {}
    }
    let row = read_row(alloc, width, key, value)?;
    Ok(has_so_many(&row, end))
}

// Whether a shard of another collection has named the blob with this key before.
fn is_named_by_other(namers: &Namers, key: &[u8], coll: &CollName) -> bool
    ensures { IsTrue result ↔ IsNamedByOther namers.now key.now coll.now }
{
    match namers.get(key) {
        Some(first) => first.as_slice() != coll.as_slice(),
        None => false,
    }
}

// Whether an extent of the collection is on slots that a blob has, and that no earlier collection names; or on none.
fn has_slots(
    alloc: Global,
    width: Width,
    rows: &RowTable,
    namers: &Namers,
    coll: &CollName,
    extent: &Extent,
) -> Result<bool, AllocError>
    requires { KnowsEarlier width rows.now.rows namers.now coll.now }
    ensures { IfOk result (λ has. IsTrue has ↔ HasSlots width rows.now.rows coll.now extent.now.body) }
{
    let Body::Shared { sbid, first, count } = &extent.body else {
        return Ok(true);
    };
    let key = shared_key(alloc, *sbid)?;
    let Some(value) = rows.get(key.as_slice()) else {
        return Ok(false);
    };
    if is_named_by_other(namers, key.as_slice(), coll) {
        return Ok(false);
    }
    let end = u64::from(*first) + u64::from(*count);
    says_slots(alloc, width, key.as_slice(), value.as_slice(), end)
}

/// Whether all extents of a shard of the collection are.
pub(crate) fn all_have_slots(
    alloc: Global,
    width: Width,
    rows: &RowTable,
    namers: &Namers,
    coll: &CollName,
    extents: &[Extent],
) -> Result<bool, AllocError>
    requires { KnowsEarlier width rows.now.rows namers.now coll.now }
    ensures { IfOk result (λ has. IsTrue has ↔ AllByRecursion (λ e. HasSlots width rows.now.rows coll.now e.body) extents.now) }
{
    for extent in extents {
        if !has_slots(alloc, width, rows, namers, coll, extent)? {
            return Ok(false);
        }
    }
    Ok(true)
}

// A shard of the collection has the extent: it names the blob, if it is on slots of one.
fn note(
    alloc: Global,
    namers: &mut Namers,
    coll: &CollName,
    extent: &Extent,
) -> Result<(), AllocError>
    ensures { OnOk result (namers.new ≡ named_too coll.now namers.old extent.now.body) }
{
    let Body::Shared {
        sbid,
        first: _first,
        count: _count,
    } = &extent.body
    else {
        return Ok(());
    };
    let key = shared_key(alloc, *sbid)?;
    if namers.contains_key(key.as_slice()) {
        return Ok(());
    }
    namers.insert(alloc, key, coll)
}

// The same of all extents of a shard.
fn note_all(
    alloc: Global,
    namers: &mut Namers,
    coll: &CollName,
    extents: &[Extent],
) -> Result<(), AllocError>
    ensures { OnOk result (namers.new ≡ all_named coll.now namers.old extents.now) }
{
    for extent in extents {
        note(alloc, namers, coll, extent)?;
    }
    Ok(())
}

/// A row was passed: if it is a shard, its collection names the blobs on whose slots its pages stand.
pub(crate) fn note_row(
    alloc: Global,
    namers: &mut Namers,
    row: &Row,
) -> Result<(), AllocError>
    ensures { OnOk result (namers.new ≡ row_named namers.old row.now) }
{
    match row {
        Row::Shard {
            coll,
            object: _object,
            page: _page,
            extents,
        } => note_all(alloc, namers, coll, extents.as_slice()),
        _ => Ok(()),
    }
}

// Whether pages name the slot.
fn is_named(slot: &Slot) -> bool
    ensures { IsTrue result ↔ (0 < slot.now.count) }
{
    slot.count > 0
}

fn is_any_named(slots: &[Slot]) -> bool
    ensures { IsTrue result ↔ Any (λ x. 0 < x.count) slots.now }
{
    slots.iter().any(|slot| is_named(slot))
}

// Whether the slot keeps no checksum where no page names it.
fn is_blank(slot: &Slot) -> bool
    ensures { IsTrue result ↔ IsBlank slot.now }
{
    slot.count != 0 || slot.csum == 0
}

fn are_all_blank(slots: &[Slot]) -> bool
    ensures { IsTrue result ↔ AllByRecursion IsBlank slots.now }
{
    slots.iter().all(|slot| is_blank(slot))
}

/// Whether a blob is in its place.
pub(crate) fn is_blob_in_place(sup: &Super, sbid: u64, first: UnitNo, slots: &[Slot]) -> bool
    ensures { IsTrue result ↔ IsBlobInPlace sup.now sbid first slots.now }
{
    sbid < HIGH_SBID
        && are_data(sup, u64::from(first.number()), slots.len() as u64)
        && is_any_named(slots)
        && are_all_blank(slots)
}
