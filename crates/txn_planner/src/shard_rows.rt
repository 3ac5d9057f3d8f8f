//! The rows of an object's shards where its map has changed: those of its new shards come, and the others go.
//!
//! The shards are written one after the other into one buffer, and the rows that are there are gone through beside them, so that a shard
//! which is as it was takes no memory and no look-up.
ghost use Rattle.std.specs.Prelude.{◌≡◌, List, drop, option_copied, IfOk, OnOk};
ghost use Rattle.std.specs.FinMap as finite;
ghost use Rattle.std.specs.FinSet as set;
ghost use Rattle.unit_fields.specs.declared.width.Width.{Width};
ghost use Rattle.object_model.specs.Prelude.{is_same};
ghost use Rattle.row_format.specs.Prelude.{Extent};
ghost use Rattle.extent_shards.specs.Prelude.{shard_bytes, first_of};
ghost use Rattle.txn_planner.specs.Laying.{
  with_first_page,
  without_shard,
  without_shards,
  has_value,
  AreOfRows,
  first_value,
  with_shard,
  ArePut,
  first_page,
  with_map,
};

use blob_map::{PageMap, Place};
use byte_maps::Bytes;
use extent_shards::{SHARD_BYTES, pages_behind, push_shard};
use meta_rows::{RowRange, RowTable};
use onode_codec::shard_key;
use row_changes::RowChanges;
use std::alloc::{AllocError, Global};
use unit_fields::{CollName, Name, UnitSet, Width};

// Whether a shard that comes anew begins at this page, where one begins at the first page and others at these.
#[tactic(auto, using(crate::proofs::Besides::anew_first, crate::proofs::Besides::anew_behind, crate::proofs::Besides::anew_none))]
fn is_anew(first: Option<u32>, behind: &UnitSet, page: u32) -> bool
    ensures { result ≡ set.contains (with_first_page first behind.now) page }
{
    match first {
        Some(first) if first == page => true,
        _ => behind.contains(page),
    }
}

// The shard that begins at this page goes, but for one that comes anew.
fn drop_shard(
    alloc: Global,
    coll: &CollName,
    object: &Name,
    first: Option<u32>,
    behind: &UnitSet,
    page: u32,
    changes: &mut RowChanges,
) -> Result<(), AllocError>
    ensures { OnOk result (changes.new ≡ without_shard coll.now object.now (with_first_page first behind.now) page changes.old) }
{
    if is_anew(first, behind, page) {
        return Ok(());
    }
    changes.set(shard_key(alloc, coll, object, page)?, None)
}

// So do those that begin at these pages.
fn drop_shards(
    alloc: Global,
    coll: &CollName,
    object: &Name,
    first: Option<u32>,
    behind: &UnitSet,
    pages: &[u32],
    changes: &mut RowChanges,
) -> Result<(), AllocError>
    ensures { OnOk result (changes.new ≡ without_shards coll.now object.now (with_first_page first behind.now) pages.now changes.old) }
{
    for page in pages {
        drop_shard(alloc, coll, object, first, behind, *page, changes)?;
    }
    Ok(())
}

// Whether bytes are the same.
#[tactic(auto, using(crate::proofs::SameBytes::same_as))]
fn is_same(bytes: &[u8], other: &[u8]) -> bool
    ensures { result ≡ is_same bytes.now other.now }
{
    bytes == other
}

// Whether a row has this value.
fn has_value(held: Option<&Bytes>, value: &[u8]) -> bool
    ensures { result ≡ has_value (option_copied held.entry) value.now }
{
    match held {
        Some(held) => is_same(held.as_slice(), value),
        None => false,
    }
}

// The first of these rows, if it has this key. It is taken out of them, also where it has another.
#[tactic(auto, using(crate::proofs::Besides::first_same, crate::proofs::Besides::first_other, crate::proofs::Besides::first_none))]
fn first_at<'a>(rows: &mut RowRange<'a>, key: &[u8]) -> Option<&'a Bytes>
    ensures value { option_copied result ≡ first_value key.now rows.old }
    ensures left { rows.new ≡ drop 1 rows.old }
{
    match rows.next() {
        Some((held, value)) if is_same(held.as_slice(), key) => Some(value),
        _ => None,
    }
}

// The row of a key that comes behind others, whose rows were looked for before. Mostly it stands behind the last of these.
#[tactic(auto, using(crate::proofs::Besides::found_by, crate::proofs::Besides::found_on, crate::proofs::Besides::left_on, crate::proofs::Besides::left_by))]
fn row_beside<'a>(rows: &'a RowTable, beside: &mut RowRange<'a>, key: &[u8]) -> Option<&'a Bytes>
    requires { AreOfRows rows.now.rows beside.old }
    ensures held { option_copied result ≡ finite.get rows.now.rows key.now }
    ensures beside { AreOfRows rows.now.rows beside.new }
{
    if let Some(held) = first_at(beside, key) {
        return Some(held);
    }
    *beside = rows.range(key, None);
    first_at(beside, key)
}

// A shard that comes, to be put in its row.
#[derive(Clone, Copy)]
struct NewShard<'a> {
    // The page at which it begins.
    first: u32,
    // The value of its row, which is lent.
    value: &'a [u8],
    // Whether it has all pages of the object.
    is_only: bool,
}

// The shard comes, but for one whose row has its value already. The value is copied where it is new. The row of an only one isn't looked at:
// the map has changed, so that has another value.
fn put_shard<'a>(
    alloc: Global,
    rows: &'a RowTable,
    beside: &mut RowRange<'a>,
    coll: &CollName,
    object: &Name,
    new: NewShard,
    changes: &mut RowChanges,
) -> Result<(), AllocError>
    requires { AreOfRows rows.now.rows beside.old }
    ensures put { OnOk result ((width : Width) (shard : List Extent) → first_of shard ≡ new.entry.first → new.entry.value.now ≡ shard_bytes width shard
        → changes.new ≡ with_shard width rows.now.rows coll.now object.now new.entry.is_only shard changes.old) }
    ensures beside { AreOfRows rows.now.rows beside.new }
{
    let key = shard_key(alloc, coll, object, new.first)?;
    if !new.is_only && has_value(row_beside(rows, beside, key.as_slice()), new.value) {
        return Ok(());
    }
    let value = Bytes::from_slice(alloc, new.value)?;
    changes.set(key, Some(value))
}

// The shards of these pages come, cut with the bound, each from one buffer. They begin at the first page and at those pages that are given.
fn put_shards(
    alloc: Global,
    width: Width,
    rows: &RowTable,
    coll: &CollName,
    object: &Name,
    pages: &[(u32, Place)],
    changes: &mut RowChanges,
) -> Result<UnitSet, AllocError>
    ensures { IfOk result (λ behind. ArePut width rows.now.rows coll.now object.now pages.now behind changes.old changes.new) }
{
    let mut behind = UnitSet::new(alloc);
    let mut beside = RowRange::new(&[], &[], &[]);
    let mut value = Vec::with_capacity(alloc, SHARD_BYTES as usize)?;
    let mut left = pages;
    'shards: while !left.is_empty() {
        value.clear();
        let front = push_shard(&mut value, width, left, SHARD_BYTES)?;
        let new = NewShard {
            first: front.first,
            value: value.as_slice(),
            is_only: front.count == pages.len(),
        };
        put_shard(alloc, rows, &mut beside, coll, object, new, changes)?;
        if left.len() < pages.len() {
            behind.insert(front.first)?;
        }
        left = pages_behind(left, front.count);
    }
    Ok(behind)
}

// The first of these pages.
fn first_page(pages: &[(u32, Place)]) -> Option<u32>
    ensures { result ≡ first_page pages.now }
{
    match pages.first() {
        Some((page, _)) => Some(*page),
        None => None,
    }
}

/// An object with shards at these pages gets this map: its shards are those of the map, cut with the bound.
pub fn put_map(
    alloc: Global,
    width: Width,
    rows: &RowTable,
    coll: &CollName,
    object: &Name,
    present: &[u32],
    pages: &PageMap,
    changes: &mut RowChanges,
) -> Result<(), AllocError>
    ensures { OnOk result (changes.new ≡ with_map width rows.now.rows coll.now object.now present.now pages.now changes.old) }
{
    let pages = pages.pages();
    let behind = put_shards(alloc, width, rows, coll, object, pages, changes)?;
    let first = first_page(pages);
    drop_shards(alloc, coll, object, first, &behind, present, changes)
}
