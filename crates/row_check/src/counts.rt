//! Whether the slots of shared blobs keep as many counts as pages name them.
ghost use Rattle.std.specs.Prelude.{◌≡◌, ◌≤◌, ◌<◌, ◌+◌, ℕ, IfOk, OnOk, IsTrue, ◌↔◌, length};
ghost use Rattle.std.specs.List.{insert};
ghost use Rattle.meta_log.specs.Prelude.{width_of, IsSuper};
ghost use Rattle.store_image.specs.Prelude.{NoBadRow};
ghost use Rattle.findings.specs.Findings.{SlotBefore};
ghost use Rattle.row_check.specs.Tallies.{slot_count_of, AreWrongCounts, BeginsBlob, WithRow, IsAddedOn, AreUnnamed, SpellsSomeRow, IsTalliedOn, RowHasPlaces, AreTallied, GoesAt, AddsIfWrong, AddsWrong};

use crate::owners::is_shard;
use crate::tallies::{Tallies, Tally};
use byte_maps::Bytes;
use meta_log::Super;
use meta_rows::RowTable;
use onode_codec::{RowKind, decode_extents};
use row_reading::{Row, read_row};
use std::alloc::{AllocError, Global};
use std::marker::Model;
use unit_fields::Width;

// What the keys of blobs' rows begin with.
const BLOB: u8 = RowKind::Shared as u8;

/// A slot of a shared blob, its unit, the count that is kept for it, and how many pages name it.
#[derive(Clone, Copy)]
pub struct SlotCount {
    pub unit: u32,
    pub sbid: u64,
    pub index: u16,
    pub kept: u32,
    pub counted: u64,
}

impl Model for SlotCount {
    ghost use Rattle.findings.specs.Findings.{SlotCount};

    ghost Value = { SlotCount };

    ghost view = { λ a. record { unit = a.unit; sbid = a.sbid; index = a.index; kept = a.kept; counted = a.counted } };

    ghost inverse = { λ x. record { unit = x.unit; sbid = x.sbid; index = x.index; kept = x.kept; counted = x.counted } };
}

/// Whether this can be the key of a blob's row.
pub(crate) fn is_blob_key(key: &[u8]) -> bool
    ensures { IsTrue result ↔ BeginsBlob key.now }
{
    match key.split_first() {
        Some((kind, _)) => *kind == BLOB,
        None => false,
    }
}

// Adds the blob that a row is of, if it is of one.
fn add_row(
    alloc: Global,
    tallies: &mut Tallies,
    key: &[u8],
    row: &Option<Row>,
) -> Result<(), AllocError>
    ensures { OnOk result (WithRow key.now row.now tallies.old tallies.new) }
{
    match row {
        Some(Row::Blob { sbid, first, slots }) => {
            let tally = Tally::new(alloc, *sbid, *first, slots.as_slice())?;
            tallies.push(Bytes::from_slice(alloc, key)?, tally)
        }
        _ => Ok(()),
    }
}

// The same of a key and a value that spell a row.
fn add_blob(
    alloc: Global,
    tallies: &mut Tallies,
    width: Width,
    key: &[u8],
    value: &[u8],
) -> Result<(), AllocError>
    ensures { OnOk result (IsAddedOn width key.now value.now tallies.old tallies.new) }
{
    if !is_blob_key(key) {
        return Ok(());
    }
    let row = read_row(alloc, width, key, value)?;
    add_row(alloc, tallies, key, &row)
}

// The blobs that have rows. No page names them so far.
fn blobs_of(alloc: Global, sup: &Super, rows: &RowTable) -> Result<Tallies, AllocError>
    requires { NoBadRow sup.now rows.now.rows }
    ensures { IfOk result (AreUnnamed (width_of sup.now) rows.now.rows) }
{
    let mut tallies = Tallies::new(alloc);
    for (key, value) in rows.range(b"", None) {
        add_blob(
            alloc,
            &mut tallies,
            sup.width(),
            key.as_slice(),
            value.as_slice(),
        )?;
    }
    Ok(tallies)
}

// The pages of the row that a key and a value spell name the slots on which they stand.
fn name_row(
    alloc: Global,
    tallies: &mut Tallies,
    width: Width,
    key: &[u8],
    value: &[u8],
) -> Result<(), AllocError>
    requires places { RowHasPlaces width key.now value.now tallies.old }
    requires spelled { SpellsSomeRow width key.now value.now }
    ensures { OnOk result (IsTalliedOn width key.now value.now tallies.old tallies.new) }
{
    if !is_shard(key, value) {
        return Ok(());
    }
    match decode_extents(alloc, width, value)? {
        Some(extents) => tallies.name_all(alloc, &extents),
        None => Ok(()),
    }
}

// All pages of all rows name their slots.
fn name_rows(
    alloc: Global,
    tallies: &mut Tallies,
    sup: &Super,
    rows: &RowTable,
) -> Result<(), AllocError>
    requires good { NoBadRow sup.now rows.now.rows }
    requires unnamed { AreUnnamed (width_of sup.now) rows.now.rows tallies.old }
    ensures { OnOk result (AreTallied (width_of sup.now) rows.now.rows tallies.new) }
{
    for (key, value) in rows.range(b"", None) {
        name_row(
            alloc,
            tallies,
            sup.width(),
            key.as_slice(),
            value.as_slice(),
        )?;
    }
    Ok(())
}

// The blobs, and how many pages name each slot. Where there is no blob, no other rows are read.
fn tallies_of(alloc: Global, sup: &Super, rows: &RowTable) -> Result<Tallies, AllocError>
    requires { NoBadRow sup.now rows.now.rows }
    ensures { IfOk result (AreTallied (width_of sup.now) rows.now.rows) }
{
    let mut tallies = blobs_of(alloc, sup, rows)?;
    if tallies.list().is_empty() {
        return Ok(tallies);
    }
    name_rows(alloc, &mut tallies, sup, rows)?;
    Ok(tallies)
}

// Whether a slot comes before another: by unit, and then by blob.
fn comes_before(x: &SlotCount, y: &SlotCount) -> bool
    ensures { IsTrue result ↔ SlotBefore x.now y.now }
{
    x.unit < y.unit || (x.unit == y.unit && x.sbid < y.sbid)
}

// Where the slot goes among others in their order. The last one comes last in most stores.
fn place_of(counts: &[SlotCount], x: &SlotCount) -> usize
    ensures { GoesAt counts.now x.now result }
{
    let mut at = counts.len();
    while at > 0 && comes_before(x, &counts[at - 1]) {
        at -= 1;
    }
    at
}

// Puts a slot among others in their order.
fn put_in_order(counts: &mut Vec<SlotCount>, x: SlotCount) -> Result<(), AllocError>
    ensures { OnOk result ((at : ℕ) × (GoesAt counts.old.items x at × (counts.new.items ≡ insert counts.old.items at x))) }
{
    let at = place_of(counts, &x);
    Ok(counts.insert(at, x)?)
}

// What a slot of the blob keeps, and how many pages name it.
fn slot_count_of(tally: &Tally, index: usize) -> SlotCount
    requires slots { index < length tally.now.slots }
    requires named { index < length tally.now.named }
    requires few { length tally.now.slots ≤ 256 }
    requires units { tally.now.first + length tally.now.slots ≤ 1048576 }
    ensures { result ≡ slot_count_of tally.now index }
{
    let slot = tally.slots()[index];
    SlotCount {
        unit: tally.first().number() + index as u32,
        sbid: tally.sbid(),
        index: index as u16,
        kept: slot.count,
        counted: tally.named()[index],
    }
}

// Adds the slot if its count is wrong.
fn add_if_wrong(count: SlotCount, counts: &mut Vec<SlotCount>) -> Result<(), AllocError>
    ensures { OnOk result (AddsIfWrong count counts.old.items counts.new.items) }
{
    if u64::from(count.kept) == count.counted {
        return Ok(());
    }
    put_in_order(counts, count)
}

// Adds those slots of the blob whose counts are wrong.
fn add_wrong(tally: &Tally, counts: &mut Vec<SlotCount>) -> Result<(), AllocError>
    requires named { length tally.now.named ≡ length tally.now.slots }
    requires few { length tally.now.slots ≤ 256 }
    requires units { tally.now.first + length tally.now.slots ≤ 1048576 }
    ensures { OnOk result (AddsWrong tally.now counts.old.items counts.new.items) }
{
    for index in 0..tally.slots().len() {
        add_if_wrong(slot_count_of(tally, index), counts)?;
    }
    Ok(())
}

/// The slots with wrong counts, by unit and then by blob. The rows are looked through for blobs, and where there is one the extents of all
/// objects are read once.
pub(crate) fn wrong_counts(
    alloc: Global,
    sup: &Super,
    rows: &RowTable,
) -> Result<Vec<SlotCount>, AllocError>
    requires limits { IsSuper sup.now }
    requires good { NoBadRow sup.now rows.now.rows }
    ensures { IfOk result (λ counts. AreWrongCounts (width_of sup.now) rows.now.rows counts.items) }
{
    let tallies = tallies_of(alloc, sup, rows)?;
    let mut counts = Vec::new(alloc);
    for tally in tallies.list() {
        add_wrong(tally, &mut counts)?;
    }
    Ok(counts)
}
