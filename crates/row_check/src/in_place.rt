//! Whether a row is in its place among the rows of a store.
ghost use Rattle.std.specs.Prelude.{◌≡◌, ◌↔◌, ◌≤◌, ◌<◌, ℕ, List, IsTrue, IfOk, IfSome, MatchOption, length};
ghost use Rattle.std.specs.List.{AllByRecursion};
ghost use Rattle.unit_fields.specs.Prelude.{IsName, IsCollName};
ghost use Rattle.row_format.specs.Prelude.{coll_key, onode_key, page_end, ExtentsAscend};
ghost use Rattle.store_image.specs.Prelude.{HasKey, HasOnode, pages_of, AreData, IsOnData, HasObject, AreOfData, IsInPlace, IsDataUnit};
ghost use Rattle.onode_codec.specs.Reading.{SpellsOnode};
ghost use Rattle.row_reading.specs.Reading.{format_row};
ghost use Rattle.row_check.specs.Bad.{IsOfObject, IsOfNoObject, IsPlacedOf, IsPlacedIn, IsOnodeOf, IsWithinOnode, ShardStands, IsAtRow};
ghost use Rattle.meta_log.specs.Prelude.{width_of};
ghost use Rattle.row_check.specs.Named.{KnowsEarlier};
ghost use Rattle.row_check.specs.DataBits.{bit_at_place, IsBitOfData};

use crate::blobs::{all_have_slots, is_blob_in_place};
use crate::passed::{Passed, is_of_object};
use meta_log::Super;
use meta_rows::RowTable;
use onode_codec::{Body, Extent, Onode, coll_key, onode_key};
use row_reading::Row;
use std::alloc::{AllocError, Global};
use unit_fields::limits::{OBJECT_LIMIT, UNIT_BYTES};
use unit_fields::{CollName, Name};

// The bits of so many units stand in one row of the bitmap, and of so many in one byte of it.
const ROW_UNITS: u32 = 128;

const BYTE_UNITS: u32 = 8;

// Whether an extent's pages are all before this one.
fn ends_by(extent: &Extent, page: u64) -> bool
    ensures { IsTrue result ↔ (page_end extent.now ≤ page) }
{
    let first = u64::from(extent.first);
    first <= page && extent.body.page_count() <= page - first
}

fn all_end_by(extents: &[Extent], page: u64) -> bool
    ensures { IsTrue result ↔ AllByRecursion (λ e. page_end e ≤ page) extents.now }
{
    extents.iter().all(|extent| ends_by(extent, page))
}

// Whether the extents ascend, and none reaches into the next.
fn ascend(extents: &[Extent]) -> bool
    ensures { IsTrue result ↔ ExtentsAscend extents.now }
{
    for i in 1..extents.len() {
        let next = &extents[i];
        if !ends_by(&extents[i - 1], u64::from(next.first)) {
            return false;
        }
    }
    true
}

/// Whether so many units from this one on are data units.
pub(crate) fn are_data(sup: &Super, first: u64, count: u64) -> bool
    ensures { IsTrue result ↔ AreData sup.now first count }
{
    let units = u64::from(sup.units);
    2 + 2 * u64::from(sup.half) <= first && first <= units && count <= units - first
}

// Whether an extent's pages stand on data units. (Those on slots do by their blob's row.)
fn is_on_data(sup: &Super, extent: &Extent) -> bool
    ensures { IsTrue result ↔ IsOnData sup.now extent.now.body }
{
    match &extent.body {
        Body::Private { unit, csums } => {
            are_data(sup, u64::from(unit.number()), csums.len() as u64)
        }
        Body::Shared { .. } => true,
    }
}

fn all_on_data(sup: &Super, extents: &[Extent]) -> bool
    ensures { IsTrue result ↔ AllByRecursion (λ e. IsOnData sup.now e.body) extents.now }
{
    extents.iter().all(|extent| is_on_data(sup, extent))
}

/// The names of the object that the row before is of, if it is of one.
pub fn object_of(last: &Option<Row>) -> Option<(&CollName, &Name)>
    ensures { MatchOption result (IsOfNoObject last.now) (λ names. IsOfObject last.now names.0.now names.1.now) }
{
    match last {
        Some(
            Row::Onode {
                coll,
                object,
                size: _size,
            },
        ) => Some((coll, object)),
        Some(
            Row::Shard {
                coll,
                object,
                page: _page,
                extents: _extents,
            },
        ) => Some((coll, object)),
        Some(
            Row::Attribute {
                coll,
                object,
                name: _name,
            },
        ) => Some((coll, object)),
        Some(Row::OmapHeader { coll, object }) => Some((coll, object)),
        Some(
            Row::OmapPair {
                coll,
                object,
                key: _key,
            },
        ) => Some((coll, object)),
        _ => None,
    }
}

// Whether the last row is in its place, and of an object of this collection.
fn is_last_in(passed: &Passed, coll: &CollName) -> bool
    ensures { IsTrue result ↔ IsPlacedIn passed.now coll.now }
{
    match object_of(&passed.last) {
        Some((of_coll, _)) => passed.in_place && of_coll.as_slice() == coll.as_slice(),
        None => false,
    }
}

// Whether the last row is in its place, and of this object.
fn is_last_of(passed: &Passed, coll: &CollName, object: &Name) -> bool
    ensures { IsTrue result ↔ IsPlacedOf passed.now coll.now object.now }
{
    match object_of(&passed.last) {
        Some((of_coll, of_object)) => passed.in_place
            && is_of_object(of_coll, of_object, coll, object),
        None => false,
    }
}

// Whether the collection is there. Where the last row is in its place and of one of its objects, it is.
fn has_collection(
    alloc: Global,
    rows: &RowTable,
    passed: &Passed,
    coll: &CollName,
) -> Result<bool, AllocError>
    requires { IsPlacedIn passed.now coll.now → HasKey rows.now.rows (coll_key coll.now) }
    ensures { IfOk result (λ there. IsTrue there ↔ HasKey rows.now.rows (coll_key coll.now)) }
{
    if is_last_in(passed, coll) {
        return Ok(true);
    }
    let key = coll_key(alloc, coll)?;
    Ok(rows.get(key.as_slice()).is_some())
}

// Whether the object's onode is there.
fn has_onode(
    alloc: Global,
    rows: &RowTable,
    coll: &CollName,
    object: &Name,
) -> Result<bool, AllocError>
    ensures { IfOk result (λ there. IsTrue there ↔ HasKey rows.now.rows (onode_key coll.now object.now)) }
{
    let key = onode_key(alloc, coll, object)?;
    Ok(rows.get(key.as_slice()).is_some())
}

// Whether the object is there. Where the last row is in its place and one of the object's, it is.
fn has_object(
    alloc: Global,
    rows: &RowTable,
    passed: &Passed,
    coll: &CollName,
    object: &Name,
) -> Result<bool, AllocError>
    requires collection { IsPlacedIn passed.now coll.now → HasKey rows.now.rows (coll_key coll.now) }
    requires object { IsPlacedOf passed.now coll.now object.now → HasObject rows.now.rows coll.now object.now }
    ensures { IfOk result (λ there. IsTrue there ↔ HasObject rows.now.rows coll.now object.now) }
{
    if is_last_of(passed, coll, object) {
        return Ok(true);
    }
    Ok(has_collection(alloc, rows, passed, coll)? && has_onode(alloc, rows, coll, object)?)
}

// Whether the extents end within an object of this size.
fn are_within_size(extents: &[Extent], size: u64) -> bool
    ensures { IsTrue result ↔ AllByRecursion (λ e. page_end e ≤ pages_of size) extents.now }
{
    all_end_by(extents, size.div_ceil(UNIT_BYTES as u64))
}

// Whether the extents end within the size that this value of an onode says. A value that says none bounds nothing: its own row is bad.
fn are_within(extents: &[Extent], onode: &[u8]) -> bool
    ensures { IsTrue result ↔ ((size : ℕ) → SpellsOnode onode.now size → AllByRecursion (λ e. page_end e ≤ pages_of size) extents.now) }
{
    match Onode::decode(onode) {
        Some(onode) => are_within_size(extents, onode.size),
        None => true,
    }
}

// The size of the object, where the row before is its onode.
fn size_of(last: &Option<Row>, coll: &CollName, object: &Name) -> Option<u64>
    ensures { IfSome result (IsOnodeOf last.now coll.now object.now) }
{
    match last {
        Some(
            Row::Onode {
                coll: of_coll,
                object: of_object,
                size,
            },
        ) if is_of_object(of_coll, of_object, coll, object) => Some(*size),
        _ => None,
    }
}

// Whether the object is there, and the extents end within its size. Where the row before is the object's onode, it says the size.
fn are_within_object(
    alloc: Global,
    rows: &RowTable,
    passed: &Passed,
    coll: &CollName,
    object: &Name,
    extents: &[Extent],
) -> Result<bool, AllocError>
    requires coll { IsCollName coll.now }
    requires object { IsName object.now }
    requires before { (size : ℕ) → IsOnodeOf passed.now.last coll.now object.now size → HasOnode rows.now.rows coll.now object.now size }
    ensures { IfOk result (λ within. IsTrue within ↔ IsWithinOnode rows.now.rows coll.now object.now extents.now) }
{
    if let Some(size) = size_of(&passed.last, coll, object) {
        return Ok(are_within_size(extents, size));
    }
    let key = onode_key(alloc, coll, object)?;
    match rows.get(key.as_slice()) {
        Some(value) => Ok(are_within(extents, value.as_slice())),
        None => Ok(false),
    }
}

// Whether the extents of a shard are in their place, where those of the object's earlier shards end before it. Where the row before is the
// object's onode, and in its place, the collection is there too.
fn shard_stands(
    alloc: Global,
    sup: &Super,
    rows: &RowTable,
    passed: &Passed,
    coll: &CollName,
    object: &Name,
    extents: &[Extent],
) -> Result<bool, AllocError>
    requires coll { IsCollName coll.now }
    requires object { IsName object.now }
    requires collection { IsPlacedIn passed.now coll.now → HasKey rows.now.rows (coll_key coll.now) }
    requires before { (size : ℕ) → IsOnodeOf passed.now.last coll.now object.now size → HasOnode rows.now.rows coll.now object.now size }
    requires earlier { KnowsEarlier (width_of sup.now) rows.now.rows passed.now.namers coll.now }
    ensures { IfOk result (λ stands. IsTrue stands ↔ ShardStands sup.now rows.now.rows coll.now object.now extents.now) }
{
    if !ascend(extents) || !all_on_data(sup, extents) {
        return Ok(false);
    }
    let have = all_have_slots(alloc, sup.width(), rows, &passed.namers, coll, extents)?;
    if !have {
        return Ok(false);
    }
    match size_of(&passed.last, coll, object) {
        Some(size) if passed.in_place => Ok(are_within_size(extents, size)),
        _ => Ok(
            has_collection(alloc, rows, passed, coll)?
                && are_within_object(alloc, rows, passed, coll, object, extents)?,
        ),
    }
}

fn is_data_unit(sup: &Super, unit: u64) -> bool
    ensures { IsTrue result ↔ IsDataUnit sup.now unit }
{
    2 + 2 * u64::from(sup.half) <= unit && unit < u64::from(sup.units)
}

// Whether the bit at this place of a row of the bitmap is 1.
fn is_one(bits: &[u8], place: u32) -> bool
    requires size { length bits.now ≡ 16 }
    requires place { place < 128 }
    ensures { IsTrue result ↔ (bit_at_place bits.now place ≡ 1) }
{
    (bits[(place / BYTE_UNITS) as usize] >> (place % BYTE_UNITS)) & 1 == 1
}

// Whether the bit at this place of a row of the bitmap is 0, or of a data unit.
fn is_bit_of_data(sup: &Super, row: u32, bits: &[u8], place: u32) -> bool
    requires size { length bits.now ≡ 16 }
    requires place { place < 128 }
    ensures { IsTrue result ↔ IsBitOfData sup.now row bits.now place }
{
    let unit = u64::from(ROW_UNITS) * u64::from(row) + u64::from(place);
    !is_one(bits, place) || is_data_unit(sup, unit)
}

// Whether the bits of a row of the bitmap that are 1 are of data units.
fn are_of_data(sup: &Super, row: u32, bits: &[u8]) -> bool
    requires { length bits.now ≡ 16 }
    ensures { IsTrue result ↔ AreOfData sup.now row bits.now }
{
    for place in 0..ROW_UNITS {
        if !is_bit_of_data(sup, row, bits, place) {
            return false;
        }
    }
    true
}

/// Whether a row is in its place among all rows, where those before it were passed.
pub fn is_in_place(
    alloc: Global,
    sup: &Super,
    rows: &RowTable,
    passed: &Passed,
    row: &Row,
) -> Result<bool, AllocError>
    requires { IsAtRow sup.now rows.now.rows passed.now row.now }
    ensures { IfOk result (λ placed. (value : List ℕ) → IsTrue placed ↔ IsInPlace sup.now rows.now.rows (format_row row.now value)) }
{
    match row {
        Row::Collection { coll: _coll } => Ok(true),
        Row::Onode {
            coll,
            object: _object,
            size,
        } => Ok(*size <= OBJECT_LIMIT && has_collection(alloc, rows, passed, coll)?),
        Row::Shard {
            coll,
            object,
            page,
            extents,
        } => {
            if passed.ends_before(coll, object, *page) {
                shard_stands(alloc, sup, rows, passed, coll, object, extents.as_slice())
            } else {
                Ok(false)
            }
        }
        Row::Attribute {
            coll,
            object,
            name: _name,
        } => has_object(alloc, rows, passed, coll, object),
        Row::OmapHeader { coll, object } => has_object(alloc, rows, passed, coll, object),
        Row::OmapPair {
            coll,
            object,
            key: _key,
        } => has_object(alloc, rows, passed, coll, object),
        Row::Blob { sbid, first, slots } => {
            Ok(is_blob_in_place(sup, *sbid, *first, slots.as_slice()))
        }
        Row::Bitmap { row, bits } => Ok(are_of_data(sup, *row, bits.as_slice())),
    }
}
