//! Keys and values read as rows.
//!
//! A value of an attribute, a header or a pair is measured where it lies, and not copied, when rows are read.
ghost use Rattle.std.specs.Prelude.{◌≡◌, ◌↔◌, ◌<◌, ◌≤◌, false, length, IsTrue, IfOk, MatchOption};
ghost use Rattle.meta_rows.specs.Prelude.{all_zero};
ghost use Rattle.unit_fields.specs.Prelude.{IsName, IsCollName};
ghost use Rattle.unit_fields.specs.declared.width.Width.{Width};
ghost use Rattle.row_format.specs.Prelude.{onode_key, shard_key, attr_key, header_key, omap_key, shared_key, bitmap_key, BeginsAt};
ghost use Rattle.row_reading.specs.Reading.{format_row, SpellsRow, IsNoRow};

use crate::key::{Part, RowKey, read_key_after};
use crate::slots::{Slot, read_run, read_slots};
use byte_maps::{Bytes, Items, is_zero};
use onode_codec::{Extent, Onode, decode_extents};
use std::alloc::{AllocError, Global};
use unit_fields::limits::VALUE_LIMIT;
use unit_fields::{CollName, Fields, Name, UnitNo, Width};

// The bytes of a row of the bitmap.
const ROW_BYTES: usize = 16;

/// A row by what it says. The bytes that an attribute, an omap header or a pair gives stay in the value that the row was read from: they are
/// only measured.
#[derive(Drop)]
pub enum Row {
    /// There is a collection.
    Collection {
        coll: CollName,
    },
    /// There is an object, of so many bytes.
    Onode {
        coll: CollName,
        object: Name,
        size: u64,
    },
    /// These are an object's extents from a page on, up to its next shard.
    Shard {
        coll: CollName,
        object: Name,
        page: u32,
        extents: Items<Extent>,
    },
    /// An object has an attribute of this name.
    Attribute {
        coll: CollName,
        object: Name,
        name: Name,
    },
    /// An object's omap has a header.
    OmapHeader {
        coll: CollName,
        object: Name,
    },
    /// An object's omap has a pair under this key.
    OmapPair {
        coll: CollName,
        object: Name,
        key: Name,
    },
    /// These are the slots of a shared blob, on consecutive units from this one on.
    Blob {
        sbid: u64,
        first: UnitNo,
        slots: Items<Slot>,
    },
    /// These are the bits of 128 units of the freelist.
    Bitmap {
        row: u32,
        bits: Bytes,
    },
}

// The row of an onode with this value.
fn read_onode(coll: CollName, object: Name, value: &[u8]) -> Option<Row>
    requires coll { IsCollName coll }
    requires object { IsName object }
    ensures { MatchOption result ((width : Width) → IsNoRow width (onode_key coll object) value.now)
        (λ row. (width : Width) → SpellsRow width (onode_key coll object) value.now (format_row row value.now)) }
{
    match Onode::decode(value) {
        Some(onode) => Some(Row::Onode {
            coll,
            object,
            size: onode.size,
        }),
        None => None,
    }
}

// Whether the first extent begins at this page.
fn begins_at(extents: &[Extent], page: u32) -> bool
    ensures { IsTrue result ↔ BeginsAt page extents.now }
{
    match extents {
        [first, ..] => first.first == page,
        [] => false,
    }
}

// The row of a shard with this value.
fn read_shard(
    alloc: Global,
    width: Width,
    coll: CollName,
    object: Name,
    page: u32,
    value: &[u8],
) -> Result<Option<Row>, AllocError>
    requires coll { IsCollName coll }
    requires object { IsName object }
    ensures { IfOk result (λ found. MatchOption found (IsNoRow width (shard_key coll object page) value.now)
        (λ row. SpellsRow width (shard_key coll object page) value.now (format_row row value.now))) }
{
    let Some(extents) = decode_extents(alloc, width, value)? else {
        return Ok(None);
    };
    if !begins_at(&extents, page) {
        return Ok(None);
    }
    let extents = Items::from_vec(extents);
    Ok(Some(Row::Shard {
        coll,
        object,
        page,
        extents,
    }))
}

// Whether this can be the value of an attribute or of a pair.
fn is_value(value: &[u8]) -> bool
    ensures { IsTrue result ↔ (length value.now ≤ 65535) }
{
    value.len() <= VALUE_LIMIT
}

// Whether this can be that of an omap header.
fn is_header(value: &[u8]) -> bool
    ensures { IsTrue result ↔ ((0 < length value.now) × (length value.now ≤ 65535)) }
{
    !value.is_empty() && is_value(value)
}

// The row of an attribute with this value.
fn read_attribute(coll: CollName, object: Name, name: Name, value: &[u8]) -> Option<Row>
    requires coll { IsCollName coll }
    requires object { IsName object }
    requires name { IsName name }
    ensures { MatchOption result ((width : Width) → IsNoRow width (attr_key coll object name) value.now)
        (λ row. (width : Width) → SpellsRow width (attr_key coll object name) value.now (format_row row value.now)) }
{
    if !is_value(value) {
        return None;
    }
    Some(Row::Attribute { coll, object, name })
}

// The row of an omap header with this value.
fn read_header(coll: CollName, object: Name, value: &[u8]) -> Option<Row>
    requires coll { IsCollName coll }
    requires object { IsName object }
    ensures { MatchOption result ((width : Width) → IsNoRow width (header_key coll object) value.now)
        (λ row. (width : Width) → SpellsRow width (header_key coll object) value.now (format_row row value.now)) }
{
    if !is_header(value) {
        return None;
    }
    Some(Row::OmapHeader { coll, object })
}

// The row of a pair of an omap with this value.
fn read_pair(coll: CollName, object: Name, key: Name, value: &[u8]) -> Option<Row>
    requires coll { IsCollName coll }
    requires object { IsName object }
    requires key { IsName key }
    ensures { MatchOption result ((width : Width) → IsNoRow width (omap_key coll object key) value.now)
        (λ row. (width : Width) → SpellsRow width (omap_key coll object key) value.now (format_row row value.now)) }
{
    if !is_value(value) {
        return None;
    }
    Some(Row::OmapPair { coll, object, key })
}

// The row of a shared blob with this value.
fn read_blob(
    alloc: Global,
    width: Width,
    sbid: u64,
    value: &[u8],
) -> Result<Option<Row>, AllocError>
    ensures { IfOk result (λ found. MatchOption found (IsNoRow width (shared_key sbid) value.now)
        (λ row. SpellsRow width (shared_key sbid) value.now (format_row row value.now))) }
{
    let mut fields = Fields::new(value);
    let Some(units) = read_run(&mut fields) else {
        return Ok(None);
    };
    let Some(slots) = read_slots(alloc, width, &mut fields, units.count)? else {
        return Ok(None);
    };
    if !fields.is_empty() {
        return Ok(None);
    }
    let first = units.first;
    Ok(Some(Row::Blob { sbid, first, slots }))
}

// Whether this is the value of a row of the bitmap.
fn are_bits(value: &[u8]) -> bool
    ensures { IsTrue result ↔ ((length value.now ≡ 16) × (all_zero value.now ≡ false)) }
{
    value.len() == ROW_BYTES && !is_zero(value)
}

// The row of the bitmap with this value.
fn read_bits(alloc: Global, row: u32, value: &[u8]) -> Result<Option<Row>, AllocError>
    requires { row < 33554432 }
    ensures { IfOk result (λ found. MatchOption found ((width : Width) → IsNoRow width (bitmap_key row) value.now)
        (λ r. (width : Width) → SpellsRow width (bitmap_key row) value.now (format_row r value.now))) }
{
    if !are_bits(value) {
        return Ok(None);
    }
    let bits = Bytes::from_slice(alloc, value)?;
    Ok(Some(Row::Bitmap { row, bits }))
}

/// The row that a key and a value spell, with checksums of this width. None: they spell none that a store has. Whether the row fits the
/// rows around it is not looked at.
pub fn read_row(
    alloc: Global,
    width: Width,
    key: &[u8],
    value: &[u8],
) -> Result<Option<Row>, AllocError>
    ensures { IfOk result (λ found. MatchOption found (IsNoRow width key.now value.now)
        (λ row. SpellsRow width key.now value.now (format_row row value.now))) }
{
    read_row_after(alloc, width, None, key, value)
}

/// The same, sooner where it is the row of an object of a collection that is known.
pub fn read_row_after(
    alloc: Global,
    width: Width,
    known: Option<&CollName>,
    key: &[u8],
    value: &[u8],
) -> Result<Option<Row>, AllocError>
    ensures { IfOk result (λ found. MatchOption found (IsNoRow width key.now value.now)
        (λ row. SpellsRow width key.now value.now (format_row row value.now))) }
{
    match read_key_after(alloc, known, key)? {
        None => Ok(None),
        Some(RowKey::Collection { coll }) if value.is_empty() => Ok(Some(Row::Collection { coll })),
        Some(RowKey::Collection { .. }) => Ok(None),
        Some(RowKey::Object { coll, object, part }) => match part {
            Part::Onode => Ok(read_onode(coll, object, value)),
            Part::Shard { page } => read_shard(alloc, width, coll, object, page, value),
            Part::Attribute { name } => Ok(read_attribute(coll, object, name, value)),
            Part::OmapHeader => Ok(read_header(coll, object, value)),
            Part::OmapPair { key } => Ok(read_pair(coll, object, key, value)),
        },
        Some(RowKey::Blob { sbid }) => read_blob(alloc, width, sbid, value),
        Some(RowKey::Bitmap { row }) => read_bits(alloc, row, value),
    }
}
