//! Keys read as what they name.
ghost use Rattle.std.specs.Prelude.{◌≡◌, ◌≢◌, ◌^◌, ◌<◌, ◌++◌, ◌∷◌, ℕ, length, slice_index, IfOk, IfNone, IfSome, MatchOption};
ghost use Rattle.std.specs.List.{AllByRecursion};
ghost use Rattle.std.specs.Int.{w32, w64, to_be_bytes};
ghost use Rattle.unit_fields.specs.Prelude.{IsCollName};
ghost use Rattle.row_reading.specs.Reading.{IsPart, IsNoPart, IsNoObject, IsNoKey, SpellsObject, SpellsKey};

use onode_codec::RowKind;
use std::alloc::{AllocError, Global};
use unit_fields::{CollName, Fields, Name};

// The first bytes of keys that are read.
const COLLECTION: u8 = RowKind::Collection as u8;

/// That of the keys of an object's onode and its shards.
pub const OBJECT: u8 = RowKind::Object as u8;

const ATTRIBUTE: u8 = RowKind::Attribute as u8;

const OMAP: u8 = RowKind::Omap as u8;

const BLOB: u8 = RowKind::Shared as u8;

const BITMAP: u8 = RowKind::Bitmap as u8;

// What follows an object's names in the keys of its onode and its shards, and what ends the key of a shard.
const ONODE: u8 = b'o';

const SHARD: u8 = b'x';

// What follows them in the keys of its omap's header and pairs.
const HEADER: u8 = b'-';

const PAIR: u8 = b'.';

// So many rows have the bits of all units, whose numbers have 32 bits.
const BIT_ROWS: u32 = 33554432;

/// Which row of an object's own a key names.
#[derive(Drop)]
pub enum Part {
    /// The onode.
    Onode,
    /// The shard of its extents that begins at this page.
    Shard { page: u32 },
    /// The attribute of this name.
    Attribute { name: Name },
    /// The header of its omap.
    OmapHeader,
    /// The pair of its omap under this key.
    OmapPair { key: Name },
}

/// What the key of a row names.
#[derive(Drop)]
pub enum RowKey {
    /// A collection.
    Collection {
        coll: CollName,
    },
    /// A row of an object.
    Object {
        coll: CollName,
        object: Name,
        part: Part,
    },
    /// A shared blob.
    Blob {
        sbid: u64,
    },
    /// The bits of 128 units of the freelist.
    Bitmap {
        row: u32,
    },
}

// Where the first zero stands. It is not inlined, so that its loop stands once in the program.
#[inline(never)]
fn place_of_zero(bytes: &[u8]) -> Option<usize>
    ensures none { IfNone result (AllByRecursion (λ b. b ≢ 0) bytes.now) }
    ensures found { IfSome result (λ i. (i < length bytes.now) × (slice_index bytes.now i ≡ 0)) }
    ensures before { IfSome result (λ i. (k : ℕ) → k < i → slice_index bytes.now k ≢ 0) }
{
    bytes.iter().position(|byte| *byte == 0)
}

// What stands before the first zero, and what behind it.
fn until_zero(bytes: &[u8]) -> Option<(&[u8], &[u8])>
    ensures { MatchOption result (AllByRecursion (λ b. b ≢ 0) bytes.now)
        (λ x. AllByRecursion (λ b. b ≢ 0) x.0.now × (bytes.now ≡ x.0.now ++ (0 ∷ x.1.now))) }
{
    let Some(place) = place_of_zero(bytes) else {
        return None;
    };
    Some((&bytes[..place], &bytes[place + 1..]))
}

// What stands behind an object's names in the key of its onode or of a shard.
fn read_onode_or_shard(bytes: &[u8]) -> Option<Part>
    ensures { MatchOption result (IsNoPart 0x4f bytes.now) (IsPart 0x4f bytes.now) }
{
    let mut fields = Fields::new(bytes);
    if fields.u8()? != ONODE {
        return None;
    }
    if fields.is_empty() {
        return Some(Part::Onode);
    }
    let page = fields.u32_be()?;
    if fields.u8()? == SHARD && fields.is_empty() {
        Some(Part::Shard { page })
    } else {
        None
    }
}

// The same in the key of an attribute.
fn read_attribute(alloc: Global, bytes: &[u8]) -> Result<Option<Part>, AllocError>
    ensures { IfOk result (λ found. MatchOption found (IsNoPart 0x41 bytes.now) (IsPart 0x41 bytes.now)) }
{
    match Name::read(alloc, bytes)? {
        Some(name) => Ok(Some(Part::Attribute { name })),
        None => Ok(None),
    }
}

// The same in the key of its omap's header or of a pair.
fn read_header_or_pair(alloc: Global, bytes: &[u8]) -> Result<Option<Part>, AllocError>
    ensures { IfOk result (λ found. MatchOption found (IsNoPart 0x4d bytes.now) (IsPart 0x4d bytes.now)) }
{
    let Some((first, key)) = bytes.split_first() else {
        return Ok(None);
    };
    match *first {
        HEADER if key.is_empty() => Ok(Some(Part::OmapHeader)),
        PAIR => match Name::read(alloc, key)? {
            Some(key) => Ok(Some(Part::OmapPair { key })),
            None => Ok(None),
        },
        _ => Ok(None),
    }
}

// The same in a key of this kind.
fn read_part(alloc: Global, kind: u8, bytes: &[u8]) -> Result<Option<Part>, AllocError>
    ensures { IfOk result (λ found. MatchOption found (IsNoPart kind bytes.now) (IsPart kind bytes.now)) }
{
    match kind {
        OBJECT => Ok(read_onode_or_shard(bytes)),
        ATTRIBUTE => read_attribute(alloc, bytes),
        OMAP => read_header_or_pair(alloc, bytes),
        _ => Ok(None),
    }
}

// The collection's name with these bytes, if they are one. It is copied where it is one that was read before.
fn read_coll(
    alloc: Global,
    known: Option<&CollName>,
    bytes: &[u8],
) -> Result<Option<CollName>, AllocError>
    ensures { IfOk result (λ found. MatchOption found (¬ (IsCollName bytes.now)) (λ name. (name ≡ bytes.now) × IsCollName bytes.now)) }
{
    match known {
        Some(name) if name.as_slice() == bytes => Ok(Some(name.copy(alloc)?)),
        _ => CollName::read(alloc, bytes),
    }
}

// The key of an object's row behind its first byte, the kind.
fn read_object(
    alloc: Global,
    known: Option<&CollName>,
    kind: u8,
    bytes: &[u8],
) -> Result<Option<RowKey>, AllocError>
    ensures { IfOk result (λ found. MatchOption found (IsNoObject kind bytes.now) (SpellsObject kind bytes.now)) }
{
    let Some((coll, rest)) = until_zero(bytes) else {
        return Ok(None);
    };
    let Some((object, rest)) = until_zero(rest) else {
        return Ok(None);
    };
    let Some(part) = read_part(alloc, kind, rest)? else {
        return Ok(None);
    };
    let Some(coll) = read_coll(alloc, known, coll)? else {
        return Ok(None);
    };
    let Some(object) = Name::read(alloc, object)? else {
        return Ok(None);
    };
    Ok(Some(RowKey::Object { coll, object, part }))
}

// The number of the shared blob whose key has these bytes behind its first.
fn read_sbid(bytes: &[u8]) -> Option<u64>
    ensures { MatchOption result ((sbid : ℕ) → sbid < 2 ^ 64 → bytes.now ≢ to_be_bytes w64 sbid)
        (λ sbid. (sbid < 2 ^ 64) × (bytes.now ≡ to_be_bytes w64 sbid)) }
{
    let mut fields = Fields::new(bytes);
    let sbid = fields.u64_be()?;
    if fields.is_empty() { Some(sbid) } else { None }
}

// The number of the bitmap's row whose key has these bytes behind its first.
fn read_bit_row(bytes: &[u8]) -> Option<u32>
    ensures { MatchOption result ((row : ℕ) → row < 33554432 → bytes.now ≢ to_be_bytes w32 row)
        (λ row. (row < 33554432) × (bytes.now ≡ to_be_bytes w32 row)) }
{
    let mut fields = Fields::new(bytes);
    let row = fields.u32_be()?;
    if row < BIT_ROWS && fields.is_empty() {
        Some(row)
    } else {
        None
    }
}

/// What these bytes name as the key of a row. None: they are the key of no row that a store has.
pub fn read_key(alloc: Global, key: &[u8]) -> Result<Option<RowKey>, AllocError>
    ensures { IfOk result (λ found. MatchOption found (IsNoKey key.now) (SpellsKey key.now)) }
{
    read_key_after(alloc, None, key)
}

/// The same, sooner where it names an object of a collection that is known.
pub fn read_key_after(
    alloc: Global,
    known: Option<&CollName>,
    key: &[u8],
) -> Result<Option<RowKey>, AllocError>
    ensures { IfOk result (λ found. MatchOption found (IsNoKey key.now) (SpellsKey key.now)) }
{
    let Some((kind, rest)) = key.split_first() else {
        return Ok(None);
    };
    match *kind {
        COLLECTION => match CollName::read(alloc, rest)? {
            Some(coll) => Ok(Some(RowKey::Collection { coll })),
            None => Ok(None),
        },
        BLOB => match read_sbid(rest) {
            Some(sbid) => Ok(Some(RowKey::Blob { sbid })),
            None => Ok(None),
        },
        BITMAP => match read_bit_row(rest) {
            Some(row) => Ok(Some(RowKey::Bitmap { row })),
            None => Ok(None),
        },
        kind => read_object(alloc, known, kind, rest),
    }
}
