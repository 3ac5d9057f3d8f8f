//! An object's extents, and their one spelling.
ghost use Rattle.std.specs.Prelude.{◌≡◌, ◌<◌, ◌≤◌, ◌∷◌, ◌++◌, List, length, IfOk, OnOk, MatchOption};
ghost use Rattle.std.specs.List.{flat_map, AllByRecursion};
ghost use Rattle.std.specs.Int.{w16, w32, from_le_bytes, to_le_bytes};
ghost use Rattle.unit_fields.specs.Prelude.{bytes_of};
ghost use Rattle.row_format.specs.Prelude.{csum_bytes, Extent, private, shared, page_count, extent_bytes, FitsExtent};
ghost use Rattle.onode_codec.specs.Bodies.{body_of};
ghost use Rattle.onode_codec.specs.Reading.{extent_head, lone_extent, BeginsWithNoExtent, HasNoStart, ReadsStart, ReadsFront, ReadsHead, ReadsCsums, ReadsExtent, SpellExtents};

use crate::csum::{push_csum, read_csum};
use byte_maps::{Bytes, Items};
use std::alloc::{AllocError, Global};
use std::marker::Model;
use unit_fields::limits::EXTENT_PAGES;
use unit_fields::{Fields, UnitNo, Width};

// The kind of an extent whose units are the object's own, and of one on slots of a shared blob.
const PRIVATE: u8 = 0;

const SHARED: u8 = 1;

/// Where the pages of an extent stand (Ceph's blob).
#[derive(Drop)]
pub enum Body {
    /// On consecutive units of the object's own, from `unit` on. There is one checksum for each page, in the pages' order.
    Private { unit: UnitNo, csums: Items<u32> },
    /// On so many consecutive slots of a shared blob, from `first` on.
    Shared { sbid: u64, first: u16, count: u16 },
}

impl Body {
    /// How many pages stand there.
    pub fn page_count(&self) -> u64
        ensures { result ≡ page_count (body_of self.now) }
    {
        match self {
            Body::Private { unit: _, csums } => csums.len() as u64,
            Body::Shared {
                sbid: _,
                first: _,
                count,
            } => u64::from(*count),
        }
    }
}

/// Consecutive pages of an object, and where they stand. There are as many pages as the body says.
#[derive(Drop)]
pub struct Extent {
    /// The first page: page p is the bytes from 4096 times p on.
    pub first: u32,
    /// Where they stand.
    pub body: Body,
}

impl Model for Extent {
    ghost use Rattle.row_format.specs.Prelude.{Extent};
    ghost use Rattle.onode_codec.specs.Bodies.{body_of};

    ghost Value = { Extent };

    ghost view = { λ a. record { first = a.first; body = body_of a.body } };
}

/// Where the first page of an extent stands.
#[derive(Clone, Copy)]
pub enum Start {
    /// On this unit of the object's own.
    Unit(UnitNo),
    /// On this slot of a shared blob.
    Slot { sbid: u64, index: u16 },
}

/// The fields of an extent, in front of its checksums.
#[derive(Clone, Copy)]
pub struct Head {
    /// The first page.
    pub first: u32,
    /// How many pages there are. Where they stand on units of the object's own, as many checksums follow.
    pub count: u16,
    /// Where the first page stands.
    pub start: Start,
}

// Where the first page stands, by the extent's kind, which was read before.
fn read_start(kind: u8, fields: &mut Fields) -> Option<Start>
    ensures { MatchOption result (HasNoStart (kind ∷ fields.old)) (ReadsStart (kind ∷ fields.old) fields.new) }
{
    match kind {
        PRIVATE => {
            let unit = fields.u32()?;
            Some(Start::Unit(UnitNo::new(unit)))
        }
        SHARED => {
            let sbid = fields.u64()?;
            let index = fields.u16()?;
            Some(Start::Slot { sbid, index })
        }
        _ => None,
    }
}

// The numbers that bytes are, and that spell them.
fn u16_from_le(bytes: [u8; 2]) -> u16
    ensures value { result ≡ from_le_bytes w16 bytes }
    ensures spelled { to_le_bytes w16 result ≡ bytes }
{
    u16::from_le_bytes(bytes)
}

fn u32_from_le(bytes: [u8; 4]) -> u32
    ensures value { result ≡ from_le_bytes w32 bytes }
    ensures spelled { to_le_bytes w32 result ≡ bytes }
{
    u32::from_le_bytes(bytes)
}

// The front of an extent: its first page, how many pages there are, and its kind.
fn read_front(fields: &mut Fields) -> Option<(u32, u16, u8)>
    ensures { MatchOption result (length fields.old < 7) (λ front. ReadsFront fields.old fields.new front.0 front.1 front.2) }
{
    let (front, rest) = fields.rest().split_first_chunk::<7>()?;
    *fields = Fields::new(rest);
    let [a, b, c, d, low, high, kind] = *front;
    let first = u32_from_le([a, b, c, d]);
    let count = u16_from_le([low, high]);
    Some((first, count, kind))
}

impl Head {
    /// The head at the front. None: no extent of 1 to 256 pages stands there, and the fields may be read.
    pub fn read(fields: &mut Fields) -> Option<Head>
        ensures { MatchOption result ((width : Width) → BeginsWithNoExtent width fields.old) (ReadsHead fields.old fields.new) }
    {
        let (first, count, kind) = read_front(fields)?;
        let start = read_start(kind, fields)?;
        if count > 0 && count <= EXTENT_PAGES {
            Some(Head {
                first,
                count,
                start,
            })
        } else {
            None
        }
    }

    /// Writes the head behind what is there.
    pub fn push(&self, out: &mut Vec<u8>) -> Result<(), AllocError>
        ensures { OnOk result (out.new.items ≡ out.old.items ++ extent_head self.now) }
    {
        push_head(out, self.first, self.count, &self.start)
    }
}

// Writes the fields of a head in one piece.
fn push_head(out: &mut Vec<u8>, first: u32, count: u16, start: &Start) -> Result<(), AllocError>
    ensures { OnOk result (out.new.items ≡ out.old.items ++ extent_head (record { first = first; count = count; start = start.now })) }
{
    let [a, b, c, d] = first.to_le_bytes();
    let [low, high] = count.to_le_bytes();
    match start {
        Start::Unit(unit) => {
            let [p, q, r, s] = unit.number().to_le_bytes();
            out.extend_from_slice(&[a, b, c, d, low, high, PRIVATE, p, q, r, s])
        }
        Start::Slot { sbid, index } => {
            let [p, q, r, s, t, u, v, w] = sbid.to_le_bytes();
            let [x, y] = index.to_le_bytes();
            out.extend_from_slice(&[a, b, c, d, low, high, SHARED, p, q, r, s, t, u, v, w, x, y])
        }
    }
}

/// An extent of one page on a unit of the object's own. Where units are scattered most extents are such, so they are read and written in one
/// piece.
#[derive(Clone, Copy)]
pub struct LonePage {
    /// The page.
    pub first: u32,
    /// The unit on which it stands.
    pub unit: UnitNo,
    /// Its checksum.
    pub csum: u32,
}

impl LonePage {
    /// The extent at the front, where it is such a one. None: it isn't, and none of it is read.
    pub fn read(width: Width, fields: &mut Fields) -> Option<LonePage>
        ensures { MatchOption result (fields.new ≡ fields.old) (λ it. ReadsExtent width fields.old fields.new (lone_extent it)) }
    {
        let (front, rest) = fields.rest().split_first_chunk::<11>()?;
        let [a, b, c, d, low, high, kind, p, q, r, s] = *front;
        if low != 1 || high != 0 || kind != PRIVATE {
            return None;
        }
        let mut behind = Fields::new(rest);
        let csum = read_csum(&mut behind, width)?;
        *fields = behind;
        Some(LonePage {
            first: u32_from_le([a, b, c, d]),
            unit: UnitNo::new(u32_from_le([p, q, r, s])),
            csum,
        })
    }

    /// Writes the extent behind what is there.
    pub fn push(&self, out: &mut Vec<u8>, width: Width) -> Result<(), AllocError>
        ensures { OnOk result (out.new.items ≡ out.old.items ++ extent_bytes width (lone_extent self.now)) }
    {
        let [a, b, c, d] = self.first.to_le_bytes();
        let [p, q, r, s] = self.unit.number().to_le_bytes();
        match width {
            Width::FourBytes => {
                let [w, x, y, z] = self.csum.to_le_bytes();
                out.extend_from_slice(&[a, b, c, d, 1, 0, PRIVATE, p, q, r, s, w, x, y, z])
            }
        }
    }
}

fn push_csums(out: &mut Vec<u8>, width: Width, csums: &[u32]) -> Result<(), AllocError>
    ensures { OnOk result (out.new.items ≡ out.old.items ++ flat_map (csum_bytes width) csums.now) }
{
    for csum in csums {
        push_csum(out, width, *csum)?;
    }
    Ok(())
}

// Writes an extent on units of the object's own.
fn push_private(
    out: &mut Vec<u8>,
    width: Width,
    first: u32,
    unit: UnitNo,
    csums: &[u32],
) -> Result<(), AllocError>
    requires { length csums.now ≤ 256 }
    ensures { OnOk result (out.new.items ≡ out.old.items ++ extent_bytes width (record { first = first; body = private unit csums.now })) }
{
    let head = Head {
        first,
        count: csums.len() as u16,
        start: Start::Unit(unit),
    };
    head.push(out)?;
    push_csums(out, width, csums)
}

// The same of one on slots of a shared blob.
fn push_shared(
    out: &mut Vec<u8>,
    width: Width,
    first: u32,
    sbid: u64,
    index: u16,
    count: u16,
) -> Result<(), AllocError>
    ensures { OnOk result (out.new.items ≡ out.old.items ++ extent_bytes width (record { first = first; body = shared sbid index count })) }
{
    let head = Head {
        first,
        count,
        start: Start::Slot { sbid, index },
    };
    head.push(out)
}

fn push_extent(out: &mut Vec<u8>, width: Width, extent: &Extent) -> Result<(), AllocError>
    requires { FitsExtent width extent.now }
    ensures { OnOk result (out.new.items ≡ out.old.items ++ extent_bytes width extent.now) }
{
    match &extent.body {
        Body::Private { unit, csums } => {
            push_private(out, width, extent.first, *unit, csums.as_slice())
        }
        Body::Shared { sbid, first, count } => {
            push_shared(out, width, extent.first, *sbid, *first, *count)
        }
    }
}

/// The value of a shard's row, with checksums of this width: its extents, one behind the other. Each has 1 to 256 pages.
pub fn encode_extents(alloc: Global, width: Width, extents: &[Extent]) -> Result<Bytes, AllocError>
    requires { AllByRecursion (FitsExtent width) extents.now }
    ensures { IfOk result (λ bytes. bytes ≡ flat_map (extent_bytes width) extents.now) }
{
    let mut out = Vec::new(alloc);
    for extent in extents {
        push_extent(&mut out, width, extent)?;
    }
    Ok(Bytes::from_vec(out))
}

fn read_csums(
    alloc: Global,
    width: Width,
    fields: &mut Fields,
    count: u16,
) -> Result<Option<Items<u32>>, AllocError>
    ensures { IfOk result (λ found. MatchOption found (length fields.old < bytes_of width count) (ReadsCsums width count fields.old fields.new)) }
{
    let mut csums = Vec::with_capacity(alloc, usize::from(count))?;
    'csums: for _i in 0..count {
        let Some(csum) = read_csum(fields, width) else {
            return Ok(None);
        };
        csums.push(csum)?;
    }
    Ok(Some(Items::from_vec(csums)))
}

fn read_extent(
    alloc: Global,
    width: Width,
    fields: &mut Fields,
) -> Result<Option<Extent>, AllocError>
    ensures { IfOk result (λ found. MatchOption found (BeginsWithNoExtent width fields.old) (ReadsExtent width fields.old fields.new)) }
{
    let Some(head) = Head::read(fields) else {
        return Ok(None);
    };
    let Head {
        first,
        count,
        start,
    } = head;
    match start {
        Start::Unit(unit) => match read_csums(alloc, width, fields, count)? {
            Some(csums) => {
                let body = Body::Private { unit, csums };
                Ok(Some(Extent { first, body }))
            }
            None => Ok(None),
        },
        Start::Slot { sbid, index } => {
            let body = Body::Shared {
                sbid,
                first: index,
                count,
            };
            Ok(Some(Extent { first, body }))
        }
    }
}

/// The extents that a shard's value spells, with checksums of this width. None: it is no spelling of any extents of 1 to 256 pages
/// each. Whether the extents ascend, and whether there is one at all, is for the caller to see.
pub fn decode_extents(
    alloc: Global,
    width: Width,
    bytes: &[u8],
) -> Result<Option<Vec<Extent>>, AllocError>
    ensures { IfOk result (λ found. MatchOption found ((es : List Extent) → ¬ (SpellExtents width bytes.now es))
        (λ extents. SpellExtents width bytes.now extents.items)) }
{
    let mut fields = Fields::new(bytes);
    let mut extents = Vec::new(alloc);
    'extents: while !fields.is_empty() {
        let Some(extent) = read_extent(alloc, width, &mut fields)? else {
            return Ok(None);
        };
        extents.push(extent)?;
    }
    Ok(Some(extents))
}
