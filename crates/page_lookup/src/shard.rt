//! A page looked up in the bytes of one shard.
ghost use Rattle.std.specs.Prelude.{◌≡◌, ◌↔◌, ◌+◌, ◌^◌, ◌<◌, ◌≤◌, [], IfNone, IfSome, MatchOption, IsTrue, length, drop};
ghost use Rattle.unit_fields.specs.Prelude.{bytes_of};
ghost use Rattle.row_format.specs.Prelude.{own, slot};
ghost use Rattle.page_lookup.specs.Bytes.{csum_in, size_in, extents_read};
ghost use Rattle.page_lookup.specs.Found.{place_found, EndBehind, LeavesOut, BeginsBy, HasNumber};
ghost use Rattle.page_lookup.specs.Heads.{IsSlotOf, IsUnitOf, IsHeadOf, head_size, HasPlace, place_from};

use blob_map::{At, Place};
use onode_codec::{Start, read_csum};
use unit_fields::{Fields, UnitNo, Width};

// The bytes of an extent on units in front of its checksums: the first page, the number of pages, the kind and the first unit.
const HEAD_BYTES: usize = 11;

// Those of an extent on slots: the blob's number and the first slot stand for the unit.
const SHARED_BYTES: usize = 17;

// The kind of such an extent.
const SHARED: u8 = 1;

// The fields of an extent in front of its checksums, if it has some.
#[derive(Clone, Copy)]
struct Head {
    first: u32,
    count: u16,
    start: Start,
}

// Where the first page of an extent on slots stands. None: too few bytes follow.
fn slot_in(fields: &mut Fields) -> Option<Start>
    ensures { MatchOption result (length fields.old < 10) (IsSlotOf fields.old) }
{
    let sbid = fields.u64()?;
    let index = fields.u16()?;
    Some(Start::Slot { sbid, index })
}

// The same of an extent of so many pages on units, where the checksums follow too.
fn unit_in(width: Width, count: u16, fields: &mut Fields) -> Option<Start>
    ensures { MatchOption result (length fields.old < 4 + bytes_of width count) (IsUnitOf width count fields.old) }
{
    let unit = fields.u32()?;
    if fields.rest().len() < width.bytes_of(usize::from(count)) {
        return None;
    }
    Some(Start::Unit(UnitNo::new(unit)))
}

// The fields of the extent at the front. None: no extent stands there whole.
fn head_in(width: Width, bytes: &[u8]) -> Option<Head>
    ensures none { IfNone result (length bytes.now < size_in width bytes.now) }
    ensures some { IfSome result (IsHeadOf width bytes.now) }
{
    let mut fields = Fields::new(bytes);
    let first = fields.u32()?;
    let count = fields.u16()?;
    let kind = fields.u8()?;
    let start = if kind == SHARED {
        slot_in(&mut fields)?
    } else {
        unit_in(width, count, &mut fields)?
    };
    Some(Head {
        first,
        count,
        start,
    })
}

// How many bytes the extent with this head has.
fn size_of(width: Width, head: &Head) -> usize
    requires { head.now.count < 2 ^ 16 }
    ensures { result ≡ head_size width head.now }
{
    match head.start {
        Start::Unit(_) => HEAD_BYTES + width.bytes_of(usize::from(head.count)),
        Start::Slot { .. } => SHARED_BYTES,
    }
}

// The bytes behind so many.
fn behind(bytes: &[u8], count: usize) -> &[u8]
    requires { count ≤ length bytes.now }
    ensures { result.now ≡ drop count bytes.now }
{
    &bytes[count..]
}

/// What is left of the bytes of extents without those at the front that end in front of a page. Each of them is skipped by its count.
pub fn skip_to(width: Width, bytes: &[u8], page: u32) -> &[u8]
    ensures left { LeavesOut page (extents_read width bytes.now) (extents_read width result.now) }
    ensures reaches { EndBehind page (extents_read width result.now) }
{
    let mut left = bytes;
    'extents: while let Some(head) = head_in(width, left) {
        if u64::from(page) < u64::from(head.first) + u64::from(head.count) {
            return left;
        }
        left = behind(left, size_of(width, &head));
    }
    left
}

/// Whether no extent is left.
pub fn is_done(width: Width, bytes: &[u8]) -> bool
    ensures { IsTrue result ↔ (extents_read width bytes.now ≡ []) }
{
    head_in(width, bytes).is_none()
}

/// Whether the extent at the front, if there is one, begins with a page or before it.
pub fn begins_by(width: Width, bytes: &[u8], page: u32) -> bool
    ensures { IsTrue result → BeginsBy page (extents_read width bytes.now) }
{
    match head_in(width, bytes) {
        Some(head) => head.first <= page,
        None => false,
    }
}

// The checksum in the first bytes.
fn csum_in(width: Width, bytes: &[u8]) -> u32
    requires { bytes_of width 1 ≤ length bytes.now }
    ensures { result ≡ csum_in width bytes.now }
{
    match read_csum(&mut Fields::new(bytes), width) {
        Some(csum) => csum,
        None => unreachable!(),
    }
}

// The unit so far behind another one.
fn unit_behind(unit: UnitNo, count: u32) -> UnitNo
    requires { unit + count < 2 ^ 32 }
    ensures { result ≡ unit + count }
{
    UnitNo::new(unit.number() + count)
}

// The place of the page with this number in an extent from this unit on.
fn place_on_units(width: Width, bytes: &[u8], unit: UnitNo, i: u32) -> Place
    requires few { i < 2 ^ 16 }
    requires number { unit + i < 2 ^ 32 }
    requires csum { 11 + bytes_of width i + bytes_of width 1 ≤ length bytes.now }
    ensures { result ≡ own (unit + i) (csum_in width (drop (11 + bytes_of width i) bytes.now)) }
{
    let csum = csum_in(
        width,
        behind(bytes, HEAD_BYTES + width.bytes_of(i as usize)),
    );
    let unit = unit_behind(unit, i);
    let at = At::Unit { unit, csum };
    Place { at }
}

// The same in one from this slot on.
fn place_on_slots(sbid: u64, first: u16, i: u32) -> Place
    requires { first + i < 2 ^ 16 }
    ensures { result ≡ slot sbid (first + i) }
{
    let index = first + i as u16;
    let at = At::Slot { sbid, index };
    Place { at }
}

// The same in the extent with this head, which is the one at the front.
fn place_by_head(width: Width, bytes: &[u8], head: &Head, i: u32) -> Place
    requires few { i < 2 ^ 16 }
    requires has { HasPlace width bytes.now head.now.start i }
    ensures { result ≡ place_from width bytes.now head.now.start i }
{
    match head.start {
        Start::Unit(unit) => place_on_units(width, bytes, unit, i),
        Start::Slot { sbid, index } => place_on_slots(sbid, index, i),
    }
}

/// Where a page stands, by the extent at the front, which ends behind the page. None: it is a hole.
pub fn place_at_front(width: Width, bytes: &[u8], page: u32) -> Option<Place>
    requires reaches { EndBehind page (extents_read width bytes.now) }
    requires number { HasNumber (extents_read width bytes.now) page }
    ensures { result ≡ place_found (extents_read width bytes.now) page }
{
    let Some(head) = head_in(width, bytes) else {
        return None;
    };
    if page < head.first {
        return None;
    }
    let i = page - head.first;
    Some(place_by_head(width, bytes, &head, i))
}
