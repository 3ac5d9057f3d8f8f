//! A map cut into shards as their values are written: one pass over its pages.
ghost use Rattle.std.specs.Prelude.{◌≡◌, ◌+◌, ◌<◌, ◌≤◌, Some, length, IfOk, MatchOption};
ghost use Rattle.extent_shards.specs.Cuts.{room_behind, LacksRoom, WritesRun, WritesFront, WritesShard};
ghost use Rattle.unit_fields.specs.Prelude.{bytes_of};
ghost use Rattle.extent_shards.specs.Values.{run_size, IsLonePage};

use crate::writing::{first_run, lone_page, pages_behind, push_run};
use blob_map::Place;
use onode_codec::{Head, LonePage, Start};
use std::alloc::AllocError;
use unit_fields::Width;

/// The bound on the bytes of the shards that a store writes.
pub const SHARD_BYTES: u32 = 1200;

/// The first shard of some pages.
#[derive(Clone, Copy)]
pub struct Front {
    /// The first of its pages, by which its row is named.
    pub first: u32,
    /// How many of the pages it has.
    pub count: usize,
}

// The bytes of an extent on units in front of its checksums.
const HEAD_BYTES: usize = 11;

// The bytes of an extent on slots of a shared blob.
const SHARED_BYTES: u64 = 17;

// The bytes of the extent with this head.
fn run_bytes(width: Width, head: &Head) -> u64
    requires { head.now.count ≤ 256 }
    ensures bytes { result ≡ run_size width head.now.start head.now.count }
    ensures most { result ≤ 1035 }
{
    match head.start {
        Start::Unit(_) => (HEAD_BYTES + width.bytes_of(usize::from(head.count))) as u64,
        Start::Slot { .. } => SHARED_BYTES,
    }
}

/// The bytes of an extent of one page on a unit, the most that a page takes.
pub fn lone_bytes(width: Width) -> usize
    ensures bytes { result ≡ 11 + bytes_of width 1 }
    ensures some { 0 < result }
{
    HEAD_BYTES + width.bytes_of(1)
}

// An extent that was written.
#[derive(Clone, Copy)]
struct Run {
    // How many pages it has.
    pages: usize,
    // How many bytes.
    bytes: u64,
}

// The bytes that there is room for in a shard behind those that it has. Its first extent has room, whatever it has.
fn room_behind(bound: u32, count: usize, bytes: u64) -> u64
    ensures { result ≡ room_behind bound count bytes }
{
    if count == 0 {
        u64::MAX
    } else {
        u64::from(bound).saturating_sub(bytes)
    }
}

// Writes the first of the pages' extents, which is this lone page, unless there isn't room for its bytes.
#[inline(always)]
fn push_lone(
    out: &mut Vec<u8>,
    width: Width,
    pages: &[(u32, Place)],
    lone: &LonePage,
    room: u64,
) -> Result<Option<Run>, AllocError>
    requires { IsLonePage pages.now lone.now }
    ensures { IfOk result (λ run. MatchOption run (LacksRoom width pages.now room out.old.items out.new.items)
        (λ it. WritesRun width pages.now room it.pages it.bytes out.old.items out.new.items)) }
{
    let bytes = lone_bytes(width) as u64;
    if bytes > room {
        return Ok(None);
    }
    lone.push(out, width)?;
    Ok(Some(Run { pages: 1, bytes }))
}

// The same of any extent.
fn push_longer(
    out: &mut Vec<u8>,
    width: Width,
    pages: &[(u32, Place)],
    room: u64,
) -> Result<Option<Run>, AllocError>
    requires { 0 < length pages.now }
    ensures { IfOk result (λ run. MatchOption run (LacksRoom width pages.now room out.old.items out.new.items)
        (λ it. WritesRun width pages.now room it.pages it.bytes out.old.items out.new.items)) }
{
    let head = first_run(pages);
    let bytes = run_bytes(width, &head);
    if bytes > room {
        return Ok(None);
    }
    push_run(out, width, pages, &head)?;
    let pages = usize::from(head.count);
    Ok(Some(Run { pages, bytes }))
}

// Writes the first of the pages' extents, unless there isn't room for its bytes. One with one page has a way of its own, on which nothing is
// asked of its head.
#[inline(always)]
fn push_next(
    out: &mut Vec<u8>,
    width: Width,
    pages: &[(u32, Place)],
    room: u64,
) -> Result<Option<Run>, AllocError>
    requires { 0 < length pages.now }
    ensures { IfOk result (λ run. MatchOption run (LacksRoom width pages.now room out.old.items out.new.items)
        (λ it. WritesRun width pages.now room it.pages it.bytes out.old.items out.new.items)) }
{
    match lone_page(pages) {
        Some(lone) => push_lone(out, width, pages, &lone, room),
        None => push_longer(out, width, pages, room),
    }
}

// Writes the first shard of the pages, extent by extent, and says how many of them it has. The loop keeps to few registers by itself.
#[inline(never)]
fn push_front(
    out: &mut Vec<u8>,
    width: Width,
    pages: &[(u32, Place)],
    bound: u32,
) -> Result<usize, AllocError>
    requires { 0 < length pages.now }
    ensures { IfOk result (λ count. WritesFront width (Some bound) pages.now count out.old.items out.new.items) }
{
    let mut count = 0;
    let mut bytes = 0;
    'extents: while count < pages.len() {
        let left = pages_behind(pages, count);
        match push_next(out, width, left, room_behind(bound, count, bytes))? {
            Some(run) => {
                count += run.pages;
                bytes += run.bytes;
            }
            None => return Ok(count),
        }
    }
    Ok(count)
}

/// Writes the value of the first shard of the pages behind other bytes, with checksums of this width. An extent joins the shard where its
/// bytes stay at most the bound, and one that has more bytes has a shard of its own. No page is copied, and each is looked at once.
pub fn push_shard(
    out: &mut Vec<u8>,
    width: Width,
    pages: &[(u32, Place)],
    bound: u32,
) -> Result<Front, AllocError>
    requires { 0 < length pages.now }
    ensures { IfOk result (λ front. WritesShard width (Some bound) pages.now front out.old.items out.new.items) }
{
    let count = push_front(out, width, pages, bound)?;
    Ok(Front {
        first: pages[0].0,
        count,
    })
}
