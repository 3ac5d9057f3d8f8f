//! The value of a shard's row, written from the pages of a map.
ghost use Rattle.std.specs.Prelude.{◌≡◌, [], ◌∷◌, ◌++◌, ◌<◌, ◌≤◌, List, ℕ, length, take, drop, OnOk, IfSome};
ghost use Rattle.std.specs.List.{flat_map};
ghost use Rattle.row_format.specs.Prelude.{private, shared, own, csum_bytes, extent_bytes};
ghost use Rattle.blob_map.specs.Prelude.{csum_of, alone, is_next, follows};
ghost use Rattle.extent_shards.specs.Values.{body_with, extent_with, csums_of, IsFirstRun, IsLonePage};

use blob_map::{At, Place};
use onode_codec::{Head, LonePage, Start, push_csum};
use std::alloc::AllocError;
use unit_fields::limits::EXTENT_PAGES;
use unit_fields::{UnitNo, Width};

// Where an extent of one page begins.
fn start_of(place: &Place) -> Start
    ensures { body_with result 1 (csum_of place.now ∷ []) ≡ alone place.now }
{
    match place.at {
        At::Unit { unit, .. } => Start::Unit(unit),
        At::Slot { sbid, index } => Start::Slot { sbid, index },
    }
}

// Whether the place is the next behind so many units of the object's own.
fn is_next_unit(first: UnitNo, count: u16, place: &Place) -> bool
    ensures { (csums : List ℕ) → length csums ≡ count → result ≡ is_next (private first csums) place.now }
{
    match place.at {
        At::Unit { unit, .. } => {
            u64::from(unit.number()) == u64::from(first.number()) + u64::from(count)
        }
        At::Slot { .. } => false,
    }
}

// Whether it is the next behind so many slots.
fn is_next_slot(sbid: u64, first: u16, count: u16, place: &Place) -> bool
    ensures { result ≡ is_next (shared sbid first count) place.now }
{
    match place.at {
        At::Unit { .. } => false,
        At::Slot { sbid: blob, index } => {
            blob == sbid && u32::from(index) == u32::from(first) + u32::from(count)
        }
    }
}

// Whether it is the next behind those of a head.
fn is_next(head: &Head, place: &Place) -> bool
    ensures { (csums : List ℕ) → length csums ≡ head.now.count → result ≡ is_next (body_with head.now.start head.now.count csums) place.now }
{
    match head.start {
        Start::Unit(first) => is_next_unit(first, head.count, place),
        Start::Slot { sbid, index } => is_next_slot(sbid, index, head.count, place),
    }
}

// Whether the page may be the next of the extent with this head.
#[tactic(auto, using(crate::proofs::Runs::follows_with))]
fn follows(head: &Head, page: u32, place: &Place) -> bool
    ensures { (csums : List ℕ) → length csums ≡ head.now.count → result ≡ follows (extent_with head.now csums) (page, place.now) }
{
    head.count < EXTENT_PAGES
        && u64::from(page) == u64::from(head.first) + u64::from(head.count)
        && is_next(head, place)
}

/// The pages behind so many.
pub fn pages_behind(pages: &[(u32, Place)], count: usize) -> &[(u32, Place)]
    requires { count ≤ length pages.now }
    ensures { result.now ≡ drop count pages.now }
{
    &pages[count..]
}

// The checksum that an extent keeps of a page: none where it stands on a slot.
fn csum_of(place: &Place) -> u32
    ensures { result ≡ csum_of place.now }
{
    match place.at {
        At::Unit { csum, .. } => csum,
        At::Slot { .. } => 0,
    }
}

// The unit of the object's own on which the page is, if it is on one.
fn unit_of(place: &Place) -> Option<UnitNo>
    ensures { IfSome result (λ unit. place.now ≡ own unit (csum_of place.now)) }
{
    match place.at {
        At::Unit { unit, .. } => Some(unit),
        At::Slot { .. } => None,
    }
}

/// The first of the pages' extents, where that has one page, on a unit of the object's own. Where units are scattered most have.
pub fn lone_page(pages: &[(u32, Place)]) -> Option<LonePage>
    requires { 0 < length pages.now }
    ensures { IfSome result (IsLonePage pages.now) }
{
    let place = &pages[0].1;
    let unit = unit_of(place)?;
    let head = Head {
        first: pages[0].0,
        count: 1,
        start: Start::Unit(unit),
    };
    if pages.len() > 1 && follows(&head, pages[1].0, &pages[1].1) {
        return None;
    }
    Some(LonePage {
        first: head.first,
        unit,
        csum: csum_of(place),
    })
}

/// The head of the first of the pages' extents.
pub fn first_run(pages: &[(u32, Place)]) -> Head
    requires { 0 < length pages.now }
    ensures { IsFirstRun pages.now result }
{
    let place = &pages[0].1;
    let mut head = Head {
        first: pages[0].0,
        count: 1,
        start: start_of(place),
    };
    for (page, place) in pages_behind(pages, 1) {
        if !follows(&head, *page, place) {
            return head;
        }
        head.count += 1;
    }
    head
}

fn push_csums(out: &mut Vec<u8>, width: Width, pages: &[(u32, Place)]) -> Result<(), AllocError>
    ensures { OnOk result (out.new.items ≡ out.old.items ++ flat_map (csum_bytes width) (csums_of pages.now)) }
{
    for (_page, place) in pages {
        push_csum(out, width, csum_of(place))?;
    }
    Ok(())
}

/// Writes the first of the pages' extents, which has this head, with checksums of this width.
pub fn push_run(
    out: &mut Vec<u8>,
    width: Width,
    pages: &[(u32, Place)],
    head: &Head,
) -> Result<(), AllocError>
    requires { IsFirstRun pages.now head.now }
    ensures { OnOk result (out.new.items ≡ out.old.items ++ extent_bytes width (extent_with head.now (csums_of (take head.now.count pages.now)))) }
{
    match head.start {
        Start::Unit(_) => {
            head.push(out)?;
            push_csums(out, width, &pages[..usize::from(head.count)])
        }
        Start::Slot { .. } => head.push(out),
    }
}
