//! Extents made from pages.
ghost use Rattle.std.specs.Prelude.{◌≡◌, ◌<◌, ◌^◌, ◌++◌, ◌∷◌, [], ℕ, true, List, IfOk, IfSome, OnOk};
ghost use Rattle.std.specs.List.{AllByRecursion};
ghost use Rattle.unit_fields.specs.declared.width.Width.{Width};
ghost use Rattle.row_format.specs.Prelude.{private, shared, Place, page_count, FitsCsum, FitsBody, FitsExtent};
ghost use Rattle.onode_codec.specs.Bodies.{body_of};
ghost use Rattle.blob_map.specs.Pages.{csum_of, FitsPlace};
ghost use Rattle.blob_map.specs.Normal.{alone, single, is_next, follows, longer, more, extents_from, extents_of, extents_finished};

use crate::place::{At, Place};
use byte_maps::Items;
use onode_codec::{Body, Extent};
use std::alloc::{AllocError, Global};
use unit_fields::limits::EXTENT_PAGES;
use unit_fields::{UnitNo, Width};

// The numbers of a unit and of a checksum fit their fields, and so do those of a slot. These do nothing, for proofs alone.
fn unit_fits(unit: UnitNo, csum: u32)
    ensures unit { unit < 2 ^ 32 }
    ensures csum { (width : Width) → FitsCsum width csum }
{
    let _number = unit.number();
}

fn slot_fits(sbid: u64, index: u16)
    ensures sbid { sbid < 2 ^ 64 }
    ensures index { index < 2 ^ 16 }
{
    let _number = sbid;
}

// The body of one page on a unit of the object's own.
fn alone_on_unit(alloc: Global, width: Width, unit: UnitNo, csum: u32) -> Result<Body, AllocError>
    ensures same { IfOk result (λ b. body_of b ≡ private unit (csum ∷ [])) }
    ensures fits { IfOk result (λ b. FitsBody width (body_of b)) }
{
    unit_fits(unit, csum);
    let mut csums = Items::new(alloc);
    csums.push(csum)?;
    Ok(Body::Private { unit, csums })
}

// The body of one page on a slot.
fn alone_on_slot(width: Width, sbid: u64, index: u16) -> Body
    ensures same { body_of result ≡ shared sbid index 1 }
    ensures fits { FitsBody width (body_of result) }
{
    slot_fits(sbid, index);
    Body::Shared {
        sbid,
        first: index,
        count: 1,
    }
}

// The body of one page.
fn alone(alloc: Global, width: Width, place: &Place) -> Result<Body, AllocError>
    ensures same { IfOk result (λ b. body_of b ≡ alone place.now) }
    ensures fits { IfOk result (λ b. FitsBody width (body_of b)) }
{
    match place.at {
        At::Unit { unit, csum } => alone_on_unit(alloc, width, unit, csum),
        At::Slot { sbid, index } => Ok(alone_on_slot(width, sbid, index)),
    }
}

// The extent of one page.
fn single(alloc: Global, width: Width, page: u32, place: &Place) -> Result<Extent, AllocError>
    ensures same { IfOk result (λ e. e ≡ single (page, place.now)) }
    ensures fits { IfOk result (FitsExtent width) }
{
    let body = alone(alloc, width, place)?;
    Ok(Extent { first: page, body })
}

// Whether the place is the next behind those of a body.
fn is_next(body: &Body, place: &Place) -> bool
    requires { page_count (body_of body.now) < 256 }
    ensures { result ≡ is_next (body_of body.now) place.now }
{
    match (body, place.at) {
        (Body::Private { unit, csums }, At::Unit { unit: at, .. }) => {
            u64::from(at.number()) == u64::from(unit.number()) + csums.len() as u64
        }
        (Body::Shared { sbid, first, count }, At::Slot { sbid: blob, index }) => {
            blob == *sbid && u32::from(index) == u32::from(*first) + u32::from(*count)
        }
        _ => false,
    }
}

// Whether the page may be an extent's next.
fn follows(extent: &Extent, page: u32, place: &Place) -> bool
    ensures { result ≡ follows extent.now (page, place.now) }
{
    let count = extent.body.page_count();
    count < u64::from(EXTENT_PAGES)
        && u64::from(page) == u64::from(extent.first) + count
        && is_next(&extent.body, place)
}

// The checksum that is kept of a place of the object's own.
fn csum_of(place: &Place) -> u32
    ensures { result ≡ csum_of place.now }
{
    match place.at {
        At::Unit { csum, .. } => csum,
        At::Slot { .. } => 0,
    }
}

// A body with one page more.
fn longer(body: Body, place: &Place) -> Result<Body, AllocError>
    requires { page_count (body_of body) < 256 }
    ensures { IfOk result (λ b. body_of b ≡ longer (body_of body) place.now) }
{
    match body {
        Body::Private { unit, mut csums } => {
            csums.push(csum_of(place))?;
            Ok(Body::Private { unit, csums })
        }
        Body::Shared { sbid, first, count } => Ok(Body::Shared {
            sbid,
            first,
            count: count + 1,
        }),
    }
}

// The numbers of a place fit their fields. It does nothing, for proofs alone.
fn place_fits(width: Width, place: &Place)
    ensures { FitsPlace width place.now }
{
    match place.at {
        At::Unit { unit, csum } => unit_fits(unit, csum),
        At::Slot { sbid, index } => slot_fits(sbid, index),
    }
}

// The extent with one page more.
fn more(width: Width, extent: Extent, page: u32, place: &Place) -> Result<Extent, AllocError>
    requires follows { follows extent (page, place.now) ≡ true }
    requires fits { FitsExtent width extent }
    ensures same { IfOk result (λ e. e ≡ more extent (page, place.now)) }
    ensures fits { IfOk result (FitsExtent width) }
{
    place_fits(width, place);
    let Extent { first, body } = extent;
    let body = longer(body, place)?;
    Ok(Extent { first, body })
}

// The extent that has this page as its last, where the one before is done if the page doesn't follow it.
fn next(
    alloc: Global,
    width: Width,
    done: &mut Vec<Extent>,
    last: Option<Extent>,
    page: u32,
    place: &Place,
) -> Result<Extent, AllocError>
    requires fit { AllByRecursion (FitsExtent width) done.old.items }
    requires last_fits { IfSome last (FitsExtent width) }
    ensures same { IfOk result (λ e. (ps : List (ℕ × Place)) →
        done.new.items ++ extents_from e ps ≡ done.old.items ++ extents_finished last ((page, place.now) ∷ ps)) }
    ensures fits { IfOk result (FitsExtent width) }
    ensures fit { OnOk result (AllByRecursion (FitsExtent width) done.new.items) }
{
    match last {
        None => single(alloc, width, page, place),
        Some(extent) => {
            if follows(&extent, page, place) {
                more(width, extent, page, place)
            } else {
                done.push(extent)?;
                single(alloc, width, page, place)
            }
        }
    }
}

/// The extents of pages: runs as long as they get of consecutive pages on consecutive units, cut at 256 pages. They can be written with
/// checksums of this width.
pub fn extents_of(
    alloc: Global,
    width: Width,
    pages: &[(u32, Place)],
) -> Result<Vec<Extent>, AllocError>
    ensures extents { IfOk result (λ es. es.items ≡ extents_of pages.now) }
    ensures fit { IfOk result (λ es. AllByRecursion (FitsExtent width) es.items) }
{
    let mut done = Vec::new(alloc);
    let mut last = None;
    for entry in pages {
        last = Some(next(alloc, width, &mut done, last, entry.0, &entry.1)?);
    }
    if let Some(extent) = last {
        done.push(extent)?;
    }
    Ok(done)
}
