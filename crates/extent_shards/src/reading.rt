//! Pages put into a map as they are read from the value of a shard's row.
ghost use Rattle.std.specs.Prelude.{◌≡◌, ◌+◌, ◌≤◌, ◌^◌, List, length, OnOk};
ghost use Rattle.std.specs.List.{flat_map};
ghost use Rattle.unit_fields.specs.Prelude.{bytes_of};
ghost use Rattle.row_format.specs.Prelude.{Extent, shared};
ghost use Rattle.onode_codec.specs.Reading.{lone_extent, SpellExtents};
ghost use Rattle.blob_map.specs.Prelude.{extent_pages, with_pages};
ghost use Rattle.extent_shards.specs.Values.{SpellPages, BeginsWithPages, PutsFirst, PutsExtent};

use blob_map::{At, PageMap, Place};
use onode_codec::{Head, LonePage, Start, read_csum};
use std::alloc::AllocError;
use unit_fields::{Fields, UnitNo, Width};

// Reads so many checksums, and puts a page for each of them on its unit.
fn put_units(
    pages: &mut PageMap,
    width: Width,
    first: u32,
    unit: UnitNo,
    count: u16,
    fields: &mut Fields,
) -> Result<(), AllocError>
    requires pages { first + count ≤ 2 ^ 32 }
    requires units { unit + count ≤ 2 ^ 32 }
    requires csums { bytes_of width count ≤ length fields.old }
    ensures { OnOk result (PutsFirst width first unit count fields.old fields.new pages.old pages.new) }
{
    let number = unit.number();
    for i in 0..u32::from(count) {
        let Some(csum) = read_csum(fields, width) else {
            unreachable!();
        };
        let unit = UnitNo::new(number + i);
        let at = At::Unit { unit, csum };
        pages.set(first + i, Place { at })?;
    }
    Ok(())
}

// Puts so many pages on slots of a blob.
fn put_slots(
    pages: &mut PageMap,
    first: u32,
    sbid: u64,
    index: u16,
    count: u16,
) -> Result<(), AllocError>
    requires pages { first + count ≤ 2 ^ 32 }
    requires slots { index + count ≤ 2 ^ 16 }
    ensures { OnOk result (pages.new ≡ with_pages pages.old (extent_pages (record { first = first; body = shared sbid index count }))) }
{
    for i in 0..count {
        let at = At::Slot {
            sbid,
            index: index + i,
        };
        pages.set(first + u32::from(i), Place { at })?;
    }
    Ok(())
}

// Puts the page of an extent of one page on its unit.
fn put_lone(pages: &mut PageMap, lone: &LonePage) -> Result<(), AllocError>
    ensures { OnOk result (pages.new ≡ with_pages pages.old (extent_pages (lone_extent lone.now))) }
{
    let at = At::Unit {
        unit: lone.unit,
        csum: lone.csum,
    };
    pages.set(lone.first, Place { at })
}

// Puts the pages of the extent at the front, whatever it is.
fn put_run(pages: &mut PageMap, width: Width, fields: &mut Fields) -> Result<(), AllocError>
    requires { BeginsWithPages width fields.old }
    ensures { OnOk result (PutsExtent width fields.old fields.new pages.old pages.new) }
{
    let Some(head) = Head::read(fields) else {
        unreachable!();
    };
    let Head {
        first,
        count,
        start,
    } = head;
    match start {
        Start::Unit(unit) => put_units(pages, width, first, unit, count, fields),
        Start::Slot { sbid, index } => put_slots(pages, first, sbid, index, count),
    }
}

// Puts the pages of the extent at the front. Most extents have one page where units are scattered, and such a one is read in one piece.
#[inline(always)]
fn put_extent(pages: &mut PageMap, width: Width, fields: &mut Fields) -> Result<(), AllocError>
    requires { BeginsWithPages width fields.old }
    ensures { OnOk result (PutsExtent width fields.old fields.new pages.old pages.new) }
{
    match LonePage::read(width, fields) {
        Some(lone) => put_lone(pages, &lone),
        None => put_run(pages, width, fields),
    }
}

/// Puts the pages of the extents that these bytes spell, with checksums of this width, in their places, one extent behind the other. Where
/// memory runs out, some of them are put.
#[inline(never)]
pub fn put_value(pages: &mut PageMap, width: Width, bytes: &[u8]) -> Result<(), AllocError>
    requires { SpellPages width bytes.now }
    ensures { OnOk result ((es : List Extent) → SpellExtents width bytes.now es → pages.new ≡ with_pages pages.old (flat_map extent_pages es)) }
{
    let mut fields = Fields::new(bytes);
    'extents: while !fields.is_empty() {
        put_extent(pages, width, &mut fields)?;
    }
    Ok(())
}
