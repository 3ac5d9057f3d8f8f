//! The units on which pages stand once the operations of a transaction are planned, with what they are to hold, and those that it gives back.
//!
//! Where a page went again that the transaction had put, the unit that was taken for it isn't written and stays free.
ghost use Rattle.std.specs.Prelude.{◌≡◌, ◌↔◌, ◌⊎◌, ◌<◌, ◌^◌, ℕ, Contains, length, IfOk, OnOk};
ghost use Rattle.bitmap_freelist.specs.Bitmap.{Has};
ghost use Rattle.std.specs.List.{AllByRecursion};
ghost use Rattle.unit_fields.specs.Prelude.{Ascends};
ghost use Rattle.crc32c_csum.specs.Prelude.{crc32c};
ghost use Rattle.plan_drafts.specs.Prelude.{filled};
ghost use Rattle.page_edits.specs.Writes.{held_in};
ghost use Rattle.txn_planner.specs.Standing.{GetsNumbers, IsPutBy, IsPutOf, IsPutIn};

use crate::touched::Touched;
use crate::turns::insert_all;
use byte_maps::{ByteMap, Items};
use bytes::Bytes as SharedBytes;
use number_map::NumberMap;
use plan_rows::FreshUnit;
use std::alloc::{AllocError, Global};
use unit_fields::{UnitNo, UnitSet};

// Puts the takings by which pages were put in the set.
fn insert_puts(takings: &mut UnitSet, puts: &NumberMap<u32>) -> Result<(), AllocError>
    ensures { OnOk result (GetsNumbers (IsPutBy puts.now) takings.old takings.new) }
{
    for entry in puts.entries() {
        takings.insert(entry.1)?;
    }
    Ok(())
}

// Puts those of an object's pages in the set.
fn insert_puts_of(takings: &mut UnitSet, touched: &Touched) -> Result<(), AllocError>
    ensures { OnOk result (GetsNumbers (IsPutOf touched.entry.now) takings.old takings.new) }
{
    match &touched.now {
        Some(draft) => insert_puts(takings, &draft.puts),
        None => Ok(()),
    }
}

/// The numbers of the takings on whose units pages of these objects stand.
pub fn standing(alloc: Global, objects: &ByteMap<Touched>) -> Result<UnitSet, AllocError>
    ensures { IfOk result (λ takings. (taking : ℕ) → Has takings taking ↔ IsPutIn objects.now taking) }
{
    let mut takings = UnitSet::new(alloc);
    for entry in objects.entries() {
        insert_puts_of(&mut takings, &entry.1)?;
    }
    Ok(takings)
}

// The checksum of bytes fits its field. It does nothing, for proofs alone.
fn checksum_fits(bytes: &[u8])
    ensures { crc32c bytes.now < 2 ^ 32 }
{
    let _len = bytes.len();
}

/// The units of these takings, each with what it is to hold. The bytes are shared, and not copied.
pub fn fresh_units(
    alloc: Global,
    takings: &[u32],
    units: &[UnitNo],
    contents: &[SharedBytes],
) -> Result<Items<FreshUnit>, AllocError>
    requires units { AllByRecursion (λ taking. taking < length units.now) takings.now }
    requires contents { AllByRecursion (λ taking. taking < length contents.now) takings.now }
    ensures filled { IfOk result (λ fresh. fresh ≡ filled units.now (held_in contents.now) takings.now) }
    ensures csums { IfOk result (λ fresh. AllByRecursion (λ f. crc32c f.bytes < 2 ^ 32) fresh) }
{
    let mut fresh = Items::new(alloc);
    for taking in takings {
        let unit = units[*taking as usize];
        let bytes = contents[*taking as usize].clone()?;
        checksum_fits(bytes.as_slice());
        fresh.push(FreshUnit { unit, bytes })?;
    }
    Ok(fresh)
}

/// The units that pages have left, and those of slots that no page names any more, in ascending order.
pub fn released_units(
    alloc: Global,
    left: &[UnitNo],
    freed: &[UnitNo],
) -> Result<Items<UnitNo>, AllocError>
    ensures ascend { IfOk result (λ units. Ascends units) }
    ensures left { IfOk result (λ units. (unit : ℕ) → Contains units unit ↔ (Contains left.now unit ⊎ Contains freed.now unit)) }
{
    let mut set = UnitSet::new(alloc);
    insert_all(&mut set, left)?;
    insert_all(&mut set, freed)?;
    let mut units = Items::new(alloc);
    for number in set.as_slice() {
        units.push(UnitNo::new(*number))?;
    }
    Ok(units)
}
