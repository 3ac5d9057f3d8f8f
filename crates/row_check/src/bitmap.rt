//! Whether the bitmap says which units have owners.
ghost use Rattle.std.specs.Prelude.{◌≡◌, ◌⊎◌, ◌<◌, ◌^◌, ℕ, true, false, not, filter, length, slice_index, IsTrue, IfOk, IfErr, IfNone, IfSome};
ghost use Rattle.std.specs.List.{AllByRecursion};
ghost use Rattle.std.specs.FinSet as set;
ghost use Rattle.meta_log.specs.Prelude.{width_of, IsSuper};
ghost use Rattle.store_image.specs.Prelude.{NoBadRow, IsExactAs, IsLeastInexact, IsOwned, IsMarked, IsLeaked, HasSoleOwner};
ghost use Rattle.ordered_lists.specs.Lists.{IsIn, Ascend, ListsAll};
ghost use Rattle.findings.specs.Findings.{SlotBefore};
ghost use Rattle.bitmap_freelist.specs.Bitmap.{Has, AreMarked};
ghost use Rattle.row_check.specs.Least.{IsLeastOf, IsOnlyIn, IsUnitOfSlots, IsWrong, lesser_of};
ghost use Rattle.row_check.specs.Tallies.{AreWrongCounts};

use crate::counts::{SlotCount, wrong_counts};
use crate::owners::{OwnedUnits, owned_units};
use meta_log::Super;
use meta_rows::RowTable;
use std::alloc::{AllocError, Global};
use unit_fields::{UnitNo, UnitSet};

// Where the first unit stands that is none of the others.
fn place_outside(units: &[u32], others: &UnitSet) -> Option<usize>
    ensures none { IfNone result (AllByRecursion (λ u. set.contains others.now u ≡ true) units.now) }
    ensures found { IfSome result (λ i. (i < length units.now) × (set.contains others.now (slice_index units.now i) ≡ false)) }
    ensures before { IfSome result (λ i. (k : ℕ) → k < i → set.contains others.now (slice_index units.now k) ≡ true) }
{
    units.iter().position(|unit| !others.contains(*unit))
}

// Whether two sets are the same.
fn are_same(units: &UnitSet, others: &UnitSet) -> bool
    ensures { IsTrue result → units.now ≡ others.now }
{
    units.as_slice() == others.as_slice()
}

// The least of the units that is none of the others. None is looked up where both sets are the same, as where nothing leaked.
fn least_outside(units: &UnitSet, others: &UnitSet) -> Option<u32>
    ensures { IsLeastOf (IsOnlyIn units.now others.now) result }
{
    if are_same(units, others) {
        return None;
    }
    let units = units.as_slice();
    match place_outside(units, others) {
        Some(place) => Some(units[place]),
        None => None,
    }
}

// The least of the units.
fn least(units: &UnitSet) -> Option<u32>
    ensures { IsLeastOf (Has units.now) result }
{
    match units.as_slice() {
        [first, ..] => Some(*first),
        [] => None,
    }
}

// The lesser of two units, where there are two.
fn lesser(one: Option<u32>, other: Option<u32>) -> Option<u32>
    ensures { result ≡ lesser_of one other }
{
    match (one, other) {
        (Some(one), Some(other)) => Some(one.min(other)),
        (Some(one), None) => Some(one),
        (None, other) => other,
    }
}

// The unit of the first of these slots.
fn first_unit(counts: &[SlotCount]) -> Option<u32>
    requires { Ascend SlotBefore counts.now }
    ensures { IsLeastOf (IsUnitOfSlots counts.now) result }
{
    match counts {
        [first, ..] => Some(first.unit),
        [] => None,
    }
}

// The least unit that has an owner and isn't marked, or two owners, or that is that of one of these slots.
fn least_wrong(owners: &OwnedUnits, marked: &UnitSet, counts: &[SlotCount]) -> Option<u32>
    requires { Ascend SlotBefore counts.now }
    ensures { IsLeastOf (IsWrong owners.now.owned owners.now.shared marked.now counts.now) result }
{
    lesser(
        least_outside(&owners.owned, marked),
        lesser(least(&owners.shared), first_unit(counts)),
    )
}

/// Units by what is wrong with them: what `fsck` tells of a store without bad rows. Each list ascends.
#[derive(Drop)]
pub struct WrongUnits {
    /// Marked, and nobody owns them.
    pub leaked: Vec<u32>,
    /// Owned, and not marked.
    pub unmarked: Vec<u32>,
    /// With two owners or more.
    pub doubled: Vec<u32>,
    /// The slots of shared blobs with wrong counts, by unit and then by blob.
    pub counts: Vec<SlotCount>,
}

// Those of the units that are none of the others.
fn those_outside(alloc: Global, units: &[u32], others: &UnitSet) -> Result<Vec<u32>, AllocError>
    ensures { IfOk result (λ v. v.items ≡ filter (λ unit. not (set.contains others.now unit)) units.now) }
{
    units
        .iter()
        .copied()
        .filter(|unit| !others.contains(*unit))
        .collect(alloc)
}

// A copy of the units.
fn copy_of(alloc: Global, units: &[u32]) -> Result<Vec<u32>, AllocError>
    ensures { IfOk result (λ v. v.items ≡ units.now) }
{
    units.iter().copied().collect(alloc)
}

// The units that are none of the others. None is looked up where both sets are the same.
fn units_outside(alloc: Global, units: &UnitSet, others: &UnitSet) -> Result<Vec<u32>, AllocError>
    ensures { IfOk result (λ outside. ListsAll (λ a b. a < b) (IsOnlyIn units.now others.now) outside.items) }
{
    if are_same(units, others) {
        return Ok(Vec::new(alloc));
    }
    those_outside(alloc, units.as_slice(), others)
}

// All of the units.
fn units_in(alloc: Global, units: &UnitSet) -> Result<Vec<u32>, AllocError>
    ensures { IfOk result (λ all. ListsAll (λ a b. a < b) (Has units.now) all.items) }
{
    copy_of(alloc, units.as_slice())
}

/// The units that are marked and that nobody owns, those that have an owner and aren't marked, those that have two owners or more, and the slots
/// with wrong counts: what `fsck` tells. Each other unit that is marked has an owner, and each other slot's count is right.
pub fn wrong_units(alloc: Global, sup: &Super, rows: &RowTable) -> Result<WrongUnits, AllocError>
    requires limits { IsSuper sup.now }
    requires good { NoBadRow sup.now rows.now.rows }
    ensures leaked { IfOk result (λ wrong. ListsAll (λ a b. a < b) (IsLeaked (width_of sup.now) rows.now.rows) wrong.leaked.items) }
    ensures unmarked { IfOk result (λ wrong. ListsAll (λ a b. a < b)
        (λ unit. IsOwned (width_of sup.now) rows.now.rows unit × ¬ IsMarked rows.now.rows unit) wrong.unmarked.items) }
    ensures doubled { IfOk result (λ wrong. ListsAll (λ a b. a < b) (λ unit. ¬ HasSoleOwner (width_of sup.now) rows.now.rows unit) wrong.doubled.items) }
    ensures others { IfOk result (λ wrong. (unit : ℕ) → unit < 2 ^ 32 → IsMarked rows.now.rows unit →
        IsIn unit wrong.leaked.items ⊎ IsOwned (width_of sup.now) rows.now.rows unit) }
    ensures counts { IfOk result (λ wrong. AreWrongCounts (width_of sup.now) rows.now.rows wrong.counts.items) }
{
    let owners = owned_units(alloc, sup, rows)?;
    let marked = bitmap_freelist::read(alloc, rows)?;
    let leaked = units_outside(alloc, &marked, &owners.owned)?;
    let unmarked = units_outside(alloc, &owners.owned, &marked)?;
    let doubled = units_in(alloc, &owners.shared)?;
    let counts = wrong_counts(alloc, sup, rows)?;
    Ok(WrongUnits {
        leaked,
        unmarked,
        doubled,
        counts,
    })
}

/// The units that the bitmap marks: what a mount asks for before it opens a store, so that the allocator gives none of them to anybody. Else the
/// least unit that has an owner and isn't marked, or two owners, or that is that of a slot with a wrong count. Marked units that nobody owns are
/// leaked, and let pass. (Ceph: `fsck`'s "stray" and "extra" units are these and the leaked ones.)
///
/// The rows are read once and those of the bitmap once more, and where there are shared blobs all once more; two marks are kept for each unit of
/// the device meanwhile, and each unit that has an owner is looked up among the marked ones, unless these are the same.
pub fn marked_units(
    alloc: Global,
    sup: &Super,
    rows: &RowTable,
) -> Result<Result<UnitSet, UnitNo>, AllocError>
    requires limits { IsSuper sup.now }
    requires good { NoBadRow sup.now rows.now.rows }
    ensures exact { IfOk result (λ found. IfOk found (λ units. IsExactAs (width_of sup.now) rows.now.rows rows.now.rows)) }
    ensures marked { IfOk result (λ found. IfOk found (AreMarked rows.now.rows)) }
    ensures inexact { IfOk result (λ found. IfErr found (IsLeastInexact (width_of sup.now) rows.now.rows)) }
{
    let owners = owned_units(alloc, sup, rows)?;
    let marked = bitmap_freelist::read(alloc, rows)?;
    let counts = wrong_counts(alloc, sup, rows)?;
    match least_wrong(&owners, &marked, &counts) {
        Some(unit) => Ok(Err(UnitNo::new(unit))),
        None => Ok(Ok(marked)),
    }
}
