//! Whether a kernel can be opened on the store that was found: its rows, its bitmap, its numbers, and the units that are free.
ghost use Rattle.std.specs.Prelude.{◌≡◌, ◌<◌, ◌^◌, ℕ, Some, not, OnOk, IfOk, IfErr, MatchOption};
ghost use Rattle.std.specs.FinSet as set;
ghost use Rattle.meta_log.specs.Prelude.{IsSuper};
ghost use Rattle.row_format.specs.Prelude.{shared_key};
ghost use Rattle.store_image.specs.Prelude.{IsDataUnit, NoBadRow};
ghost use Rattle.bitmap_freelist.specs.Bitmap.{AreMarked};
ghost use Rattle.unit_allocator.specs.Prelude.{is_free, holds_of};
ghost use Rattle.plan_rows.specs.Prelude.{IsGood};
ghost use Rattle.run_facts.specs.Prelude.{IsSpaceOf};
ghost use Rattle.log_replay.specs.Opening.{HasBlob, IsLastBlob, IsNextBlob, HasLowNumbers, IsWornOut, IsMountRefused};
ghost use Rattle.log_replay.specs.FoundOn.{IsJudged, as_found};

use crate::opening::MountFail;
use crate::replaying::FoundStore;
use meta_log::Super;
use onode_codec::RowKind;
use row_check::{find_bad_row, marked_units};
use std::alloc::{AllocError, Global};
use unit_allocator::Allocator;
use unit_fields::{Fields, UnitNo, UnitSet};

/// A number that is as high as this leaves too few above it.
const HIGH: u64 = 1 << 61;

/// What the keys of shared blobs begin with.
const BLOB: u8 = RowKind::Shared as u8;

/// The units that the bitmap marks, where no row is bad, each owned unit is marked and has one owner, and the count of each slot is right.
fn units_of_rows(alloc: Global, found: &FoundStore) -> Result<UnitSet, MountFail>
    requires { IsSuper found.now.sup }
    ensures good { OnOk result (IsGood found.now.sup found.now.log.rows.rows) }
    ensures marked { IfOk result (AreMarked found.now.log.rows.rows) }
    ensures refused { IfErr result (λ fail. IsMountRefused fail (as_found found.now)) }
{
    match find_bad_row(alloc, &found.sup, &found.log.rows) {
        Ok(None) => {}
        Ok(Some(key)) => return Err(MountFail::BadRow { key }),
        Err(_) => return Err(MountFail::Memory),
    }
    match marked_units(alloc, &found.sup, &found.log.rows) {
        Ok(Ok(units)) => Ok(units),
        Ok(Err(unit)) => Err(MountFail::NotExact {
            unit: unit.number(),
        }),
        Err(_) => Err(MountFail::Memory),
    }
}

/// The number of the shared blob whose row has this key.
fn sbid_in(key: &[u8]) -> Option<u64>
    ensures { (sbid : ℕ) → sbid < 2 ^ 64 → key.now ≡ shared_key sbid → result ≡ Some sbid }
{
    let mut fields = Fields::new(key);
    fields.u8()?;
    fields.u64_be()
}

/// The greatest number of a shared blob. It takes one look-up, since numbers in keys are big-endian.
fn last_blob(found: &FoundStore) -> Option<u64>
    requires { NoBadRow found.now.sup found.now.log.rows.rows }
    ensures { MatchOption result ((sbid : ℕ) → ¬ HasBlob found.now.log.rows.rows sbid) (IsLastBlob found.now.log.rows.rows) }
{
    let (key, _) = found
        .log
        .rows
        .range(&[BLOB], Some(&[BLOB + 1]))
        .next_back()?;
    sbid_in(key.as_slice())
}

/// The number of the next shared blob, above those of all that there are.
pub fn next_blob(found: &FoundStore) -> u64
    requires good { NoBadRow found.now.sup found.now.log.rows.rows }
    requires low { HasLowNumbers (as_found found.now) }
    ensures { IsNextBlob found.now.log.rows.rows result }
{
    match last_blob(found) {
        Some(sbid) => sbid + 1,
        None => 1,
    }
}

/// The number for which the store takes no more work, if there is one.
fn worn_out(found: &FoundStore) -> Option<u64>
    requires { NoBadRow found.now.sup found.now.log.rows.rows }
    ensures { MatchOption result (HasLowNumbers (as_found found.now)) (IsWornOut (as_found found.now)) }
{
    if found.sup.epoch >= HIGH {
        return Some(found.sup.epoch);
    }
    if found.log.number >= HIGH {
        return Some(found.log.number);
    }
    match last_blob(found) {
        Some(sbid) if sbid >= HIGH => Some(sbid),
        _ => None,
    }
}

/// The data units, of which these are marked and all others free. None is held.
fn free_units(alloc: Global, sup: &Super, marked: &UnitSet) -> Result<Allocator, AllocError>
    requires { IsSuper sup.now }
    ensures units { IfOk result (IsSpaceOf sup.now) }
    ensures free { IfOk result (λ space. (unit : ℕ) → IsDataUnit sup.now unit → is_free space unit ≡ not (set.contains marked.now unit)) }
    ensures unheld { IfOk result (λ space. (unit : ℕ) → holds_of space unit ≡ 0) }
{
    let first = UnitNo::new(2 + 2 * sup.half);
    let end = UnitNo::new(sup.units);
    Allocator::new(alloc, first, end, marked)
}

/// The units of the store that are free, or why no kernel is opened on it: the rows are judged first, then the bitmap, then the numbers.
pub fn judge(alloc: Global, found: &FoundStore) -> Result<Allocator, MountFail>
    requires { IsSuper found.now.sup }
    ensures judged { IfOk result (IsJudged (as_found found.now)) }
    ensures refused { IfErr result (λ fail. IsMountRefused fail (as_found found.now)) }
{
    let marked = units_of_rows(alloc, found)?;
    if let Some(value) = worn_out(found) {
        return Err(MountFail::WornOut { value });
    }
    match free_units(alloc, &found.sup, &marked) {
        Ok(space) => Ok(space),
        Err(_) => Err(MountFail::Memory),
    }
}
