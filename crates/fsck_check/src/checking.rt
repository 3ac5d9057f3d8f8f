//! A store is looked through.
ghost use Rattle.std.specs.Prelude.{◌≡◌, ◌++◌, ◌≤◌, [], IfOk, IfErr, OnOk, map};
ghost use Rattle.meta_log.specs.Prelude.{IsSuper};
ghost use Rattle.store_image.specs.Prelude.{NoBadRow};
ghost use Rattle.read_facts.specs.Prelude.{IsHeldAt};
ghost use Rattle.findings.specs.Findings.{FindsNoBadRow, wrong_count};
ghost use Rattle.findings.specs.declared.finding.Finding.TheVariants as kinds;
ghost use Rattle.log_replay.specs.Opening.{IsUnfound};
ghost use Rattle.fsck_check.specs.Checking.{FoundAll, FailsFsck, IsFsckCause, found_units, fsck_fail_of_mount};

use crate::FsckFail;
use crate::sums::bad_sums;
use block_device::Device;
use byte_maps::{Bytes, Items};
use findings::Finding;
use log_replay::{FoundStore, MountFail, find_store};
use row_check::{SlotCount, WrongUnits, bad_rows, find_bad_row, wrong_units};
use std::alloc::{AllocError, Global};

// Why no store was found.
fn unfound(fail: MountFail) -> FsckFail
    requires { IsUnfound fail }
    ensures { result ≡ fsck_fail_of_mount fail }
{
    match fail {
        MountFail::Memory => FsckFail::Memory,
        MountFail::NoSuper => FsckFail::NoSuper,
        MountFail::Fault => FsckFail::Fault,
        MountFail::BadRow { .. } | MountFail::NotExact { .. } | MountFail::WornOut { .. } => {
            unreachable!()
        }
    }
}

// The findings of bad rows.
fn rows_found(alloc: Global, keys: Items<Bytes>) -> Result<Vec<Finding>, AllocError>
    ensures { IfOk result (λ found. found.items ≡ map kinds.BadRow keys) }
{
    keys.into_vec()
        .into_iter()
        .map(|key| Finding::BadRow { key })
        .collect(alloc)
}

// A finding for each unit that is leaked, behind the others.
fn push_leaked(units: &[u32], found: &mut Vec<Finding>) -> Result<(), AllocError>
    ensures { OnOk result (found.new.items ≡ found.old.items ++ map kinds.Leaked units.now) }
{
    for unit in units {
        found.push(Finding::Leaked { unit: *unit })?;
    }
    Ok(())
}

// The same for units that are owned and not marked.
fn push_unmarked(units: &[u32], found: &mut Vec<Finding>) -> Result<(), AllocError>
    ensures { OnOk result (found.new.items ≡ found.old.items ++ map kinds.Unmarked units.now) }
{
    for unit in units {
        found.push(Finding::Unmarked { unit: *unit })?;
    }
    Ok(())
}

// The same for units with two owners.
fn push_doubled(units: &[u32], found: &mut Vec<Finding>) -> Result<(), AllocError>
    ensures { OnOk result (found.new.items ≡ found.old.items ++ map kinds.Doubled units.now) }
{
    for unit in units {
        found.push(Finding::Doubled { unit: *unit })?;
    }
    Ok(())
}

// The same for slots with wrong counts.
fn push_counts(counts: &[SlotCount], found: &mut Vec<Finding>) -> Result<(), AllocError>
    ensures { OnOk result (found.new.items ≡ found.old.items ++ map wrong_count counts.now) }
{
    for count in counts {
        found.push(Finding::WrongCount {
            unit: count.unit,
            kept: count.kept,
            counted: count.counted,
        })?;
    }
    Ok(())
}

// The findings of units, behind the others.
fn push_units(units: &WrongUnits, found: &mut Vec<Finding>) -> Result<(), AllocError>
    ensures { OnOk result (found.new.items ≡ found.old.items
        ++ found_units units.now.leaked.items units.now.unmarked.items units.now.doubled.items units.now.counts.items) }
{
    push_leaked(&units.leaked, found)?;
    push_unmarked(&units.unmarked, found)?;
    push_doubled(&units.doubled, found)?;
    push_counts(&units.counts, found)
}

// What is wrong with a store without bad rows.
fn pages_and_units<D: Device>(
    alloc: Global,
    dev: &mut D,
    store: &FoundStore,
) -> Result<Vec<Finding>, FsckFail>
    requires idle { (D.disk dev.old).flights ≡ [] }
    requires limits { IsSuper store.now.sup }
    requires units { store.now.sup.units ≡ (D.disk dev.old).units }
    requires good { NoBadRow store.now.sup store.now.log.rows.rows }
    ensures same { D.disk dev.new ≡ D.disk dev.old }
    ensures found { IfOk result (λ found. FindsNoBadRow store.now.sup (IsHeldAt (D.disk dev.old)) store.now.log.rows.rows found.items) }
    ensures fails { IfErr result (IsFsckCause (D.faults dev.old) (D.faults dev.new)) }
    ensures later { D.faults dev.old ≤ D.faults dev.new }
{
    let sums = bad_sums(alloc, dev, &store.sup, &store.log.rows)?;
    let units = wrong_units(alloc, &store.sup, &store.log.rows)?;
    let mut found = sums.into_vec();
    push_units(&units, &mut found)?;
    Ok(found)
}

/// Everything that is wrong with the store on the device: its bad rows; or where there is none, the pages whose bytes have another checksum than
/// the one that is kept, the leaked units, those that aren't marked, those with two owners, and the slots of shared blobs with wrong counts. It
/// reads both slots, the active half of the log and each unit on which a page stands, and submits nothing. Nothing is in flight when it is
/// called. The rows are walked through up to the first bad one, and once more where there is one.
pub fn fsck<D: Device>(alloc: Global, dev: &mut D) -> Result<Vec<Finding>, FsckFail>
    requires idle { (D.disk dev.old).flights ≡ [] }
    ensures same { D.disk dev.new ≡ D.disk dev.old }
    ensures found { IfOk result (λ found. FoundAll (D.disk dev.old) found.items) }
    ensures fails { IfErr result (λ fail. FailsFsck fail (D.disk dev.old) (D.faults dev.old) (D.faults dev.new)) }
    ensures later { D.faults dev.old ≤ D.faults dev.new }
{
    let store = match find_store(alloc, dev) {
        Ok(store) => store,
        Err(fail) => return Err(unfound(fail)),
    };
    let Some(first) = find_bad_row(alloc, &store.sup, &store.log.rows)? else {
        return pages_and_units(alloc, dev, &store);
    };
    drop(first);
    let bad = bad_rows(alloc, &store.sup, &store.log.rows)?;
    Ok(rows_found(alloc, bad)?)
}
