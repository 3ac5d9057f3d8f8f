//! What is behind the records of the log is cleared, before a kernel writes there.
//!
//! It may hold a part of a record that a crash cut off, or a whole record of a number that isn't next. The unit behind the records is
//! cleared first, and is stable before any other is: otherwise a record behind it could come to follow the records while zeros
//! are torn.
ghost use Rattle.std.specs.Prelude.{◌≡◌, ◌≤◌, ◌<◌, ◌+◌, ◌-◌, ℕ, List, [], length, All, OnOk, IfOk, IsErrOf};
ghost use Rattle.block_device.specs.Prelude.{IsSound, Rose};
ghost use Rattle.log_replay.specs.Calls.{Told, IsLater};
ghost use Rattle.log_replay.specs.Zeroing.{ZeroesOnly};
ghost use Rattle.log_replay.specs.Stale.{AreNotZero};
ghost use Rattle.log_replay.specs.Clearing.{AreParts, IsFirstStale, IsUnitCleared, IsFirstCleared, AreOthersCleared, IsCleared, ClearsSoFar};

use crate::calls::{flush_through, write_through};
use crate::zeroing::{zero_bytes, zero_units};
use block_device::{Device, Failed};
use std::alloc::Global;

/// Zeros over one unit, stable.
fn clear_unit<D: Device>(alloc: Global, dev: &mut D, unit: u32) -> Result<(), Failed>
    requires sound { IsSound (D.disk dev.old) }
    requires idle { (D.disk dev.old).flights ≡ [] }
    requires inside { unit < (D.disk dev.old).units }
    ensures later { IsLater (D.disk dev.old) (D.disk dev.new) }
    ensures cleared { OnOk result (Told (IsUnitCleared unit) (D.disk dev.old).history (D.disk dev.new).history) }
    ensures only { (bytes : List ℕ) → Told (ClearsSoFar unit (unit + 1) bytes) (D.disk dev.old).history (D.disk dev.new).history }
    ensures faults { D.faults dev.old ≤ D.faults dev.new }
    ensures cause { IsErrOf result Failed.Fault → Rose (D.faults dev.old) (D.faults dev.new) }
{
    let Ok(bytes) = zero_bytes(alloc, 1) else {
        return Err(Failed::Memory);
    };
    write_through(dev, unit, bytes)?;
    flush_through(dev)?;
    Ok(())
}

/// Whether the units begin with this one, and the others.
fn split(units: &[u32], unit: u32) -> (bool, &[u32])
    ensures { AreParts units.now unit result.0 result.1.now }
{
    match units {
        [first, others @ ..] if *first == unit => (true, others),
        _ => (false, units),
    }
}

/// Zeros over the first unit, stable, where it isn't zero. Says how many events that took.
fn clear_first<D: Device>(
    alloc: Global,
    dev: &mut D,
    unit: u32,
    is_stale: bool,
) -> Result<u64, Failed>
    requires sound { IsSound (D.disk dev.old) }
    requires idle { (D.disk dev.old).flights ≡ [] }
    requires inside { unit < (D.disk dev.old).units }
    ensures later { IsLater (D.disk dev.old) (D.disk dev.new) }
    ensures cleared { IfOk result (λ events. (bytes : List ℕ) → IsFirstStale is_stale bytes →
        Told (IsFirstCleared unit bytes events) (D.disk dev.old).history (D.disk dev.new).history) }
    ensures few { IfOk result (λ events. events ≤ 4) }
    ensures only { (bytes : List ℕ) → Told (ClearsSoFar unit (unit + 1) bytes) (D.disk dev.old).history (D.disk dev.new).history }
    ensures faults { D.faults dev.old ≤ D.faults dev.new }
    ensures cause { IsErrOf result Failed.Fault → Rose (D.faults dev.old) (D.faults dev.new) }
{
    if !is_stale {
        return Ok(0);
    }
    clear_unit(alloc, dev, unit)?;
    Ok(4)
}

/// Zeros over these units, which ascend, in maximal runs of at most 64, and a flush where there is one. Says how many events that took.
fn clear_others<D: Device>(alloc: Global, dev: &mut D, units: &[u32]) -> Result<u64, Failed>
    requires sound { IsSound (D.disk dev.old) }
    requires idle { (D.disk dev.old).flights ≡ [] }
    requires inside { All (λ unit. unit < (D.disk dev.old).units) units.now }
    requires few { length units.now ≤ 1048576 }
    ensures later { IsLater (D.disk dev.old) (D.disk dev.new) }
    ensures cleared { IfOk result (λ events. Told (AreOthersCleared units.now events) (D.disk dev.old).history (D.disk dev.new).history) }
    ensures few { IfOk result (λ events. events ≤ 4194304) }
    ensures only { (first end : ℕ) → All (λ unit. (first ≤ unit) × (unit < end)) units.now →
        Told (ZeroesOnly first end) (D.disk dev.old).history (D.disk dev.new).history }
    ensures faults { D.faults dev.old ≤ D.faults dev.new }
    ensures cause { IsErrOf result Failed.Fault → Rose (D.faults dev.old) (D.faults dev.new) }
{
    if units.is_empty() {
        return Ok(0);
    }
    let runs = zero_units(alloc, dev, units)?;
    flush_through(dev)?;
    Ok(2 * runs as u64 + 2)
}

/// Clears the units from `first` to before `end`, of which these aren't zero: the first one, then the others. Says how many events that took.
pub fn clear_behind<D: Device>(
    alloc: Global,
    dev: &mut D,
    first: u32,
    end: u32,
    stale: &[u32],
) -> Result<u64, Failed>
    requires idle { (D.disk dev.old).flights ≡ [] }
    requires order { first ≤ end }
    requires inside { end ≤ (D.disk dev.old).units }
    requires between { All (λ unit. (first ≤ unit) × (unit < end)) stale.now }
    requires many { length stale.now ≤ 1048576 }
    ensures later { IsLater (D.disk dev.old) (D.disk dev.new) }
    ensures cleared { IfOk result (λ events. (bytes : List ℕ) → AreNotZero first (end - first) bytes stale.now →
        Told (IsCleared first end bytes events) (D.disk dev.old).history (D.disk dev.new).history) }
    ensures few { IfOk result (λ events. events ≤ 4194308) }
    ensures only { (bytes : List ℕ) → AreNotZero first (end - first) bytes stale.now →
        Told (ClearsSoFar first end bytes) (D.disk dev.old).history (D.disk dev.new).history }
    ensures faults { D.faults dev.old ≤ D.faults dev.new }
    ensures cause { IsErrOf result Failed.Fault → Rose (D.faults dev.old) (D.faults dev.new) }
{
    let _ = dev.units();
    if first == end {
        return Ok(0);
    }
    let (is_stale, others) = split(stale, first);
    let first_events = clear_first(alloc, dev, first, is_stale)?;
    let other_events = clear_others(alloc, dev, others)?;
    Ok(first_events + other_events)
}
