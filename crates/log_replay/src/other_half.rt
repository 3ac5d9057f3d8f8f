//! Which units of the half of the log that isn't in use aren't zero.
//!
//! A mount reads that half as it reads the one in use, in pieces of 64 units, and keeps runs of units and no bytes: a checkpoint writes a record
//! into that half, and zeros over those of these units that lie behind it.
ghost use Rattle.std.specs.Prelude.{◌≡◌, ◌≤◌, ◌<◌, ◌+◌, [], OnOk, IfOk, IsErrOf};
ghost use Rattle.byte_maps.specs.Units.{IsUnits};
ghost use Rattle.block_device.specs.Prelude.{Rose};
ghost use Rattle.meta_log.specs.Prelude.{IsSuper, other_unit, AreRunsFrom};
ghost use Rattle.log_replay.specs.OtherHalf.{AreRunsOn, AreGathered, EndsLast, AddsUnit, AddsPiece, GathersBelow};
ghost use Rattle.log_replay.specs.Opening.{IsAbout};

use crate::stale::is_zero_unit;
use block_device::{Device, Failed};
use meta_log::{Super, UnitRun};
use std::alloc::{AllocError, Global};
use unit_fields::limits::PIECE_UNITS;

/// Runs of units, gathered unit by unit.
#[derive(Drop)]
pub struct GatheredRuns {
    /// Those that have ended.
    pub ended: Vec<UnitRun>,
    /// The last one, which may go on. It has no unit until there is one.
    pub last: UnitRun,
}

impl GatheredRuns {
    fn new(alloc: Global) -> GatheredRuns
        ensures { AreGathered 0 result }
    {
        GatheredRuns {
            ended: Vec::new(alloc),
            last: UnitRun { first: 0, count: 0 },
        }
    }

    // The last run goes to those that have ended, if it has a unit.
    fn end_last(&mut self) -> Result<(), AllocError>
        requires { AreRunsFrom 0 self.old.last.first self.old.ended.items }
        ensures { OnOk result (EndsLast self.old self.new) }
    {
        if self.last.count > 0 {
            self.ended.push(self.last)?;
        }
        Ok(())
    }

    // Adds unit k, before which all runs end.
    fn add(&mut self, k: u32) -> Result<(), AllocError>
        requires gathered { AreGathered k self.old }
        requires fits { k < 1048576 }
        ensures { OnOk result (AddsUnit k self.old self.new) }
    {
        if self.last.first + self.last.count == k {
            self.last.count += 1;
            return Ok(());
        }
        self.end_last()?;
        self.last = UnitRun { first: k, count: 1 };
        Ok(())
    }

    // Adds the units that aren't zero, of so many from unit `at` on, which have these bytes.
    fn add_piece(&mut self, at: u32, count: u32, bytes: &[u8]) -> Result<(), AllocError>
        requires gathered { AreGathered at self.old }
        requires size { IsUnits count bytes.now }
        requires fits { at + count ≤ 1048576 }
        ensures { OnOk result (AddsPiece at count bytes.now self.old self.new) }
    {
        'units: for k in 0..count {
            if !is_zero_unit(bytes, k as usize) {
                self.add(at + k)?;
            }
        }
        Ok(())
    }
}

// Gathers the runs of the units that aren't zero, of so many from one on. They are read in pieces.
fn gather<D: Device>(
    alloc: Global,
    dev: &mut D,
    runs: &mut GatheredRuns,
    first: u32,
    count: u32,
) -> Result<(), Failed>
    requires idle { (D.disk dev.old).flights ≡ [] }
    requires inside { first + count ≤ (D.disk dev.old).units }
    requires fits { first + count ≤ 1048576 }
    requires none { AreGathered 0 runs.old }
    ensures same { D.disk dev.new ≡ D.disk dev.old }
    ensures gathered { OnOk result (AreGathered count runs.new) }
    ensures about { OnOk result (IsAbout (D.disk dev.old) (GathersBelow first count runs.new)) }
    ensures faults { D.faults dev.old ≤ D.faults dev.new }
    ensures cause { IsErrOf result Failed.Fault → Rose (D.faults dev.old) (D.faults dev.new) }
{
    let mut bytes = Vec::new(alloc);
    let mut at = 0;
    'pieces: while at < count {
        let units = (count - at).min(PIECE_UNITS);
        dev.read(first + at, units, &mut bytes)?;
        let Ok(()) = runs.add_piece(at, units, &bytes) else {
            return Err(Failed::Memory);
        };
        at += units;
    }
    Ok(())
}

/// The runs of the units that aren't zero, of so many from one on. They are read in pieces.
pub fn stale_runs<D: Device>(
    alloc: Global,
    dev: &mut D,
    first: u32,
    count: u32,
) -> Result<Vec<UnitRun>, Failed>
    requires idle { (D.disk dev.old).flights ≡ [] }
    requires inside { first + count ≤ (D.disk dev.old).units }
    requires fits { first + count ≤ 1048576 }
    ensures same { D.disk dev.new ≡ D.disk dev.old }
    ensures runs { IfOk result (λ runs. AreRunsOn (D.disk dev.old) first count runs.items) }
    ensures faults { D.faults dev.old ≤ D.faults dev.new }
    ensures cause { IsErrOf result Failed.Fault → Rose (D.faults dev.old) (D.faults dev.new) }
{
    let mut runs = GatheredRuns::new(alloc);
    gather(alloc, dev, &mut runs, first, count)?;
    let Ok(()) = runs.end_last() else {
        return Err(Failed::Memory);
    };
    Ok(runs.ended)
}

/// The runs of the units that aren't zero, of the half of the log that isn't in use. They are counted from its first unit on.
pub fn other_runs<D: Device>(
    alloc: Global,
    dev: &mut D,
    sup: &Super,
) -> Result<Vec<UnitRun>, Failed>
    requires idle { (D.disk dev.old).flights ≡ [] }
    requires limits { IsSuper sup.now }
    requires units { sup.now.units ≡ (D.disk dev.old).units }
    ensures same { D.disk dev.new ≡ D.disk dev.old }
    ensures runs { IfOk result (λ runs. AreRunsOn (D.disk dev.old) (other_unit sup.now) sup.now.half runs.items) }
    ensures faults { D.faults dev.old ≤ D.faults dev.new }
    ensures cause { IsErrOf result Failed.Fault → Rose (D.faults dev.old) (D.faults dev.new) }
{
    stale_runs(alloc, dev, sup.other_unit(), sup.half)
}
