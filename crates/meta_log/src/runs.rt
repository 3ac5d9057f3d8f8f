//! Units of a half in a row, and the pieces of a checkpoint as such runs.
ghost use Rattle.std.specs.Prelude.{◌≡◌, ◌+◌, ◌^◌, ◌<◌, ◌++◌, All, IfOk, OnOk};
ghost use Rattle.meta_log.specs.Pieces.{piece_count};
ghost use Rattle.meta_log.specs.CheckRuns.{record_runs, cut_run, zero_runs, check_runs};

use std::alloc::{AllocError, Global};
use unit_fields::limits::PIECE_UNITS;

/// So many units of a half of the log, one behind the other, from one on. They are counted from the half's first unit.
#[derive(Clone, Copy, Debug, PartialEq, Eq)]
pub struct UnitRun {
    pub first: u32,
    pub count: u32,
}

// The pieces of a record of so many units, the last of them first.
fn push_record(runs: &mut Vec<UnitRun>, units: u32) -> Result<(), AllocError>
    ensures { OnOk result (runs.new.items ≡ runs.old.items ++ record_runs units (piece_count units)) }
{
    let mut left = (units / PIECE_UNITS) + u32::from(units % PIECE_UNITS != 0);
    while left > 0 {
        left -= 1;
        let first = left * PIECE_UNITS;
        runs.push(UnitRun {
            first,
            count: PIECE_UNITS.min(units - first),
        })?;
    }
    Ok(())
}

// So many units from one on, in runs of at most 64.
fn push_cut(runs: &mut Vec<UnitRun>, first: u32, count: u32) -> Result<(), AllocError>
    requires { first + count < 2 ^ 32 }
    ensures { OnOk result (runs.new.items ≡ runs.old.items ++ cut_run count first count) }
{
    let mut next = first;
    let mut left = count;
    while left > 0 {
        let count = PIECE_UNITS.min(left);
        runs.push(UnitRun { first: next, count })?;
        next += count;
        left -= count;
    }
    Ok(())
}

// What is stale from this unit on, in runs of at most 64.
fn push_zeros(runs: &mut Vec<UnitRun>, units: u32, stale: &[UnitRun]) -> Result<(), AllocError>
    requires { All (λ r. r.first + r.count < 2 ^ 32) stale.now }
    ensures { OnOk result (runs.new.items ≡ runs.old.items ++ zero_runs units stale.now) }
{
    for run in stale {
        let first = units.max(run.first);
        let count = (run.first + run.count).saturating_sub(first);
        push_cut(runs, first, count)?;
    }
    Ok(())
}

/// The pieces of a checkpoint whose record takes so many units, for these runs of stale units: those of the record, the last of them first, so
/// that its head comes to the device behind its body, then zeros over what is stale behind it.
pub fn check_runs(alloc: Global, units: u32, stale: &[UnitRun]) -> Result<Vec<UnitRun>, AllocError>
    requires { All (λ r. r.first + r.count < 2 ^ 32) stale.now }
    ensures { IfOk result (λ runs. runs.items ≡ check_runs units stale.now) }
{
    let mut runs = Vec::new(alloc);
    push_record(&mut runs, units)?;
    push_zeros(&mut runs, units, stale)?;
    Ok(runs)
}
