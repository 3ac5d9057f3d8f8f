//! Zeros over the units that hold something else, in few and large writes.
ghost use Rattle.std.specs.Prelude.{◌≡◌, ◌≤◌, ◌<◌, ◌+◌, ◌*◌, ℕ, [], length, All, IfOk, IsErrOf};
ghost use Rattle.byte_maps.specs.Units.{zeros};
ghost use Rattle.block_device.specs.Prelude.{IsSound, Rose};
ghost use Rattle.log_replay.specs.Calls.{Told, GoesOnToBadEnd, IsLater};
ghost use Rattle.log_replay.specs.Zeroing.{IsRunAtFront, WasZeroed, WroteRuns, ZeroesOnly};

use crate::calls::write_through;
use block_device::{Device, Failed};
use std::alloc::{AllocError, Global};
use unit_fields::limits::PIECE_UNITS;

// The most units of one write.
const WRITE_UNITS: usize = PIECE_UNITS as usize;

/// How many of the first units follow one another without a gap, at most 64.
fn first_run(units: &[u32]) -> usize
    ensures { IsRunAtFront units.now result }
{
    for (k, unit) in units.iter().enumerate() {
        if k == WRITE_UNITS || u64::from(*unit) != u64::from(units[0]) + k as u64 {
            return k;
        }
    }
    units.len()
}

/// So many units of zeros.
#[tactic(auto, unfolding(byte_maps::specs::Units::zeros))]
pub fn zero_bytes(alloc: Global, count: usize) -> Result<Vec<u8>, AllocError>
    requires { count ≤ 64 }
    ensures { IfOk result (λ bytes. bytes.items ≡ zeros (4096 * count)) }
{
    vec![in alloc; 0u8; 4096 * count]
}

/// Writes zeros over these units, which ascend, in maximal runs of at most 64, and says in how many.
pub fn zero_units<D: Device>(alloc: Global, dev: &mut D, units: &[u32]) -> Result<usize, Failed>
    requires sound { IsSound (D.disk dev.old) }
    requires idle { (D.disk dev.old).flights ≡ [] }
    requires inside { All (λ unit. unit < (D.disk dev.old).units) units.now }
    requires few { length units.now ≤ 1048576 }
    ensures later { IsLater (D.disk dev.old) (D.disk dev.new) }
    ensures zeroed { IfOk result (λ runs. Told (WasZeroed units.now) (D.disk dev.old).history (D.disk dev.new).history) }
    ensures runs { IfOk result (λ runs. Told (WroteRuns units.now runs) (D.disk dev.old).history (D.disk dev.new).history) }
    ensures few { IfOk result (λ runs. runs ≤ length units.now) }
    ensures only { (first end : ℕ) → All (λ unit. (first ≤ unit) × (unit < end)) units.now →
        Told (ZeroesOnly first end) (D.disk dev.old).history (D.disk dev.new).history }
    ensures stops { IsErrOf result Failed.Fault → Told GoesOnToBadEnd (D.disk dev.old).history (D.disk dev.new).history }
    ensures faults { D.faults dev.old ≤ D.faults dev.new }
    ensures cause { IsErrOf result Failed.Fault → Rose (D.faults dev.old) (D.faults dev.new) }
{
    let mut rest = units;
    let mut runs = 0;
    'runs: while !rest.is_empty() {
        let count = first_run(rest);
        let Ok(bytes) = zero_bytes(alloc, count) else {
            return Err(Failed::Memory);
        };
        write_through(dev, rest[0], bytes)?;
        rest = &rest[count..];
        runs += 1;
    }
    Ok(runs)
}
