//! Which units a new store has to clear: the slots, and those of half 0 that hold something.
ghost use Rattle.std.specs.Prelude.{◌≡◌, ◌≤◌, ◌<◌, ◌+◌, ◌*◌, ◌↔◌, ◌∷◌, [], length, All, OnOk, IfOk, IsErrOf, IsTrue};
ghost use Rattle.byte_maps.specs.Units.{unit_at, zeros, IsUnits};
ghost use Rattle.block_device.specs.Prelude.{Rose};
ghost use Rattle.log_replay.specs.Stale.{AreStale, AddsStale};
ghost use Rattle.log_replay.specs.HalfReading.{AddsUnits};

use block_device::{Device, Failed};
use byte_maps::is_zero;
use std::alloc::{AllocError, Global};
use unit_fields::limits::PIECE_UNITS;

/// Whether unit k of the bytes is zero.
pub fn is_zero_unit(bytes: &[u8], k: usize) -> bool
    requires { 4096 * k + 4096 ≤ length bytes.now }
    ensures { IsTrue result ↔ (unit_at k bytes.now ≡ zeros 4096) }
{
    is_zero(&bytes[4096 * k..4096 * k + 4096])
}

/// Adds the units that aren't zero, of so many from unit `at` on, which have these bytes.
pub fn add_stale(stale: &mut Vec<u32>, at: u32, count: u32, bytes: &[u8]) -> Result<(), AllocError>
    requires size { IsUnits count bytes.now }
    requires fits { at + count ≤ 1048576 }
    requires before { All (λ unit. unit < at) stale.old.items }
    ensures { OnOk result (AddsStale at count bytes.now stale.old.items stale.new.items) }
{
    for k in 0..count {
        if !is_zero_unit(bytes, k as usize) {
            stale.push(at + k)?;
        }
    }
    Ok(())
}

/// Adds the units from `first` to before `end` that aren't zero. They are read in pieces, into this buffer.
pub fn add_stale_between<D: Device>(
    dev: &mut D,
    stale: &mut Vec<u32>,
    first: u32,
    end: u32,
    buffer: Vec<u8>,
) -> Result<(), Failed>
    requires idle { (D.disk dev.old).flights ≡ [] }
    requires order { first ≤ end }
    requires inside { end ≤ (D.disk dev.old).units }
    requires before { All (λ unit. unit < first) stale.old.items }
    ensures same { D.disk dev.new ≡ D.disk dev.old }
    ensures stale { OnOk result (AddsUnits (D.disk dev.old) first end stale.old.items stale.new.items) }
    ensures faults { D.faults dev.old ≤ D.faults dev.new }
    ensures cause { IsErrOf result Failed.Fault → Rose (D.faults dev.old) (D.faults dev.new) }
{
    let mut bytes = buffer;
    let mut at = first;
    'pieces: while at < end {
        let count = (end - at).min(PIECE_UNITS);
        dev.read(at, count, &mut bytes)?;
        let Ok(()) = add_stale(stale, at, count, &bytes) else {
            return Err(Failed::Memory);
        };
        at += count;
    }
    Ok(())
}

fn slots(alloc: Global) -> Result<Vec<u32>, AllocError>
    ensures { IfOk result (λ units. units.items ≡ 0 ∷ 1 ∷ []) }
{
    Ok(vec![in alloc; 0u32, 1u32]?)
}

/// The units below one that a new store has to clear: both slots, and each other one that isn't zero.
pub fn stale_units<D: Device>(alloc: Global, dev: &mut D, below: u32) -> Result<Vec<u32>, Failed>
    requires idle { (D.disk dev.old).flights ≡ [] }
    requires slots { 2 ≤ below }
    requires inside { below ≤ (D.disk dev.old).units }
    ensures same { D.disk dev.new ≡ D.disk dev.old }
    ensures stale { IfOk result (λ units. AreStale below (D.disk dev.old) units.items) }
    ensures faults { D.faults dev.old ≤ D.faults dev.new }
    ensures cause { IsErrOf result Failed.Fault → Rose (D.faults dev.old) (D.faults dev.new) }
{
    let Ok(mut stale) = slots(alloc) else {
        return Err(Failed::Memory);
    };
    add_stale_between(dev, &mut stale, 2, below, Vec::new(alloc))?;
    Ok(stale)
}
