//! Making an empty store.
ghost use Rattle.std.specs.Prelude.{◌≡◌, ◌≤◌, ◌<◌, ◌+◌, ◌*◌, [], IfOk, IfErr, OnOk, IsErrOf, IsOk};
ghost use Rattle.block_device.specs.Prelude.{IsSound, IsQuiet, Rose};
ghost use Rattle.log_replay.specs.Calls.{Told, GoesOnWell, GoesOnToBadEnd, StopsAtFault, IsLater};
ghost use Rattle.log_replay.specs.Cleared.{WasCleared, WasMade};
ghost use Rattle.log_replay.specs.NewSuper.{units_needed};
ghost use Rattle.log_replay.specs.Made.{HoldsEmptyStore, FailsFor, LeavesDevice};

use crate::calls::{flush_through, write_through};
use crate::stale::stale_units;
use crate::zeroing::zero_units;
use block_device::{Device, Failed};
use meta_log::Super;
use std::alloc::Global;
use thiserror::Error;

/// Why no store was made.
#[derive(Debug, Drop, Error)]
pub enum MkfsFail {
    /// Memory ran out. The device may hold some of the zeros.
    #[error("out of memory")]
    Memory,
    /// The device has fewer units than a store with such halves needs. It is as it was.
    #[error("the device has {units} units, and the store needs {need}")]
    TooSmall { units: u32, need: u32 },
    /// A call of the device failed, and it has counted that. Nothing was submitted after it.
    #[error("the device failed")]
    Fault,
}

/// The fewest units of a device for a store with halves of so many: the slots, the halves, and a data unit.
pub fn units_needed(half: u32) -> u32
    requires { half ≤ 65536 }
    ensures { result ≡ units_needed half }
{
    2 * half + 3
}

/// Zeros in both slots and in half 0, stable.
fn clear<D: Device>(alloc: Global, dev: &mut D, half: u32) -> Result<(), Failed>
    requires sound { IsSound (D.disk dev.old) }
    requires idle { (D.disk dev.old).flights ≡ [] }
    requires half { half ≤ 65536 }
    requires inside { half + 2 ≤ (D.disk dev.old).units }
    ensures later { IsLater (D.disk dev.old) (D.disk dev.new) }
    ensures cleared { OnOk result (Told (WasCleared (half + 2)) (D.disk dev.old).history (D.disk dev.new).history) }
    ensures well { OnOk result (Told GoesOnWell (D.disk dev.old).history (D.disk dev.new).history) }
    ensures stops { IsErrOf result Failed.Fault → Told StopsAtFault (D.disk dev.old).history (D.disk dev.new).history }
    ensures faults { D.faults dev.old ≤ D.faults dev.new }
    ensures cause { IsErrOf result Failed.Fault → Rose (D.faults dev.old) (D.faults dev.new) }
{
    let stale = stale_units(alloc, dev, half + 2)?;
    zero_units(alloc, dev, &stale)?;
    flush_through(dev)?;
    Ok(())
}

/// The slot of a new store, stable.
fn write_slot<D: Device>(alloc: Global, dev: &mut D, half: u32, prefer: u32) -> Result<(), Failed>
    requires idle { (D.disk dev.old).flights ≡ [] }
    requires least { 8 ≤ half }
    requires most { half ≤ 65536 }
    requires prefer { prefer ≤ 1048576 }
    requires room { units_needed half ≤ (D.disk dev.old).units }
    ensures later { IsLater (D.disk dev.old) (D.disk dev.new) }
    ensures made { OnOk result (Told (WasMade (D.disk dev.old).units half prefer) (D.disk dev.old).history (D.disk dev.new).history) }
    ensures stops { IsErrOf result Failed.Fault → Told GoesOnToBadEnd (D.disk dev.old).history (D.disk dev.new).history }
    ensures faults { D.faults dev.old ≤ D.faults dev.new }
    ensures cause { IsErrOf result Failed.Fault → Rose (D.faults dev.old) (D.faults dev.new) }
{
    let sup = Super {
        units: dev.units(),
        half,
        prefer,
        epoch: 0,
        first: 0,
    };
    let Ok(bytes) = sup.write(alloc) else {
        return Err(Failed::Memory);
    };
    write_through(dev, 0, bytes)?;
    flush_through(dev)?;
    Ok(())
}

fn make<D: Device>(alloc: Global, dev: &mut D, half: u32, prefer: u32) -> Result<(), Failed>
    requires sound { IsSound (D.disk dev.old) }
    requires idle { (D.disk dev.old).flights ≡ [] }
    requires least { 8 ≤ half }
    requires most { half ≤ 65536 }
    requires prefer { prefer ≤ 1048576 }
    requires room { units_needed half ≤ (D.disk dev.old).units }
    ensures later { IsLater (D.disk dev.old) (D.disk dev.new) }
    ensures made { OnOk result (IsQuiet (D.disk dev.old) → HoldsEmptyStore half prefer (D.disk dev.new)) }
    ensures stops { IsErrOf result Failed.Fault → Told StopsAtFault (D.disk dev.old).history (D.disk dev.new).history }
    ensures faults { D.faults dev.old ≤ D.faults dev.new }
    ensures cause { IsErrOf result Failed.Fault → Rose (D.faults dev.old) (D.faults dev.new) }
{
    clear(alloc, dev, half)?;
    write_slot(alloc, dev, half, prefer)?;
    Ok(())
}

/// Makes an empty store on the device, whatever it held: zeros over both superblock slots and over the units of half 0 that
/// aren't zero, a flush, slot 0, a flush. `half` is the units of each half of the log, `prefer` the bytes from which on a write
/// over mapped pages isn't deferred. The device comes back whatever happens.
pub fn mkfs<D: Device>(alloc: Global, dev: D, half: u32, prefer: u32) -> Result<D, (MkfsFail, D)>
    requires idle { (D.disk dev).flights ≡ [] }
    requires least { 8 ≤ half }
    requires most { half ≤ 65536 }
    requires prefer { prefer ≤ 1048576 }
    ensures made { IfOk result (λ d. IsQuiet (D.disk dev) → HoldsEmptyStore half prefer (D.disk d)) }
    ensures room { IsOk result → units_needed half ≤ (D.disk dev).units }
    ensures same { IfOk result (λ d. IsLater (D.disk dev) (D.disk d) × (D.faults dev ≤ D.faults d)) }
    ensures fails { IfErr result (λ e. FailsFor e.0 (D.disk dev).units half (D.faults dev) (D.faults e.1)) }
    ensures leaves { IfErr result (λ e. LeavesDevice e.0 (D.disk dev) (D.faults dev) (D.disk e.1) (D.faults e.1)) }
    ensures back { IfErr result (λ e. IsLater (D.disk dev) (D.disk e.1) × (D.faults dev ≤ D.faults e.1)) }
{
    let mut dev = dev;
    let units = dev.units();
    let need = units_needed(half);
    if units < need {
        return Err((MkfsFail::TooSmall { units, need }, dev));
    }
    match make(alloc, &mut dev, half, prefer) {
        Ok(()) => Ok(dev),
        Err(Failed::Memory) => Err((MkfsFail::Memory, dev)),
        Err(Failed::Fault) => Err((MkfsFail::Fault, dev)),
    }
}
