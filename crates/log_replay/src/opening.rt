//! The superblock of a device, and why a mount opens no store.
ghost use Rattle.std.specs.Prelude.{◌≡◌, ◌≤◌, ◌<◌, [], IfOk, IfSome, IsErrOf, MatchOption};
ghost use Rattle.block_device.specs.Prelude.{IsSound, Rose};
ghost use Rattle.meta_log.specs.declared.slot.Super.{Super};
ghost use Rattle.meta_log.specs.Prelude.{IsSuper, IsSlotOf, IsValidSlot, IsActiveSlot};
ghost use Rattle.log_replay.specs.Opening.{IsAbout, HasNoSuper, IsUnfound, newer_of};

use block_device::{Device, Failed};
use byte_maps::Bytes;
use meta_log::Super;
use std::alloc::Global;
use thiserror::Error;

/// Why no store was opened.
#[derive(Debug, Drop, Error)]
pub enum MountFail {
    /// Memory ran out.
    #[error("out of memory")]
    Memory,
    /// The device has fewer than 19 units, or neither superblock slot is valid.
    #[error("the device holds no store")]
    NoSuper,
    /// The row under this key is bad, and each row of a lesser key is good.
    #[error("a row of the store is bad")]
    BadRow { key: Bytes },
    /// The least unit that has an owner and whose bit is 0, that has two owners, or that is that of a slot with a wrong count. No row is bad.
    #[error("the bitmap doesn't say who owns unit {unit}")]
    NotExact { unit: u32 },
    /// The epoch, or else the number of the next record, or else the greatest number of a shared blob is 2^61 or more, so that numbers
    /// would run out.
    #[error("the store has reached the number {value}")]
    WornOut { value: u64 },
    /// A call of the device failed, and it has counted that.
    #[error("the device failed")]
    Fault,
}

/// The fewest units of a device that holds a store.
const LEAST_UNITS: u32 = 19;

/// What the bytes of a slot say, where the slot is valid on a device of so many units.
fn valid_slot(bytes: &[u8], slot: u32, units: u32) -> Option<Super>
    ensures { MatchOption result ((s : Super) → IsSlotOf slot bytes.now s → ¬ (s.units ≡ units))
        (λ s. IsSlotOf slot bytes.now s × (s.units ≡ units)) }
{
    let found = Super::read(bytes, slot)?;
    if found.units == units {
        Some(found)
    } else {
        None
    }
}

/// The super in a slot, where the slot is valid.
fn read_slot<D: Device>(alloc: Global, dev: &mut D, slot: u32) -> Result<Option<Super>, Failed>
    requires idle { (D.disk dev.old).flights ≡ [] }
    requires slot { slot < 2 }
    requires inside { 2 ≤ (D.disk dev.old).units }
    ensures same { D.disk dev.new ≡ D.disk dev.old }
    ensures slot { IfOk result (λ found. IsAbout (D.disk dev.old)
        (λ contents. MatchOption found ((s : Super) → ¬ IsValidSlot contents slot s) (IsValidSlot contents slot))) }
    ensures found { IfOk result (λ found. IfSome found (λ s. IsSuper s × (s.units ≡ (D.disk dev.old).units))) }
    ensures faults { D.faults dev.old ≤ D.faults dev.new }
    ensures cause { IsErrOf result Failed.Fault → Rose (D.faults dev.old) (D.faults dev.new) }
{
    let units = dev.units();
    let mut bytes = Vec::new(alloc);
    dev.read(slot, 1, &mut bytes)?;
    Ok(valid_slot(&bytes, slot, units))
}

/// Of two supers the one of greater epoch.
fn newer(first: Option<Super>, second: Option<Super>) -> Option<Super>
    ensures { result ≡ newer_of first second }
{
    match (first, second) {
        (Some(a), Some(b)) if a.epoch < b.epoch => Some(b),
        (Some(a), _) => Some(a),
        (None, second) => second,
    }
}

/// The super of the device: of its valid slots the one of greatest epoch.
pub fn find_super<D: Device>(alloc: Global, dev: &mut D) -> Result<Option<Super>, Failed>
    requires idle { (D.disk dev.old).flights ≡ [] }
    ensures same { D.disk dev.new ≡ D.disk dev.old }
    ensures sound { IsSound (D.disk dev.old) }
    ensures active { IfOk result (λ found. IsAbout (D.disk dev.old) (λ contents. MatchOption found (HasNoSuper contents) (IsActiveSlot contents))) }
    ensures found { IfOk result (λ found. IfSome found (λ s. IsSuper s × (s.units ≡ (D.disk dev.old).units))) }
    ensures faults { D.faults dev.old ≤ D.faults dev.new }
    ensures cause { IsErrOf result Failed.Fault → Rose (D.faults dev.old) (D.faults dev.new) }
{
    if dev.units() < LEAST_UNITS {
        return Ok(None);
    }
    let first = read_slot(alloc, dev, 0)?;
    let second = read_slot(alloc, dev, 1)?;
    Ok(newer(first, second))
}

/// The same cause, of a mount.
pub fn failed(failed: Failed) -> MountFail
    ensures memory { failed ≡ Failed.Memory → result ≡ MountFail.Memory }
    ensures fault { failed ≡ Failed.Fault → result ≡ MountFail.Fault }
    ensures unfound { IsUnfound result }
{
    match failed {
        Failed::Memory => MountFail::Memory,
        Failed::Fault => MountFail::Fault,
    }
}
