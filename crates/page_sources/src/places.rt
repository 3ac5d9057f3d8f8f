//! Old bytes, by the units that hold them and the checksums that are kept.
ghost use Rattle.std.specs.Prelude.{◌≡◌, ◌≤◌, ◌∷◌, [], map, IfOk, IfErr, IsErrOf};
ghost use Rattle.block_device.specs.Prelude.{Rose};
ghost use Rattle.read_facts.specs.Prelude.{IsHeldAt, AreGoodUnits};
ghost use Rattle.plan_rows.specs.Prelude.{AreReadAt};
ghost use Rattle.write_buffers.specs.Prelude.{memory_in};
ghost use Rattle.page_sources.specs.Places.{CanReadPlaces, GivesPlaces, IsPlacesFail};

use crate::parts::{PartFail, read_units};
use block_device::Device;
use byte_maps::Items;
use bytes::Bytes as SharedBytes;
use plan_rows::{PageUnit, ReadUnit};
use std::alloc::{AllocError, Global};
use unit_fields::limits::UNIT_BYTES;
use write_buffers::WriteBuffers;

// The bytes of a buffer, to be shared.
fn shared(buffer: Vec<u8>) -> Result<SharedBytes, AllocError>
    ensures { IfOk result (λ bytes. bytes ≡ buffer.items) }
{
    Ok(SharedBytes::from_vec(buffer)?)
}

// Reads the old bytes of one place: those in memory are shared, and those of the device are compared.
fn read_place<D: Device>(
    alloc: Global,
    device: &mut D,
    buffers: &WriteBuffers,
    place: PageUnit,
) -> Result<ReadUnit, PartFail>
    requires can { CanReadPlaces (memory_in buffers.now) (D.disk device.old) (place ∷ []) }
    ensures ok { IfOk result (λ r. GivesPlaces (memory_in buffers.now) (D.disk device.old) (place ∷ []) (r ∷ [])) }
    ensures fail { IfErr result (IsPlacesFail (memory_in buffers.now) (D.disk device.old) (place ∷ [])) }
    ensures same { D.disk device.new ≡ D.disk device.old }
    ensures later { D.faults device.old ≤ D.faults device.new }
    ensures cause { IsErrOf result PartFail.Fault → Rose (D.faults device.old) (D.faults device.new) }
{
    let unit = place.unit;
    let at = unit.number();
    if let Some(bytes) = buffers.get(at) {
        let bytes = bytes.clone()?;
        return Ok(ReadUnit { unit, bytes });
    }
    let mut page = Vec::with_capacity(alloc, UNIT_BYTES)?;
    read_units(device, at, 1, &[place.csum; 64], &mut page)?;
    let bytes = shared(page)?;
    Ok(ReadUnit { unit, bytes })
}

/// Reads the old bytes of these places, in order. Those of a unit in memory are shared as they are, and compared with no checksum; another unit
/// is read from the device into a buffer of its own, and its checksum is compared. A bad page is the first one. `Kernel::submit` calls it.
pub fn read_places<D: Device>(
    alloc: Global,
    device: &mut D,
    buffers: &WriteBuffers,
    places: &[PageUnit],
) -> Result<Items<ReadUnit>, PartFail>
    requires can { CanReadPlaces (memory_in buffers.now) (D.disk device.old) places.now }
    ensures units { IfOk result (AreReadAt places.now) }
    ensures good { IfOk result (λ read. AreGoodUnits (memory_in buffers.now) (IsHeldAt (D.disk device.old)) places.now (map (λ r. r.bytes) read)) }
    ensures bad { IfErr result (IsPlacesFail (memory_in buffers.now) (D.disk device.old) places.now) }
    ensures same { D.disk device.new ≡ D.disk device.old }
    ensures later { D.faults device.old ≤ D.faults device.new }
    ensures cause { IsErrOf result PartFail.Fault → Rose (D.faults device.old) (D.faults device.new) }
{
    let mut read = Items::new(alloc);
    for place in places {
        read.push(read_place(alloc, device, buffers, *place)?)?;
    }
    Ok(read)
}
