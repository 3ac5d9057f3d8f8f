//! What a superblock slot says, and its one spelling.
ghost use Rattle.std.specs.Prelude.{◌≡◌, ◌≢◌, ◌↔◌, ◌<◌, ◌^◌, ◌++◌, ℕ, List, length, IsTrue, IfOk, OnOk, MatchOption};
ghost use Rattle.byte_maps.specs.Units.{zeros};
ghost use Rattle.meta_log.specs.declared.slot.Super.{Super};
ghost use Rattle.meta_log.specs.Slots.{version_bytes, super_field_bytes, super_front, super_bytes, width_of, active_unit, IsSummed, IsSuper, IsSlotOf};
ghost use Rattle.meta_log.specs.Slots.{other_slot, other_unit, next_super};

use byte_maps::is_zero;
use crc32c_csum::crc32c;
use std::alloc::{AllocError, Global};
use unit_fields::limits::{LEAST_HALF, MOST_HALF, MOST_PREFER, MOST_UNITS, UNIT_BYTES};
use unit_fields::{Fields, Width, push_u32_le, push_u64_le};

const MAGIC: [u8; 8] = *b"BSTORE01";

const VERSION: u32 = 1;

// Where the checksum stands, and how many bytes it is of.
const SUM_AT: usize = 4092;

// The epoch and the number of the first record are below it.
pub(crate) const NUMBER_LIMIT: u64 = 1 << 62;

/// The fields of a superblock slot. Slot 0 is unit 0 of the device, slot 1 is unit 1; a super of epoch e is written to slot
/// e modulo 2, and its records are in half e modulo 2.
#[derive(Clone, Copy, PartialEq, Eq)]
pub struct Super {
    /// The device's units of 4096 bytes.
    pub units: u32,
    /// The units of each of the two halves of the log.
    pub half: u32,
    /// A write of fewer bytes than these is deferred on the pages of the object's own that it covers wholly (Ceph's
    /// `bluestore_prefer_deferred_size`). A page that it covers in part is deferred whatever this number is. So far nothing is.
    pub prefer: u32,
    /// How often the halves were switched.
    pub epoch: u64,
    /// The number of the first record of the active half.
    pub first: u64,
}

// Fills the front of a slot up with zeros to where its checksum stands.
fn fill(front: &mut Vec<u8>) -> Result<(), AllocError>
    requires { length front.old.items ≡ 40 }
    ensures { OnOk result (front.new.items ≡ front.old.items ++ zeros 4052) }
{
    front.resize(SUM_AT, 0)
}

// The bytes before the checksum, where it is theirs and they are as many as a slot has.
fn summed(unit: &[u8]) -> Option<&[u8]>
    ensures { MatchOption result ((body : List ℕ) → ¬ (IsSummed body unit.now)) (λ body. IsSummed body.now unit.now) }
{
    let (body, sum) = unit.split_last_chunk::<4>()?;
    if body.len() == SUM_AT && *sum == crc32c(body).to_le_bytes() {
        Some(body)
    } else {
        None
    }
}

fn read_version(fields: &mut Fields) -> Option<()>
    ensures { MatchOption result ((rest : List ℕ) → fields.old ≢ version_bytes ++ rest) (λ _. fields.old ≡ version_bytes ++ fields.new) }
{
    let magic = fields.bytes(MAGIC.len())?;
    let version = fields.u32()?;
    if magic == MAGIC.as_slice() && version == VERSION {
        Some(())
    } else {
        None
    }
}

fn read_numbers(fields: &mut Fields) -> Option<Super>
    ensures { MatchOption result (length fields.old < 28) (λ s. fields.old ≡ super_field_bytes s ++ fields.new) }
{
    Some(Super {
        units: fields.u32()?,
        half: fields.u32()?,
        prefer: fields.u32()?,
        epoch: fields.u64()?,
        first: fields.u64()?,
    })
}

fn read_front(fields: &mut Fields) -> Option<Super>
    ensures { MatchOption result ((s : Super) (rest : List ℕ) → fields.old ≢ super_front s ++ rest) (λ s. fields.old ≡ super_front s ++ fields.new) }
{
    read_version(fields)?;
    read_numbers(fields)
}

impl Super {
    fn is_within_limits(&self) -> bool
        ensures { IsTrue result ↔ IsSuper self.now }
    {
        self.units <= MOST_UNITS
            && self.half >= LEAST_HALF
            && self.half <= MOST_HALF
            && 2 * u64::from(self.half) + 3 <= u64::from(self.units)
            && self.prefer <= MOST_PREFER
            && self.epoch < NUMBER_LIMIT
            && self.first < NUMBER_LIMIT
    }

    /// How wide the checksums of pages are in the store's rows: four bytes in each store so far.
    pub fn width(&self) -> Width
        ensures { result ≡ width_of self.now }
    {
        Width::FourBytes
    }

    /// The first unit of the active half of the log.
    pub fn active_unit(&self) -> u32
        requires { IsSuper self.now }
        ensures { result ≡ active_unit self.now }
    {
        2 + self.half * (self.epoch % 2) as u32
    }

    /// The number of the slot that isn't in use.
    pub fn other_slot(&self) -> u32
        ensures { result ≡ other_slot self.now }
    {
        1 - (self.epoch % 2) as u32
    }

    /// The first unit of the half of the log that isn't in use.
    pub fn other_unit(&self) -> u32
        requires { IsSuper self.now }
        ensures { result ≡ other_unit self.now }
    {
        2 + self.half * self.other_slot()
    }

    /// The superblock that comes with a checkpoint whose first record has this number: that of the other slot and the other half.
    pub fn next(&self, number: u64) -> Super
        requires { self.now.epoch < 2 ^ 62 }
        ensures { result ≡ next_super self.now number }
    {
        Super {
            epoch: self.epoch + 1,
            first: number,
            ..*self
        }
    }

    fn front(&self, alloc: Global) -> Result<Vec<u8>, AllocError>
        ensures { IfOk result (λ front. front.items ≡ super_front self.now) }
    {
        let mut front = Vec::with_capacity(alloc, UNIT_BYTES)?;
        front.extend_from_slice(&MAGIC)?;
        push_u32_le(&mut front, VERSION)?;
        push_u32_le(&mut front, self.units)?;
        push_u32_le(&mut front, self.half)?;
        push_u32_le(&mut front, self.prefer)?;
        push_u64_le(&mut front, self.epoch)?;
        push_u64_le(&mut front, self.first)?;
        Ok(front)
    }

    /// The slot as it lies on the device: one unit, with its CRC-32C in the last four bytes. `mkfs` writes the first slot of a
    /// store, and each switch of the halves the other one, as BlueFS writes its superblock.
    pub fn write(&self, alloc: Global) -> Result<Vec<u8>, AllocError>
        requires { IsSuper self.now }
        ensures { IfOk result (λ unit. unit.items ≡ super_bytes self.now) }
    {
        let mut unit = self.front(alloc)?;
        fill(&mut unit)?;
        let sum = crc32c(&unit);
        push_u32_le(&mut unit, sum)?;
        Ok(unit)
    }

    /// What a unit says as the slot of this number, or None where it is no valid slot: where it has another length, magic, version
    /// or checksum, a field past the limits, an epoch of the other slot, or a byte other than zero between. Whether the device has
    /// as many units as the slot says is for the caller to compare. A mount reads both slots, and goes by the greater epoch.
    pub fn read(unit: &[u8], slot: u32) -> Option<Super>
        ensures { MatchOption result ((s : Super) → ¬ (IsSlotOf slot unit.now s)) (λ s. IsSlotOf slot unit.now s) }
    {
        let mut fields = Fields::new(summed(unit)?);
        let found = read_front(&mut fields)?;
        if found.is_within_limits()
            && found.epoch % 2 == u64::from(slot)
            && is_zero(fields.rest())
        {
            Some(found)
        } else {
            None
        }
    }
}
