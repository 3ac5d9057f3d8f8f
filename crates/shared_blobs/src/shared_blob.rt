//! One shared blob.
ghost use Rattle.std.specs.Prelude.{◌≡◌, ◌<◌, ◌≤◌, ◌++◌, nat_lt, length, map, IfOk, OnOk, MatchOption};
ghost use Rattle.std.specs.List.{flat_map};
ghost use Rattle.row_format.specs.Prelude.{slot_bytes};
ghost use Rattle.plan_rows.specs.Prelude.{lowered, with_one_less, any_named, blob_value};
ghost use Rattle.shared_blobs.specs.Blob.{SpellsBlob, IsNoBlob, SaysBlob, said, HasUnits, CanRaise, named_once, raised, with_one_more, freed_by};

use byte_maps::Bytes;
use onode_codec::{RowKind, push_csum};
use row_reading::{Row, Slot, read_row};
use std::alloc::{AllocError, Global};
use std::marker::Model;
use unit_fields::{UnitNo, Width, push_u16_le, push_u32_le};

/// Consecutive units, at most 256, each with a slot on which pages of several objects stand.
#[derive(Drop)]
pub struct SharedBlob {
    first: UnitNo,
    slots: Vec<Slot>,
}

impl Model for SharedBlob {
    ghost use Rattle.std.specs.Prelude.{◌≤◌, length};
    ghost use Rattle.shared_blobs.specs.Blob.{Blob, coded_blob};

    ghost Value = { Blob };

    ghost coded = { coded_blob };

    ghost view = { λ a. record { first = a.first; slots = a.slots.items } };

    ghost invariant = { λ a. length a.slots.items ≤ 256 };
}

// ---- slots

// A slot with the checksum of its unit, which one page names.
fn named_once(csum: u32) -> Slot
    ensures { result ≡ named_once csum }
{
    Slot { csum, count: 1 }
}

// One that one page more names.
fn raised(slot: Slot) -> Slot
    requires { slot.count < 4294967295 }
    ensures { result ≡ raised slot }
{
    Slot {
        csum: slot.csum,
        count: slot.count + 1,
    }
}

// One that one page less names. With the last of them the checksum goes.
fn lowered(slot: Slot) -> Slot
    ensures { result ≡ lowered slot }
{
    match slot.count {
        0 | 1 => Slot { csum: 0, count: 0 },
        count => Slot {
            csum: slot.csum,
            count: count - 1,
        },
    }
}

fn is_named(slot: &Slot) -> bool
    ensures { result ≡ nat_lt 0 slot.now.count }
{
    slot.count > 0
}

fn any_named(slots: &[Slot]) -> bool
    ensures { result ≡ any_named slots.now }
{
    slots.iter().any(is_named)
}

// Writes a slot behind what is there.
fn push_slot(out: &mut Vec<u8>, width: Width, slot: Slot) -> Result<(), AllocError>
    ensures { OnOk result (out.new.items ≡ out.old.items ++ slot_bytes width slot) }
{
    push_csum(out, width, slot.csum)?;
    push_u32_le(out, slot.count)
}

// Writes slots, one behind the other.
fn push_slots(out: &mut Vec<u8>, width: Width, slots: &[Slot]) -> Result<(), AllocError>
    ensures { OnOk result (out.new.items ≡ out.old.items ++ flat_map (slot_bytes width) slots.now) }
{
    for slot in slots {
        push_slot(out, width, *slot)?;
    }
    Ok(())
}

// ---- a blob

// The blob that a row says.
fn blob_of(row: Row) -> SharedBlob
    requires { SaysBlob row }
    ensures { result ≡ said row }
{
    let Row::Blob {
        sbid: _,
        first,
        slots,
    } = row
    else {
        unreachable!();
    };
    let slots = slots.into_vec();
    SharedBlob { first, slots }
}

impl SharedBlob {
    /// The blob of units from this one on which have these checksums, each with one page.
    pub fn share(alloc: Global, first: UnitNo, csums: &[u32]) -> Result<SharedBlob, AllocError>
        requires { length csums.now ≤ 256 }
        ensures { IfOk result (λ b. b ≡ record { first = first; slots = map named_once csums.now }) }
    {
        let mut slots = Vec::with_capacity(alloc, csums.len())?;
        for csum in csums {
            slots.push(named_once(*csum))?;
        }
        Ok(SharedBlob { first, slots })
    }

    /// The blob of a row with this value. None: it is the value of no blob's row.
    pub fn decode(
        alloc: Global,
        width: Width,
        value: &[u8],
    ) -> Result<Option<SharedBlob>, AllocError>
        ensures { IfOk result (λ found. MatchOption found (IsNoBlob width value.now) (SpellsBlob width value.now)) }
    {
        let key = [RowKind::Shared as u8, 0, 0, 0, 0, 0, 0, 0, 0];
        match read_row(alloc, width, &key, value)? {
            Some(row) => Ok(Some(blob_of(row))),
            None => Ok(None),
        }
    }

    /// The value of its row. None: it is to have no row, since no page names one of its slots.
    pub fn encode(&self, alloc: Global, width: Width) -> Result<Option<Bytes>, AllocError>
        ensures { IfOk result (λ value. value ≡ blob_value width self.now.first self.now.slots) }
    {
        if !any_named(&self.slots) {
            return Ok(None);
        }
        let mut out = Vec::new(alloc);
        push_u32_le(&mut out, self.first.number())?;
        push_u16_le(&mut out, self.slots.len() as u16)?;
        push_slots(&mut out, width, &self.slots)?;
        Ok(Some(Bytes::from_vec(out)))
    }

    /// One page more names the slot of this number.
    pub fn get(&mut self, index: u16)
        requires within { index < length self.old.slots }
        requires room { CanRaise self.old.slots index }
        ensures { self.new ≡ record self.old { slots = with_one_more self.old.slots index } }
    {
        let at = usize::from(index);
        self.slots[at] = raised(self.slots[at]);
    }

    /// One page less names the slot of this number. Gives its unit where none does any more, but for one that none named before.
    pub fn put(&mut self, index: u16) -> Option<UnitNo>
        requires { HasUnits self.old }
        ensures blob { self.new ≡ record self.old { slots = with_one_less self.old.slots index } }
        ensures freed { result ≡ freed_by self.old index }
    {
        let at = usize::from(index);
        if at >= self.slots.len() {
            return None;
        }
        let slot = self.slots[at];
        self.slots[at] = lowered(slot);
        if slot.count == 1 {
            Some(UnitNo::new(self.first.number() + u32::from(index)))
        } else {
            None
        }
    }
}
