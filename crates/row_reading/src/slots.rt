//! The slots of a shared blob, read from the value of its row.
ghost use Rattle.std.specs.Prelude.{◌≡◌, ◌+◌, ◌<◌, length, IfOk, MatchOption};
ghost use Rattle.unit_fields.specs.Prelude.{bytes_of};
ghost use Rattle.row_reading.specs.Slots.{slots_size, ReadsSlot, ReadsSlots, ReadsRun, BeginsWithNoRun};

use byte_maps::Items;
use onode_codec::read_csum;
use std::alloc::{AllocError, Global};
use std::marker::Model;
use unit_fields::limits::EXTENT_PAGES;
use unit_fields::{Fields, UnitNo, Width};

/// A slot of a shared blob, which is one unit.
#[derive(Clone, Copy)]
pub struct Slot {
    /// The CRC-32C that is kept of the unit: 0 where no page names the slot.
    pub csum: u32,
    /// How many pages name it.
    pub count: u32,
}

impl Model for Slot {
    ghost use Rattle.row_format.specs.Prelude.{Slot};

    ghost Value = { Slot };

    ghost view = { λ a. record { csum = a.csum; count = a.count } };

    ghost inverse = { λ x. record { csum = x.csum; count = x.count } };
}

fn read_slot(fields: &mut Fields, width: Width) -> Option<Slot>
    ensures { MatchOption result (length fields.old < bytes_of width 1 + 4) (ReadsSlot width fields.old fields.new) }
{
    let csum = read_csum(fields, width)?;
    let count = fields.u32()?;
    Some(Slot { csum, count })
}

/// So many slots, if there are as many.
pub fn read_slots(
    alloc: Global,
    width: Width,
    fields: &mut Fields,
    count: u16,
) -> Result<Option<Items<Slot>>, AllocError>
    ensures { IfOk result (λ found. MatchOption found (length fields.old < slots_size width count) (ReadsSlots width count fields.old fields.new)) }
{
    let mut slots = Vec::with_capacity(alloc, usize::from(count))?;
    'slots: for _i in 0..count {
        let Some(slot) = read_slot(fields, width) else {
            return Ok(None);
        };
        slots.push(slot)?;
    }
    Ok(Some(Items::from_vec(slots)))
}

/// The units of a blob, one for each slot: the first of them, and how many.
#[derive(Clone, Copy)]
pub struct Run {
    pub first: UnitNo,
    pub count: u16,
}

/// Those of the blob at the front. None: no blob of 1 to 256 slots stands there.
pub fn read_run(fields: &mut Fields) -> Option<Run>
    ensures { MatchOption result (BeginsWithNoRun fields.old) (λ run. ReadsRun fields.old fields.new run.first run.count) }
{
    let first = fields.u32()?;
    let count = fields.u16()?;
    if count > 0 && count <= EXTENT_PAGES {
        let first = UnitNo::new(first);
        Some(Run { first, count })
    } else {
        None
    }
}
