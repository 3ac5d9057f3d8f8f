//! Marks at the units where pages stand.
ghost use Rattle.std.specs.Prelude.{◌≡◌, ◌+◌, ◌<◌, ◌≤◌, ℕ, List, IfOk, false, length, replicate};
ghost use Rattle.unit_fields.specs.Prelude.{ReadsBytes, bytes_of};
ghost use Rattle.row_format.specs.Prelude.{Extent};
ghost use Rattle.onode_codec.specs.Reading.{SpellExtents};
ghost use Rattle.row_check.specs.Marks.{no_marks, one_page_more, run_marked, slot_marked, slots_marked, extents_marked, SpellExtentsBelow, BeginsBelow, MarksExtent};

use onode_codec::{Head, Start};
use row_reading::Slot;
use std::alloc::{AllocError, Global};
use std::marker::Model;
use std::mem::replace;
use unit_fields::{Fields, UnitNo, Width};

/// For each unit of a device a mark where a page stands on it, and a second one where another page does too.
#[derive(Drop)]
pub struct UnitMarks {
    owned: Vec<bool>,
    shared: Vec<bool>,
}

impl Model for UnitMarks {
    ghost use Rattle.std.specs.Prelude.{◌≡◌, length};
    ghost use Rattle.row_check.specs.Marks.{Marks, coded_marks};

    ghost Value = { Marks };

    ghost coded = { coded_marks };

    ghost view = { λ a. record { owned = a.owned.items; shared = a.shared.items } };

    ghost invariant = { λ a. length a.owned.items ≡ length a.shared.items };
}

fn falses(alloc: Global, count: usize) -> Result<Vec<bool>, AllocError>
    ensures { IfOk result (λ v. v.items ≡ replicate count false) }
{
    vec![in alloc; false; count]
}

impl UnitMarks {
    /// No marks at any of so many units.
    pub fn new(alloc: Global, units: u32) -> Result<UnitMarks, AllocError>
        ensures { IfOk result (λ marks. marks ≡ no_marks units) }
    {
        let owned = falses(alloc, units as usize)?;
        let shared = falses(alloc, units as usize)?;
        Ok(UnitMarks { owned, shared })
    }

    // One page more stands on the unit.
    fn mark(&mut self, unit: usize)
        requires { unit < length self.old.owned }
        ensures { self.new ≡ one_page_more self.old unit }
    {
        let was_owned = replace(&mut self.owned[unit], true);
        self.shared[unit] = was_owned || self.shared[unit];
    }

    // So many pages more stand on the units from this one on.
    fn mark_run(&mut self, first: usize, count: usize)
        requires { first + count ≤ length self.old.owned }
        ensures { self.new ≡ run_marked self.old first count }
    {
        // There is a mark for each of the units, so that their numbers fit.
        let _marks = &self.owned;
        for i in 0..count {
            self.mark(first + i);
        }
    }

    // The slot on the unit is named, if its count says so.
    fn mark_slot(&mut self, unit: usize, slot: &Slot)
        requires { unit < length self.old.owned }
        ensures { self.new ≡ slot_marked self.old unit slot.now }
    {
        if slot.count > 0 {
            self.mark(unit);
        }
    }

    /// The slots on the units from this one on are named, if their counts say so.
    pub fn mark_slots(&mut self, first: usize, slots: &[Slot])
        requires { first + length slots.now ≤ length self.old.owned }
        ensures { self.new ≡ slots_marked self.old first slots.now }
    {
        // There is a mark for each of the units, so that their numbers fit.
        let _marks = &self.owned;
        for i in 0..slots.len() {
            self.mark_slot(first + i, &slots[i]);
        }
    }

    // So many pages more, whose checksums are at the front, stand on the units from this one on. The checksums are passed over.
    fn mark_units(&mut self, width: Width, unit: UnitNo, count: u16, fields: &mut Fields)
        requires marks { unit + count ≤ length self.old.owned }
        requires csums { bytes_of width count ≤ length fields.old }
        requires few { count ≤ 256 }
        ensures marked { self.new ≡ run_marked self.old unit count }
        ensures passed { (piece : List ℕ) × ReadsBytes (bytes_of width count) fields.old fields.new piece }
    {
        let _marks = &self.owned;
        let count = usize::from(count);
        self.mark_run(unit.number() as usize, count);
        let Some(_csums) = fields.bytes(width.bytes_of(count)) else {
            unreachable!();
        };
    }

    // The pages of the extent at the front stand on their units.
    fn mark_extent(&mut self, width: Width, fields: &mut Fields)
        requires { BeginsBelow width fields.old (length self.old.owned) }
        ensures { MarksExtent width fields.old fields.new self.old self.new }
    {
        let Some(head) = Head::read(fields) else {
            unreachable!();
        };
        let Head {
            first: _,
            count,
            start,
        } = head;
        match start {
            Start::Unit(unit) => self.mark_units(width, unit, count, fields),
            Start::Slot { .. } => {}
        }
    }

    /// The pages of the extents that these bytes spell, with checksums of this width, stand on their units.
    pub fn mark_spelled(&mut self, width: Width, bytes: &[u8])
        requires { SpellExtentsBelow width bytes.now (length self.old.owned) }
        ensures { (es : List Extent) → SpellExtents width bytes.now es → self.new ≡ extents_marked self.old es }
    {
        let mut fields = Fields::new(bytes);
        'extents: while !fields.is_empty() {
            self.mark_extent(width, &mut fields);
        }
    }

    /// The first mark of each unit.
    pub fn owned(&self) -> &[bool]
        ensures { result.now ≡ self.now.owned }
    {
        &self.owned
    }

    /// The second mark of each unit.
    pub fn shared(&self) -> &[bool]
        ensures { result.now ≡ self.now.shared }
    {
        &self.shared
    }
}
