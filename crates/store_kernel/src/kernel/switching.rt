//! The steps of a switch of halves: a checkpoint of the committed rows goes into the half of the log that isn't in use, piece by piece, and
//! once it is stable the next superblock goes into the other slot. Meanwhile no batch is taken.
//!
//! Ceph has RocksDB flush a memtable where the log has grown, and drops the log before it.
ghost use Rattle.std.specs.Prelude.{◌≡◌, ◌&&◌, true, OnOk, IfErr};
ghost use Rattle.store_steps.specs.Prelude.{is_ready, is_not_sent, switch_is, OpensCheck, DoesCheckWrite, DoesCheckFlush, DoesSlotWrite, DoesSlotFlush, DoesSwitch};
ghost use Rattle.store_steps.specs.Ready.{is_flushed};
ghost use Rattle.store_steps.specs.declared.step.Step.TheVariants as step;
ghost use Rattle.store_kernel.specs.Steps.{NextIsTooLong};

use super::Kernel;
use crate::batch::{flushed, not_sent};
use crate::step_fail::StepFail;
use crate::switching::{set_flush, set_slot, set_slot_flush};
use block_device::Device;
use meta_store::CheckPiece;
use std::alloc::Global;
use store_steps::{FlushState, Flying, Job, Switching};

impl<D: Device> Kernel<D> {
    // Whether a switch is under way of which the flush behind the checkpoint isn't submitted.
    pub(super) fn check_not_flushed(&self) -> bool
        ensures { result ≡ switch_is (λ w. is_not_sent w.flush) self.now.state }
    {
        match &self.switching {
            Some(now) => not_sent(now.flush),
            None => false,
        }
    }

    // Whether that has ended well, and the next superblock isn't submitted.
    pub(super) fn slot_not_sent(&self) -> bool
        ensures { result ≡ switch_is (λ w. is_flushed w.flush && is_not_sent w.slot) self.now.state }
    {
        match &self.switching {
            Some(now) => flushed(now.flush) && not_sent(now.slot),
            None => false,
        }
    }

    // Whether the superblock is written, and the flush behind it isn't submitted.
    pub(super) fn slot_not_flushed(&self) -> bool
        ensures { result ≡ switch_is (λ w. is_flushed w.slot && is_not_sent w.slot_flush) self.now.state }
    {
        match &self.switching {
            Some(now) => flushed(now.slot) && not_sent(now.slot_flush),
            None => false,
        }
    }

    // Whether that has ended well too.
    pub(super) fn slot_flushed(&self) -> bool
        ensures { result ≡ switch_is (λ w. is_flushed w.slot_flush) self.now.state }
    {
        match &self.switching {
            Some(now) => flushed(now.slot_flush),
            None => false,
        }
    }

    // Opens a checkpoint, since the next record is too long for what the half has left. Nobody is taken.
    pub(super) fn open_check(&mut self, alloc: Global) -> Result<(), StepFail>
        requires ready { is_ready step.Take (D.disk self.old.device).depth self.old.state ≡ true }
        requires too_long { NextIsTooLong self.old.state }
        ensures ok { OnOk result (OpensCheck self.old.state (D.disk self.old.device) self.new.state (D.disk self.new.device)) }
        ensures err { IfErr result (λ fail. (fail ≡ StepFail.Memory) × (self.new.state ≡ self.old.state)
            × (D.disk self.new.device ≡ D.disk self.old.device)) }
        ensures faults { D.faults self.new.device ≡ D.faults self.old.device }
    {
        let Ok(()) = self.meta.begin_check(alloc) else {
            return Err(StepFail::Memory);
        };
        self.switching = Some(Switching {
            flush: FlushState::NotSent,
            slot: FlushState::NotSent,
            slot_flush: FlushState::NotSent,
        });
        Ok(())
    }

    pub(super) fn send_check(&mut self, alloc: Global) -> Result<(), StepFail>
        requires { is_ready step.CheckWrite (D.disk self.old.device).depth self.old.state ≡ true }
        ensures ok { OnOk result (DoesCheckWrite self.old.state (D.disk self.old.device) self.new.state (D.disk self.new.device)) }
        ensures err { IfErr result (λ fail. (fail ≡ StepFail.Memory) × (self.new.state ≡ self.old.state)
            × (D.disk self.new.device ≡ D.disk self.old.device)) }
        ensures faults { D.faults self.new.device ≡ D.faults self.old.device }
    {
        let Ok(found) = self.meta.next_check(alloc) else {
            return Err(StepFail::Memory);
        };
        let Some(piece) = found else {
            unreachable!();
        };
        let CheckPiece { unit, bytes, left } = piece;
        if self.flying.reserve(1).is_err() {
            return Err(StepFail::Memory);
        }
        let Ok(ticket) = self.device.submit_write(unit.number(), bytes) else {
            return Err(StepFail::Memory);
        };
        self.meta.note_check_given(left);
        self.flying.push_reserved(Flying {
            ticket,
            job: Job::Check,
        });
        self.events += 1;
        Ok(())
    }

    pub(super) fn send_check_flush(&mut self) -> Result<(), StepFail>
        requires { is_ready step.CheckFlush (D.disk self.old.device).depth self.old.state ≡ true }
        ensures ok { OnOk result (DoesCheckFlush self.old.state (D.disk self.old.device) self.new.state (D.disk self.new.device)) }
        ensures err { IfErr result (λ fail. (fail ≡ StepFail.Memory) × (self.new.state ≡ self.old.state)
            × (D.disk self.new.device ≡ D.disk self.old.device)) }
        ensures faults { D.faults self.new.device ≡ D.faults self.old.device }
    {
        if self.flying.reserve(1).is_err() {
            return Err(StepFail::Memory);
        }
        let Ok(ticket) = self.device.submit_flush() else {
            return Err(StepFail::Memory);
        };
        set_flush(&mut self.switching, FlushState::Sent(ticket));
        self.flying.push_reserved(Flying {
            ticket,
            job: Job::CheckFlush,
        });
        self.events += 1;
        Ok(())
    }

    pub(super) fn send_slot(&mut self, alloc: Global) -> Result<(), StepFail>
        requires { is_ready step.SlotWrite (D.disk self.old.device).depth self.old.state ≡ true }
        ensures ok { OnOk result (DoesSlotWrite self.old.state (D.disk self.old.device) self.new.state (D.disk self.new.device)) }
        ensures err { IfErr result (λ fail. (fail ≡ StepFail.Memory) × (self.new.state ≡ self.old.state)
            × (D.disk self.new.device ≡ D.disk self.old.device)) }
        ensures faults { D.faults self.new.device ≡ D.faults self.old.device }
    {
        let Ok(slot) = self.meta.next_slot(alloc) else {
            return Err(StepFail::Memory);
        };
        let (unit, bytes) = slot;
        if self.flying.reserve(1).is_err() {
            return Err(StepFail::Memory);
        }
        let Ok(ticket) = self.device.submit_write(unit.number(), bytes) else {
            return Err(StepFail::Memory);
        };
        set_slot(&mut self.switching, FlushState::Sent(ticket));
        self.flying.push_reserved(Flying {
            ticket,
            job: Job::Slot,
        });
        self.events += 1;
        Ok(())
    }

    pub(super) fn send_slot_flush(&mut self) -> Result<(), StepFail>
        requires { is_ready step.SlotFlush (D.disk self.old.device).depth self.old.state ≡ true }
        ensures ok { OnOk result (DoesSlotFlush self.old.state (D.disk self.old.device) self.new.state (D.disk self.new.device)) }
        ensures err { IfErr result (λ fail. (fail ≡ StepFail.Memory) × (self.new.state ≡ self.old.state)
            × (D.disk self.new.device ≡ D.disk self.old.device)) }
        ensures faults { D.faults self.new.device ≡ D.faults self.old.device }
    {
        if self.flying.reserve(1).is_err() {
            return Err(StepFail::Memory);
        }
        let Ok(ticket) = self.device.submit_flush() else {
            return Err(StepFail::Memory);
        };
        set_slot_flush(&mut self.switching, FlushState::Sent(ticket));
        self.flying.push_reserved(Flying {
            ticket,
            job: Job::SlotFlush,
        });
        self.events += 1;
        Ok(())
    }

    pub(super) fn switch_halves(&mut self)
        requires { is_ready step.Switch (D.disk self.old.device).depth self.old.state ≡ true }
        ensures does { DoesSwitch self.old.state (D.disk self.old.device) self.new.state (D.disk self.new.device) }
        ensures faults { D.faults self.new.device ≡ D.faults self.old.device }
    {
        self.meta.switch();
        self.switching = None;
    }
}
