//! Submitting a transaction: it is accepted, or refused for a cause.
ghost use Rattle.std.specs.Prelude.{◌≡◌, ◌≤◌, ◌<◌, ◌^◌, length, OnOk, OnErr, IfOk, IfErr, IsErrOf};
ghost use Rattle.block_device.specs.Prelude.{Rose};
ghost use Rattle.meta_rows.specs.Prelude.{ops_bytes, AllFit};
ghost use Rattle.store_steps.specs.Prelude.{IsCause, CanNote, Accepts, Refuses};
ghost use Rattle.plan_drafts.specs.Prelude.{IsKnown};
ghost use Rattle.run_facts.specs.Prelude.{IsKept};
ghost use Rattle.store_kernel.specs.Prepared.{IsPlanOf, IsPrepared};
ghost use Rattle.store_kernel.specs.Submitting.{IsCauseOf, RefusesBy, IsReadFail};

use super::Kernel;
use crate::buffers::enter;
use crate::prepared::{PreparedTxn, units_needed};
use crate::refused::{Cause, Refused};
use crate::space::take_fresh;
use block_device::Device;
use byte_maps::Duplicate;
use object_model::{Answer, Asked, Command, Entry, Transaction};
use page_sources::read_places;
use std::alloc::Global;
use store_steps::Plan;
use txn_planner::begin;
use unit_fields::limits::BOOK_LIMIT;

impl<D: Device> Kernel<D> {
    /// Accepts a transaction, or refuses it for a cause. Either makes an entry of the book, whose clauses see the transaction, and which
    /// keeps of it that it is one: what it holds goes now, but for the bytes that the writes of an accepted one share until they are
    /// committed by the steps that follow. A kernel that is down, or whose book is full, turns it away without an entry, and a read
    /// that the device fails leaves none. For now each of its operations may be any but a clone.
    ///
    /// Of pages that change in part the old bytes are read, once the transaction is known to be taken and units suffice for it:
    /// from memory where an accepted transaction isn't committed yet, and else from the device, with their checksum.
    pub fn submit(
        &mut self,
        alloc: Global,
        client: u32,
        line: u32,
        txn: Transaction,
    ) -> Result<u32, Refused>
        requires { IsKnown txn.ops }
        ensures place { IfOk result (λ place. place ≡ length self.old.state.book.entries) }
        ensures accepted { OnOk result (Accepts client line txn self.old.state (D.disk self.old.device) self.new.state) }
        ensures refused { IfErr result (λ why. RefusesBy why client line txn self.old.state (D.disk self.old.device) self.new.state) }
        ensures disk { D.disk self.new.device ≡ D.disk self.old.device }
        ensures later { D.faults self.old.device ≤ D.faults self.new.device }
        ensures cause { IfErr result (λ why. IsReadFail why → Rose (D.faults self.old.device) (D.faults self.new.device)) }
        ensures kept { IsKept self.new.state (D.disk self.new.device) }
    {
        let submitted = self.do_submit(alloc, client, line, txn);
        self.facts();
        submitted
    }

    // Accepts a transaction, or refuses it.
    fn do_submit(
        &mut self,
        alloc: Global,
        client: u32,
        line: u32,
        txn: Transaction,
    ) -> Result<u32, Refused>
        requires { IsKnown txn.ops }
        ensures place { IfOk result (λ place. place ≡ length self.old.state.book.entries) }
        ensures accepted { OnOk result (Accepts client line txn self.old.state (D.disk self.old.device) self.new.state) }
        ensures refused { IfErr result (λ why. RefusesBy why client line txn self.old.state (D.disk self.old.device) self.new.state) }
        ensures disk { D.disk self.new.device ≡ D.disk self.old.device }
        ensures later { D.faults self.old.device ≤ D.faults self.new.device }
        ensures cause { IfErr result (λ why. IsReadFail why → Rose (D.faults self.old.device) (D.faults self.new.device)) }
    {
        if let Some(ticket) = self.down {
            return Err(Refused::Down { ticket, back: txn });
        }
        if self.entries.len() >= BOOK_LIMIT as usize {
            return Err(Refused::BookFull(txn));
        }
        match self.prepare(alloc, &txn) {
            Ok(ready) => match self.accept(alloc, client, line, txn, ready) {
                Ok(place) => Ok(place),
                Err(back) => Err(Refused::Memory(back)),
            },
            Err(cause) => Err(self.refuse(client, line, txn, cause)),
        }
    }

    // The plan of a transaction, and all that accepting it takes memory for but for room in lists.
    fn prepare(&mut self, alloc: Global, txn: &Transaction) -> Result<PreparedTxn, Cause>
        requires known { IsKnown txn.now.ops }
        requires can_note { CanNote self.old.state }
        ensures ok { IfOk result (λ ready. IsPrepared ready txn.now self.old.state (D.disk self.old.device)) }
        ensures err { IfErr result (λ cause. IsCauseOf cause txn.now self.old.state (D.disk self.old.device)) }
        ensures same { self.new.state ≡ self.old.state }
        ensures disk { D.disk self.new.device ≡ D.disk self.old.device }
        ensures later { D.faults self.old.device ≤ D.faults self.new.device }
        ensures cause { IsErrOf result Cause.DeviceRead → Rose (D.faults self.old.device) (D.faults self.new.device) }
    {
        let plan = self.planned(alloc, txn)?;
        let need = units_needed(plan.ops.as_slice());
        let room = self.meta.room();
        if room < need {
            return Err(Cause::MetaFull { need, room });
        }
        let copy = plan.ops.duplicate(alloc)?;
        let coll = txn.coll().copy(alloc)?;
        Ok(PreparedTxn {
            plan,
            need,
            copy,
            coll,
        })
    }

    // The plan over the submitted rows and the free units, and over the old bytes that it keeps. Its operations have a spelling, which is short.
    fn planned(&mut self, alloc: Global, txn: &Transaction) -> Result<Plan, Cause>
        requires known { IsKnown txn.now.ops }
        requires can_note { CanNote self.old.state }
        ensures ok { IfOk result (IsPlanOf txn.now self.old.state (D.disk self.old.device)) }
        ensures fit { IfOk result (λ plan. AllFit plan.ops) }
        ensures short { IfOk result (λ plan. length (ops_bytes plan.ops) < 2 ^ 43) }
        ensures err { IfErr result (λ cause. IsCauseOf cause txn.now self.old.state (D.disk self.old.device)) }
        ensures same { self.new.state ≡ self.old.state }
        ensures disk { D.disk self.new.device ≡ D.disk self.old.device }
        ensures later { D.faults self.old.device ≤ D.faults self.new.device }
        ensures cause { IsErrOf result Cause.DeviceRead → Rose (D.faults self.old.device) (D.faults self.new.device) }
    {
        let width = self.meta.sup().width();
        let draft = begin(alloc, width, &self.submitted, &self.space, txn)?;
        let read = read_places(alloc, &mut self.device, &self.buffers, draft.places())?;
        let plan = draft.finish(alloc, width, &self.submitted, &self.space, txn, read)?;
        Ok(plan)
    }

    // Makes room in the lists, and then the context and the entry. The transaction comes back where there is no room.
    fn accept(
        &mut self,
        alloc: Global,
        client: u32,
        line: u32,
        txn: Transaction,
        ready: PreparedTxn,
    ) -> Result<u32, Transaction>
        requires known { IsKnown txn.ops }
        requires can_note { CanNote self.old.state }
        requires prepared { IsPrepared ready txn self.old.state (D.disk self.old.device) }
        ensures place { IfOk result (λ place. place ≡ length self.old.state.book.entries) }
        ensures accepted { OnOk result (Accepts client line txn self.old.state (D.disk self.old.device) self.new.state) }
        ensures err { OnErr result (self.new.state ≡ self.old.state) }
        ensures back { IfErr result (λ back. back ≡ txn) }
        ensures disk { D.disk self.new.device ≡ D.disk self.old.device }
        ensures faults { D.faults self.new.device ≡ D.faults self.old.device }
    {
        if self.entries.reserve(1).is_err() || self.submitted.reserve(ready.copy.len()).is_err() {
            drop(ready);
            return Err(txn);
        }
        let place = self.entries.len() as u32;
        let need = ready.need;
        let new_blobs = ready.plan.new_blobs;
        let (context, copy) = ready.split(place);
        let Ok(()) = enter(alloc, &mut self.contexts, &mut self.buffers, context) else {
            drop(copy);
            return Err(txn);
        };
        let Ok(()) = self.meta.reserve(need) else {
            unreachable!();
        };
        self.submitted.apply(copy);
        let Some(added) = self.contexts.get(place) else {
            unreachable!();
        };
        take_fresh(&mut self.space, added.fresh());
        self.next_sbid += new_blobs;
        self.entries.push_reserved(Entry {
            client,
            line,
            command: Asked::new(Command::Change(txn)),
            answer: Answer::Accepted,
            acks: self.acked,
        });
        Ok(place)
    }

    // Refuses a transaction.
    fn refuse(&mut self, client: u32, line: u32, txn: Transaction, cause: Cause) -> Refused
        requires known { IsKnown txn.ops }
        requires can_note { CanNote self.old.state }
        requires cause { IsCauseOf cause txn self.old.state (D.disk self.old.device) }
        ensures refused { RefusesBy result client line txn self.old.state (D.disk self.old.device) self.new.state }
        ensures read { IsReadFail result → cause ≡ Cause.DeviceRead }
        ensures disk { D.disk self.new.device ≡ D.disk self.old.device }
        ensures faults { D.faults self.new.device ≡ D.faults self.old.device }
    {
        match cause {
            Cause::Refusal(refusal) => {
                match self.note(client, line, txn, Answer::Refused(refusal)) {
                    Ok(()) => Refused::Refusal(refusal),
                    Err(back) => Refused::Memory(back),
                }
            }
            Cause::NoSpace { need, free } => {
                match self.note(client, line, txn, Answer::NoSpace { need, free }) {
                    Ok(()) => Refused::NoSpace { need, free },
                    Err(back) => Refused::Memory(back),
                }
            }
            Cause::Csum { unit, kept, found } => {
                match self.note(client, line, txn, Answer::Csum { unit, kept, found }) {
                    Ok(()) => Refused::Csum { unit, kept, found },
                    Err(back) => Refused::Memory(back),
                }
            }
            Cause::MetaFull { need, room } => {
                match self.note(client, line, txn, Answer::MetaFull { need, room }) {
                    Ok(()) => Refused::MetaFull { need, room },
                    Err(back) => Refused::Memory(back),
                }
            }
            Cause::DeviceRead => Refused::DeviceRead(txn),
            Cause::Memory => Refused::Memory(txn),
        }
    }

    // Makes an entry of the book for a transaction that is refused.
    fn note(
        &mut self,
        client: u32,
        line: u32,
        txn: Transaction,
        answer: Answer,
    ) -> Result<(), Transaction>
        requires known { IsKnown txn.ops }
        requires can_note { CanNote self.old.state }
        requires cause { IsCause answer txn self.old.state (D.disk self.old.device) }
        ensures ok { OnOk result (Refuses client line txn answer self.old.state (D.disk self.old.device) self.new.state) }
        ensures err { OnErr result (self.new.state ≡ self.old.state) }
        ensures back { IfErr result (λ back. back ≡ txn) }
        ensures disk { D.disk self.new.device ≡ D.disk self.old.device }
        ensures faults { D.faults self.new.device ≡ D.faults self.old.device }
    {
        if self.entries.reserve(1).is_err() {
            return Err(txn);
        }
        self.entries.push_reserved(Entry {
            client,
            line,
            command: Asked::new(Command::Change(txn)),
            answer,
            acks: self.acked,
        });
        Ok(())
    }
}
