//! The kernel: its fields, how it begins and ends, and its steps.
//!
//! The two forms that the kernel keeps for the code's sake are tied to the state by one equation each, and by nothing else: the buffers
//! to `memory_of`, and the batch's stage to the record that is begun (`KnownOfKernel`). Those of the contexts are tied in their own
//! crate.
//!
//! The kernel's type keeps prefix durability as a statement over every start, and no field has the objects of the start or the history: a
//! told log, the kernel's count of events and the objects that an image stands for determine them. It says nothing of a device that
//! doesn't tell.
ghost use Rattle.std.specs.Prelude.{◌≡◌, ◌≢◌, ◌&&◌, is_none, ℕ, ◌≤◌, ◌<◌, ◌^◌, nat_lt, [], true, false, None, length, OnOk, OnErr, IfOk, IfErr, IsErrOf, MatchResult};
ghost use Rattle.std.specs.List.{list_any};
ghost use Rattle.block_device.specs.Prelude.{Rose};
ghost use Rattle.store_steps.specs.Prelude.{opened, is_ready, is_ready_up, all_steps, is_drained, is_not_sent, batch_is, applied_count, Takes, Does, free_count};
ghost use Rattle.store_steps.specs.Ready.{is_flushed};
ghost use Rattle.store_steps.specs.declared.step.Step.TheVariants.{Reap};
ghost use Rattle.run_facts.specs.Prelude.{IsKept};
ghost use Rattle.crash_facts.specs.Store.{KeepsDurable};
ghost use Rattle.store_kernel.specs.Seen.{found_of, IsUnused};
ghost use Rattle.store_kernel.specs.Steps.{TakesMemory};

mod reading;
mod steps;
mod submitting;
mod switching;
mod walking;

use crate::batch::{OpenBatch, flushed, not_sent};
use crate::step_fail::StepFail;
use block_device::{Device, Ticket};
use byte_maps::Items;
use meta_rows::RowTable;
use meta_store::MetaStore;
use object_model::{Book, Commit, Entry};
use std::alloc::Global;
use std::marker::Model;
use store_steps::{ALL_STEPS, Flying, Step, Switching};
use unit_allocator::Allocator;
use waiting_contexts::Contexts;
use write_buffers::WriteBuffers;

/// A store at work on its device: committed and submitted rows, what is under way, free units, and the book of the mount.
///
/// Any number of transactions may be under way. No call goes over those that wait.
pub struct Kernel<D: Device> {
    device: D,
    // the committed rows, and the log
    meta: MetaStore,
    // the rows with the operations of all accepted transactions
    submitted: RowTable,
    // accepted, and in no batch
    contexts: Contexts,
    batch: Option<OpenBatch>,
    // there while a checkpoint is open: how far its switch of halves is
    switching: Option<Switching>,
    // the bytes of the units that these took, for reads
    buffers: WriteBuffers,
    // in the order of the device's flights
    flying: Vec<Flying>,
    // the first submission that ended badly
    down: Option<Ticket>,
    // submissions and ends since the mount began
    events: u64,
    space: Allocator,
    entries: Vec<Entry>,
    commits: Vec<Commit>,
    // how many commits are acknowledged
    acked: u32,
    // the number of the next shared blob
    next_sbid: u64,
}

impl<D: Device> Model for Kernel<D> {
    ghost use Rattle.std.specs.Coded.{codes};
    ghost use Rattle.store_steps.specs.Prelude.{Machine};
    ghost use Rattle.store_kernel.specs.Seen.{state_of, rows_code};
    ghost use Rattle.store_kernel.specs.Known.{KnownOfKernel};

    ghost Value = { Machine D };

    ghost coded = { Prim.hlevel (codes, rows_code) };

    ghost view = { λ k. record {
      device = k.device;
      state = state_of k.meta k.submitted.rows k.contexts k.batch k.switching k.flying.items k.down k.events k.space k.entries.items k.commits.items k.acked k.next_sbid;
    } };

    ghost invariant = { λ k. KnownOfKernel k.buffers k.batch
        (state_of k.meta k.submitted.rows k.contexts k.batch k.switching k.flying.items k.down k.events k.space k.entries.items k.commits.items k.acked k.next_sbid)
        (D.disk k.device) };
}

impl<D: Device> Kernel<D> {
    /// The kernel of a store whose rows and log are these, over a device on which nothing is in flight. The submitted rows are a copy
    /// of the committed ones, `space` has the data units that the bitmap leaves free, and `next_sbid` is the number of the next shared
    /// blob. `events` is how many events the device has had since the mount began. `mount` calls it, and shows that the kernel is durable from its start.
    pub fn open(
        alloc: Global,
        device: D,
        meta: MetaStore,
        submitted: RowTable,
        space: Allocator,
        next_sbid: u64,
        events: u64,
    ) -> Kernel<D>
        requires fresh { IsUnused meta }
        requires submitted { submitted.rows ≡ meta.rows }
        requires kept { IsKept (opened (found_of meta) space next_sbid events) (D.disk device) }
        requires durable { KeepsDurable (opened (found_of meta) space next_sbid events) (D.disk device) }
        ensures state { result.state ≡ opened (found_of meta) space next_sbid events }
        ensures device { result.device ≡ device }
    {
        Kernel {
            device,
            meta,
            submitted,
            contexts: Contexts::new(alloc),
            batch: None,
            switching: None,
            buffers: WriteBuffers::new(alloc),
            flying: Vec::new(alloc),
            down: None,
            events,
            space,
            entries: Vec::new(alloc),
            commits: Vec::new(alloc),
            acked: 0,
            next_sbid,
        }
    }

    /// The device and the book. Nothing may be in flight.
    pub fn close(self) -> (D, Book)
        requires { (D.disk self.device).flights ≡ [] }
        ensures disk { D.disk result.0 ≡ D.disk self.device }
        ensures faults { D.faults result.0 ≡ D.faults self.device }
        ensures book { result.1 ≡ self.state.book }
    {
        let Kernel {
            device,
            meta,
            submitted,
            contexts,
            batch,
            switching: _,
            buffers,
            flying,
            down: _,
            events: _,
            space,
            entries,
            commits,
            acked: _,
            next_sbid: _,
        } = self;
        drop(meta);
        drop(submitted);
        drop(contexts);
        drop(batch);
        drop(buffers);
        drop(flying);
        drop(space);
        let book = Book {
            entries: Items::from_vec(entries),
            commits: Items::from_vec(commits),
        };
        (device, book)
    }

    /// What the kernel keeps from call to call, also while it is down: its own facts, and prefix durability. It does nothing.
    pub fn facts(&self)
        ensures kept { IsKept self.now.state (D.disk self.now.device) }
        ensures durable { KeepsDurable self.now.state (D.disk self.now.device) }
    {
        let _ = &self.events;
    }

    /// The first submission that ended badly. From then on no step is ready but for `Reap` while something is in flight.
    pub fn down(&self) -> Option<Ticket>
        ensures { result ≡ self.now.state.down }
    {
        self.down
    }

    /// How many data units are free.
    pub fn free_units(&self) -> u32
        ensures { result ≡ free_count self.now.state.space }
    {
        self.space.free_count()
    }

    /// The commands so far, each with its answer.
    pub fn entries(&self) -> &[Entry]
        ensures { result.now ≡ self.now.state.book.entries }
    {
        self.entries.as_slice()
    }

    /// The commits so far.
    pub fn commits(&self) -> &[Commit]
        ensures { result.now ≡ self.now.state.book.commits }
    {
        self.commits.as_slice()
    }

    /// How many commits are acknowledged: the first so many of them.
    pub fn acked_count(&self) -> u32
        ensures { result ≡ self.now.state.acked }
    {
        self.acked
    }

    // Whether one more submission may be in flight.
    fn has_room(&self) -> bool
        ensures { result ≡ nat_lt (length self.now.state.flying) (D.disk self.now.device).depth }
    {
        self.flying.len() < self.device.depth() as usize
    }

    // Whether a step is ready where the kernel isn't down.
    fn ready_up(&self, step: Step) -> bool
        ensures { result ≡ is_ready_up step (D.disk self.now.device).depth self.now.state }
    {
        match step {
            Step::Data => self.contexts.has_unsent() && self.has_room(),
            Step::Reap => !self.flying.is_empty(),
            Step::Take => self.is_free() && self.contexts.has_done(),
            Step::Flush => self.first_not_sent() && self.has_room(),
            Step::Seal => self.batch.is_some() && self.meta.is_idle(),
            Step::Record => self.first_flushed() && self.meta.has_piece_left() && self.has_room(),
            Step::Sync => self.second_not_sent() && self.meta.is_written() && self.has_room(),
            Step::Commit => self.second_flushed(),
            Step::Finish => (self.acked as usize) < self.applied(),
            Step::CheckWrite => self.meta.has_check_left() && self.has_room(),
            Step::CheckFlush => {
                self.check_not_flushed() && self.meta.is_check_written() && self.has_room()
            }
            Step::SlotWrite => self.slot_not_sent() && self.has_room(),
            Step::SlotFlush => self.slot_not_flushed() && self.has_room(),
            Step::Switch => self.slot_flushed(),
        }
    }

    /// Whether a step is ready: what the table of steps says.
    pub fn ready(&self, step: Step) -> bool
        ensures { result ≡ is_ready step (D.disk self.now.device).depth self.now.state }
    {
        match self.down {
            Some(_) => step == Step::Reap && !self.flying.is_empty(),
            None => self.ready_up(step),
        }
    }

    // Whether a step is ready.
    fn any_ready(&self) -> bool
        ensures { result ≡ list_any (λ step. is_ready step (D.disk self.now.device).depth self.now.state) all_steps }
    {
        ALL_STEPS.iter().any(|step| self.ready(*step))
    }

    /// Whether no step is ready.
    pub fn drained(&self) -> bool
        ensures { result ≡ is_drained (D.disk self.now.device).depth self.now.state }
    {
        !self.any_ready()
    }

    // Whether neither a batch nor a switch of halves is under way.
    fn is_free(&self) -> bool
        ensures { result ≡ (is_none self.now.state.batch && is_none self.now.state.switching) }
    {
        self.batch.is_none() && self.switching.is_none()
    }

    fn first_not_sent(&self) -> bool
        ensures { result ≡ batch_is (λ b. is_not_sent b.first) self.now.state }
    {
        match &self.batch {
            Some(open) => not_sent(open.first),
            None => false,
        }
    }

    fn first_flushed(&self) -> bool
        ensures { result ≡ batch_is (λ b. is_flushed b.first) self.now.state }
    {
        match &self.batch {
            Some(open) => flushed(open.first),
            None => false,
        }
    }

    fn second_not_sent(&self) -> bool
        ensures { result ≡ batch_is (λ b. is_not_sent b.second) self.now.state }
    {
        match &self.batch {
            Some(open) => not_sent(open.second),
            None => false,
        }
    }

    fn second_flushed(&self) -> bool
        ensures { result ≡ batch_is (λ b. is_flushed b.second) self.now.state }
    {
        match &self.batch {
            Some(open) => flushed(open.second),
            None => false,
        }
    }

    // How many commits are applied to the committed rows.
    fn applied(&self) -> usize
        ensures { result ≡ applied_count self.now.state }
    {
        match &self.batch {
            Some(open) => self.commits.len().saturating_sub(open.len()),
            None => self.commits.len(),
        }
    }

    /// Does a ready step. Those that submit, and `Take` and `Seal`, take memory; where it runs out nothing is done.
    pub fn step(&mut self, alloc: Global, step: Step) -> Result<(), StepFail>
        requires { is_ready step (D.disk self.old.device).depth self.old.state ≡ true }
        ensures ok { OnOk result (Does step self.old.state (D.disk self.old.device) self.new.state (D.disk self.new.device)) }
        ensures fault { IsErrOf result StepFail.Fault → (step ≡ Reap)
            × Takes self.old.state (D.disk self.old.device) false self.new.state (D.disk self.new.device)
            × Rose (D.faults self.old.device) (D.faults self.new.device) }
        ensures memory { IsErrOf result StepFail.Memory → TakesMemory step × (self.new.state ≡ self.old.state)
            × (D.disk self.new.device ≡ D.disk self.old.device) }
        ensures later { D.faults self.old.device ≤ D.faults self.new.device }
        ensures kept { IsKept self.new.state (D.disk self.new.device) }
    {
        let made = self.do_step(alloc, step);
        self.facts();
        made
    }

    // Does a ready step.
    fn do_step(&mut self, alloc: Global, step: Step) -> Result<(), StepFail>
        requires { is_ready step (D.disk self.old.device).depth self.old.state ≡ true }
        ensures ok { OnOk result (Does step self.old.state (D.disk self.old.device) self.new.state (D.disk self.new.device)) }
        ensures fault { IsErrOf result StepFail.Fault → (step ≡ Reap)
            × Takes self.old.state (D.disk self.old.device) false self.new.state (D.disk self.new.device)
            × Rose (D.faults self.old.device) (D.faults self.new.device) }
        ensures memory { IsErrOf result StepFail.Memory → TakesMemory step × (self.new.state ≡ self.old.state)
            × (D.disk self.new.device ≡ D.disk self.old.device) }
        ensures later { D.faults self.old.device ≤ D.faults self.new.device }
    {
        match step {
            Step::Data => self.send_data(alloc),
            Step::Reap => self.take_end(),
            Step::Take => self.take_next(alloc),
            Step::Flush => self.send_flush(),
            Step::Seal => self.seal(alloc),
            Step::Record => self.send_record(alloc),
            Step::Sync => self.send_sync(),
            Step::Commit => {
                self.commit();
                Ok(())
            }
            Step::Finish => {
                self.finish();
                Ok(())
            }
            Step::CheckWrite => self.send_check(alloc),
            Step::CheckFlush => self.send_check_flush(),
            Step::SlotWrite => self.send_slot(alloc),
            Step::SlotFlush => self.send_slot_flush(),
            Step::Switch => {
                self.switch_halves();
                Ok(())
            }
        }
    }
}
