//! The steps, one by one. Each has at most one event of the device.
ghost use Rattle.std.specs.Prelude.{◌≡◌, ℕ, ◌+◌, ◌≤◌, ◌++◌, true, false, length, map, None, is_some, IsTrue, OnOk, IfErr, if◌then◌else◌};
ghost use Rattle.std.specs.List.{flat_map};
ghost use Rattle.std.specs.Vec.{vec_len, vec_capacity};
ghost use Rattle.unit_allocator.specs.Prelude.{given};
ghost use Rattle.write_buffers.specs.Prelude.{memory_in};
ghost use Rattle.block_device.specs.Prelude.{Rose};
ghost use Rattle.store_steps.specs.Prelude.{most_grouped, choice, commit_of, all_fresh, bytes_in, is_ready, Takes, DoesData, DoesReap, OpensBatch, DoesTake, DoesFlush, DoesSeal, DoesRecord, DoesSync, DoesCommit, DoesFinish};
ghost use Rattle.store_steps.specs.declared.step.Step.TheVariants as step;
ghost use Rattle.waiting_contexts.specs.Choices.{IsChoiceOf};
ghost use Rattle.store_kernel.specs.Steps.{NextFits, NextIsTooLong};
ghost use Rattle.store_kernel.specs.Units.{CanBeGiven};

use super::Kernel;
use crate::batch::{OpenBatch, Stage, set_first, set_second};
use crate::buffers::let_go;
use crate::ends::count_end;
use crate::flights::{counting, land};
use crate::space::give_back;
use crate::step_fail::StepFail;
use block_device::Device;
use kv_worker::{choose_batch, commit, take_batch};
use meta_log::units_of_body;
use object_model::Commit;
use std::alloc::Global;
use store_steps::{FlushState, Flying, Job};
use txn_states::{NextWrite, Queued};
use unit_allocator::Allocator;
use waiting_contexts::Choice;
use write_buffers::WriteBuffers;

// Each of these transactions has its commit, which isn't acknowledged, in a list that has the room.
fn note_commits(commits: &mut Vec<Commit>, queued: &[Queued])
    requires { vec_len commits.old + length queued.now ≤ vec_capacity commits.old }
    ensures { commits.new.items ≡ commits.old.items ++ map commit_of queued.now }
{
    for one in queued {
        commits.push_reserved(Commit {
            place: one.place(),
            acked_at: None,
        });
    }
}

// What these transactions released is free, and reads find none of their units in memory any more.
fn free_units(space: &mut Allocator, buffers: &mut WriteBuffers, queued: &[Queued])
    requires { CanBeGiven (flat_map (λ x. x.released) queued.now) space.old }
    ensures space { space.new ≡ given space.old (flat_map (λ x. x.released) queued.now) }
    ensures buffers { (unit : ℕ) → memory_in buffers.new unit
        ≡ (if is_some (bytes_in (all_fresh queued.now) unit) then None else memory_in buffers.old unit) }
{
    for one in queued {
        give_back(space, one.released());
        let_go(buffers, one.fresh());
    }
}

impl<D: Device> Kernel<D> {
    pub(super) fn send_data(&mut self, alloc: Global) -> Result<(), StepFail>
        requires { is_ready step.Data (D.disk self.old.device).depth self.old.state ≡ true }
        ensures ok { OnOk result (DoesData self.old.state (D.disk self.old.device) self.new.state (D.disk self.new.device)) }
        ensures err { IfErr result (λ fail. (fail ≡ StepFail.Memory) × (self.new.state ≡ self.old.state)
            × (D.disk self.new.device ≡ D.disk self.old.device)) }
        ensures faults { D.faults self.new.device ≡ D.faults self.old.device }
    {
        let Ok(write) = self.contexts.next_write(alloc) else {
            return Err(StepFail::Memory);
        };
        let NextWrite {
            place,
            unit,
            count,
            bytes,
        } = write;
        if self.flying.reserve(1).is_err() {
            return Err(StepFail::Memory);
        }
        let Ok(ticket) = self.device.submit_write(unit.number(), bytes) else {
            return Err(StepFail::Memory);
        };
        self.contexts.submitted(place, count);
        self.flying.push_reserved(Flying {
            ticket,
            job: Job::Data { place, count },
        });
        self.events += 1;
        Ok(())
    }

    pub(super) fn take_end(&mut self) -> Result<(), StepFail>
        requires { is_ready step.Reap (D.disk self.old.device).depth self.old.state ≡ true }
        ensures ok { OnOk result (DoesReap self.old.state (D.disk self.old.device) self.new.state (D.disk self.new.device)) }
        ensures err { IfErr result (λ fail. (fail ≡ StepFail.Fault)
            × Takes self.old.state (D.disk self.old.device) false self.new.state (D.disk self.new.device)
            × Rose (D.faults self.old.device) (D.faults self.new.device)) }
        ensures later { D.faults self.old.device ≤ D.faults self.new.device }
    {
        let Some(done) = self.device.reap() else {
            return Ok(());
        };
        let landed = land(&mut self.flying, done.ticket);
        self.events += 1;
        if !done.ok {
            self.down = self.down.or(Some(done.ticket));
            return Err(StepFail::Fault);
        }
        if let Some(job) = counting(self.down, landed) {
            count_end(
                job,
                &mut self.contexts,
                &mut self.batch,
                &mut self.switching,
                &mut self.meta,
            );
        }
        Ok(())
    }

    // Whether the record of the transactions that come next fits behind the tail, whose operations are spelled in so many bytes.
    fn next_fits(&self, next: &Choice) -> bool
        requires ready { is_ready step.Take (D.disk self.now.device).depth self.now.state ≡ true }
        requires next { IsChoiceOf (choice most_grouped self.now.state.pending) next.now }
        ensures fits { IsTrue result → NextFits self.now.state }
        ensures too_long { result ≡ false → NextIsTooLong self.now.state }
    {
        let left = self.meta.sup().half - self.meta.tail();
        units_of_body(next.bytes) <= left as usize
    }

    pub(super) fn take_next(&mut self, alloc: Global) -> Result<(), StepFail>
        requires { is_ready step.Take (D.disk self.old.device).depth self.old.state ≡ true }
        ensures ok { OnOk result (DoesTake self.old.state (D.disk self.old.device) self.new.state (D.disk self.new.device)) }
        ensures err { IfErr result (λ fail. (fail ≡ StepFail.Memory) × (self.new.state ≡ self.old.state)
            × (D.disk self.new.device ≡ D.disk self.old.device)) }
        ensures faults { D.faults self.new.device ≡ D.faults self.old.device }
    {
        let Ok(next) = choose_batch(alloc, &mut self.contexts) else {
            return Err(StepFail::Memory);
        };
        if self.next_fits(&next) {
            self.take_batch(alloc, next.count)
        } else {
            self.open_check(alloc)
        }
    }

    fn take_batch(&mut self, alloc: Global, count: u32) -> Result<(), StepFail>
        requires ready { is_ready step.Take (D.disk self.old.device).depth self.old.state ≡ true }
        requires count { count ≡ length (choice most_grouped self.old.state.pending) }
        requires fits { NextFits self.old.state }
        ensures ok { OnOk result (OpensBatch self.old.state (D.disk self.old.device) self.new.state (D.disk self.new.device)) }
        ensures err { IfErr result (λ fail. (fail ≡ StepFail.Memory) × (self.new.state ≡ self.old.state)
            × (D.disk self.new.device ≡ D.disk self.old.device)) }
        ensures faults { D.faults self.new.device ≡ D.faults self.old.device }
    {
        if self.commits.reserve(count as usize).is_err() {
            return Err(StepFail::Memory);
        }
        let Ok(batch) = take_batch(alloc, &mut self.contexts, count) else {
            return Err(StepFail::Memory);
        };
        note_commits(&mut self.commits, batch.queued());
        drop(
            self.batch.replace(OpenBatch {
                stage: Stage::Taken(batch),
                first: FlushState::NotSent,
                second: FlushState::NotSent,
            }),
        );
        Ok(())
    }

    pub(super) fn send_flush(&mut self) -> Result<(), StepFail>
        requires { is_ready step.Flush (D.disk self.old.device).depth self.old.state ≡ true }
        ensures ok { OnOk result (DoesFlush self.old.state (D.disk self.old.device) self.new.state (D.disk self.new.device)) }
        ensures err { IfErr result (λ fail. (fail ≡ StepFail.Memory) × (self.new.state ≡ self.old.state)
            × (D.disk self.new.device ≡ D.disk self.old.device)) }
        ensures faults { D.faults self.new.device ≡ D.faults self.old.device }
    {
        if self.flying.reserve(1).is_err() {
            return Err(StepFail::Memory);
        }
        let Ok(ticket) = self.device.submit_flush() else {
            return Err(StepFail::Memory);
        };
        set_first(&mut self.batch, FlushState::Sent(ticket));
        self.flying.push_reserved(Flying {
            ticket,
            job: Job::DataFlush,
        });
        self.events += 1;
        Ok(())
    }

    pub(super) fn seal(&mut self, alloc: Global) -> Result<(), StepFail>
        requires { is_ready step.Seal (D.disk self.old.device).depth self.old.state ≡ true }
        ensures ok { OnOk result (DoesSeal self.old.state (D.disk self.old.device) self.new.state (D.disk self.new.device)) }
        ensures err { IfErr result (λ fail. (fail ≡ StepFail.Memory) × (self.new.state ≡ self.old.state)
            × (D.disk self.new.device ≡ D.disk self.old.device)) }
        ensures faults { D.faults self.new.device ≡ D.faults self.old.device }
    {
        let Some(open) = self.batch.take() else {
            unreachable!();
        };
        let OpenBatch {
            stage,
            first,
            second,
        } = open;
        let Stage::Taken(batch) = stage else {
            unreachable!();
        };
        match batch.seal(alloc, &mut self.meta) {
            Ok(sealed) => {
                drop(
                    self.batch.replace(OpenBatch {
                        stage: Stage::Sealed(sealed),
                        first,
                        second,
                    }),
                );
                Ok(())
            }
            Err(back) => {
                drop(
                    self.batch.replace(OpenBatch {
                        stage: Stage::Taken(back),
                        first,
                        second,
                    }),
                );
                Err(StepFail::Memory)
            }
        }
    }

    pub(super) fn send_record(&mut self, alloc: Global) -> Result<(), StepFail>
        requires { is_ready step.Record (D.disk self.old.device).depth self.old.state ≡ true }
        ensures ok { OnOk result (DoesRecord self.old.state (D.disk self.old.device) self.new.state (D.disk self.new.device)) }
        ensures err { IfErr result (λ fail. (fail ≡ StepFail.Memory) × (self.new.state ≡ self.old.state)
            × (D.disk self.new.device ≡ D.disk self.old.device)) }
        ensures faults { D.faults self.new.device ≡ D.faults self.old.device }
    {
        let Ok(found) = self.meta.next_piece(alloc) else {
            return Err(StepFail::Memory);
        };
        let Some(piece) = found else {
            unreachable!();
        };
        let (unit, bytes) = piece;
        if self.flying.reserve(1).is_err() {
            return Err(StepFail::Memory);
        }
        let Ok(ticket) = self.device.submit_write(unit.number(), bytes) else {
            return Err(StepFail::Memory);
        };
        self.meta.note_given();
        self.flying.push_reserved(Flying {
            ticket,
            job: Job::Record,
        });
        self.events += 1;
        Ok(())
    }

    pub(super) fn send_sync(&mut self) -> Result<(), StepFail>
        requires { is_ready step.Sync (D.disk self.old.device).depth self.old.state ≡ true }
        ensures ok { OnOk result (DoesSync self.old.state (D.disk self.old.device) self.new.state (D.disk self.new.device)) }
        ensures err { IfErr result (λ fail. (fail ≡ StepFail.Memory) × (self.new.state ≡ self.old.state)
            × (D.disk self.new.device ≡ D.disk self.old.device)) }
        ensures faults { D.faults self.new.device ≡ D.faults self.old.device }
    {
        if self.flying.reserve(1).is_err() {
            return Err(StepFail::Memory);
        }
        let Ok(ticket) = self.device.submit_flush() else {
            return Err(StepFail::Memory);
        };
        set_second(&mut self.batch, FlushState::Sent(ticket));
        self.flying.push_reserved(Flying {
            ticket,
            job: Job::RecordFlush,
        });
        self.events += 1;
        Ok(())
    }

    pub(super) fn commit(&mut self)
        requires { is_ready step.Commit (D.disk self.old.device).depth self.old.state ≡ true }
        ensures does { DoesCommit self.old.state (D.disk self.old.device) self.new.state (D.disk self.new.device) }
        ensures faults { D.faults self.new.device ≡ D.faults self.old.device }
    {
        let Some(open) = self.batch.take() else {
            unreachable!();
        };
        let Stage::Sealed(sealed) = open.stage else {
            unreachable!();
        };
        free_units(&mut self.space, &mut self.buffers, sealed.queued());
        drop(commit(sealed, &mut self.meta));
    }

    pub(super) fn finish(&mut self)
        requires { is_ready step.Finish (D.disk self.old.device).depth self.old.state ≡ true }
        ensures does { DoesFinish self.old.state (D.disk self.old.device) self.new.state (D.disk self.new.device) }
        ensures faults { D.faults self.new.device ≡ D.faults self.old.device }
    {
        let commit = &mut self.commits[self.acked as usize];
        commit.acked_at = Some(self.events);
        self.acked += 1;
    }
}
