//! Good ends of submissions, counted where each belongs.
ghost use Rattle.std.specs.Prelude.{◌≡◌, ℕ, ◌+◌, ◌≤◌, IfSome};
ghost use Rattle.meta_store.specs.Store.{IsPieceOut};
ghost use Rattle.meta_store.specs.Checks.{IsCheckOut};
ghost use Rattle.waiting_contexts.specs.Places.{context_at};
ghost use Rattle.store_kernel.specs.Ends.{contexts_after, batch_after, switching_after, meta_after};

use crate::batch::{OpenBatch, set_first, set_second};
use crate::switching::{set_flush, set_slot, set_slot_flush};
use meta_store::MetaStore;
use store_steps::{FlushState, Job, Switching};
use waiting_contexts::Contexts;

/// A submission for this job has ended well.
pub fn count_end(
    job: Job,
    contexts: &mut Contexts,
    batch: &mut Option<OpenBatch>,
    switching: &mut Option<Switching>,
    meta: &mut MetaStore,
)
    requires given { (place count : ℕ) → job ≡ Job.Data place count → IfSome (context_at place contexts.old) (λ x. x.done + count ≤ x.given) }
    requires out { job ≡ Job.Record → IsPieceOut meta.old }
    requires check_out { job ≡ Job.Check → IsCheckOut meta.old }
    ensures contexts { contexts.new ≡ contexts_after job contexts.old }
    ensures batch { batch.new ≡ batch_after job batch.old }
    ensures switching { switching.new ≡ switching_after job switching.old }
    ensures meta { meta.new ≡ meta_after job meta.old }
{
    match job {
        Job::Data { place, count } => contexts.done(place, count),
        Job::DataFlush => set_first(batch, FlushState::Flushed),
        Job::Record => meta.written(),
        Job::RecordFlush => set_second(batch, FlushState::Flushed),
        Job::Check => meta.check_written(),
        Job::CheckFlush => set_flush(switching, FlushState::Flushed),
        Job::Slot => set_slot(switching, FlushState::Flushed),
        Job::SlotFlush => set_slot_flush(switching, FlushState::Flushed),
    }
}
