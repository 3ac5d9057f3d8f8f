//! The open batch, and how far its record and its flushes are.
ghost use Rattle.std.specs.Prelude.{◌≡◌, length};
ghost use Rattle.std.specs.Option.{option_map};
ghost use Rattle.store_steps.specs.Prelude.{is_not_sent};
ghost use Rattle.store_steps.specs.Ready.{is_flushed};
ghost use Rattle.store_kernel.specs.Seen.{contexts_of};
ghost use Rattle.store_kernel.specs.Ends.{with_first, with_second};

use kv_worker::{Batch, SealedBatch};
use store_steps::FlushState;

/// Whether a batch's record is made.
#[derive(Drop)]
pub enum Stage {
    Taken(Batch),
    Sealed(SealedBatch),
}

/// A batch on its way to the log. (In Ceph it is what one round of the thread that syncs the log takes.)
#[derive(Drop)]
pub struct OpenBatch {
    pub stage: Stage,
    /// The flush of the data writes, before the record is written.
    pub first: FlushState,
    /// The flush of the record.
    pub second: FlushState,
}

impl OpenBatch {
    /// How many transactions it is of.
    pub fn len(&self) -> usize
        ensures { result ≡ length (contexts_of self.now.stage) }
    {
        match &self.stage {
            Stage::Taken(batch) => batch.len(),
            Stage::Sealed(batch) => batch.len(),
        }
    }
}

/// Whether a flush isn't submitted yet.
pub fn not_sent(flush: FlushState) -> bool
    ensures { result ≡ is_not_sent flush }
{
    match flush {
        FlushState::NotSent => true,
        FlushState::Sent(_) | FlushState::Flushed => false,
    }
}

/// Whether a flush has ended well.
pub fn flushed(flush: FlushState) -> bool
    ensures { result ≡ is_flushed flush }
{
    match flush {
        FlushState::Flushed => true,
        FlushState::NotSent | FlushState::Sent(_) => false,
    }
}

/// The first flush of the batch, if one is open, is so far.
pub fn set_first(batch: &mut Option<OpenBatch>, state: FlushState)
    ensures { batch.new ≡ option_map (with_first state) batch.old }
{
    match batch {
        Some(open) => open.first = state,
        None => {}
    }
}

/// The second one is.
pub fn set_second(batch: &mut Option<OpenBatch>, state: FlushState)
    ensures { batch.new ≡ option_map (with_second state) batch.old }
{
    match batch {
        Some(open) => open.second = state,
        None => {}
    }
}
