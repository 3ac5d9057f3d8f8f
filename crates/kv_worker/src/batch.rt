//! The batch, and its way into the log.
ghost use Rattle.std.specs.Prelude.{◌≡◌, ◌-◌, ◌≤◌, ◌++◌, length, map, OnOk, OnErr, IfOk, IfErr};
ghost use Rattle.std.specs.List.{flat_map};
ghost use Rattle.meta_store.specs.Store.{with_begun};
ghost use Rattle.store_steps.specs.Prelude.{most_grouped, choice, sum_needs, log_after};
ghost use Rattle.txn_states.specs.States.{committed_of};
ghost use Rattle.waiting_contexts.specs.Choices.{IsChoiceOf};
ghost use Rattle.kv_worker.specs.Batches.{flushed_batch, ops_of_batch, TakesBatch, CanSeal, CanCommit};

use byte_maps::Duplicate;
use meta_log::SealedRecord;
use meta_rows::RowOp;
use meta_store::MetaStore;
use std::alloc::{AllocError, Global};
use std::marker::Model;
use txn_states::Queued;
use waiting_contexts::{Choice, Contexts};

// The most transactions of a batch.
const MOST_GROUPED: u32 = 64;

/// What one record of the log is made of: up to 64 transactions. A clause sees their contexts.
#[derive(Drop)]
pub struct Batch {
    queued: Vec<Queued>,
}

/// A batch whose record is begun in the metadata store. A clause sees the contexts of its transactions.
#[derive(Drop)]
pub struct SealedBatch {
    queued: Vec<Queued>,
}

/// A batch whose record is stable. A clause sees what it sees of each `Committed`.
#[derive(Drop)]
pub struct CommittedBatch {
    queued: Vec<Queued>,
}

impl Model for Batch {
    ghost use Rattle.std.specs.Prelude.{List};
    ghost use Rattle.store_steps.specs.declared.context.Context.{Context};

    ghost Value = { List Context };

    ghost view = { λ a. a.queued.items };
}

impl Model for SealedBatch {
    ghost use Rattle.std.specs.Prelude.{List};
    ghost use Rattle.store_steps.specs.declared.context.Context.{Context};

    ghost Value = { List Context };

    ghost view = { λ a. a.queued.items };
}

impl Model for CommittedBatch {
    ghost use Rattle.std.specs.Prelude.{List, map};
    ghost use Rattle.txn_states.specs.Applied.{Applied};
    ghost use Rattle.txn_states.specs.States.{committed_of};

    ghost Value = { List Applied };

    ghost view = { λ a. map committed_of a.queued.items };
}

// Appends a copy of these operations. They become rows, so that memory that they take is needed then.
fn push_copies(alloc: Global, list: &mut Vec<RowOp>, ops: &[RowOp]) -> Result<(), AllocError>
    ensures { OnOk result (list.new.items ≡ list.old.items ++ ops.now) }
{
    for op in ops {
        list.push(op.duplicate(alloc)?)?;
    }
    Ok(())
}

// The operations of transactions, one behind the other.
fn joined(alloc: Global, queued: &[Queued]) -> Result<Vec<RowOp>, AllocError>
    ensures { IfOk result (λ ops. ops.items ≡ flat_map (λ x. x.ops) queued.now) }
{
    let mut ops = Vec::new(alloc);
    for one in queued {
        push_copies(alloc, &mut ops, one.ops())?;
    }
    Ok(ops)
}

// The units of the log that these transactions had reserved are used.
fn use_up(queued: &[Queued], meta: &mut MetaStore)
    requires { sum_needs queued.now ≤ meta.old.reserved }
    ensures { meta.new ≡ record meta.old { reserved = meta.old.reserved - sum_needs queued.now } }
{
    for one in queued {
        meta.release(one.need());
    }
}

impl Batch {
    /// The transactions of the batch, in the order of their commits.
    pub fn queued(&self) -> &[Queued]
        ensures { result.now ≡ self.now }
    {
        self.queued.as_slice()
    }

    /// How many transactions it is of.
    pub fn len(&self) -> usize
        ensures { result ≡ length self.now }
    {
        self.queued.len()
    }

    /// Makes the batch's record, of the operations of all its transactions under the store's next number, and begins to write it. Where memory
    /// runs out the batch comes back, and the store is as it was. (Ceph: the write batch that `_kv_sync_thread` submits.)
    pub fn seal(self, alloc: Global, meta: &mut MetaStore) -> Result<SealedBatch, Batch>
        requires { CanSeal self meta.old }
        ensures begun { OnOk result (meta.new ≡ with_begun meta.old (ops_of_batch self)) }
        ensures same { IfOk result (λ sealed. sealed ≡ self) }
        ensures err { OnErr result (meta.new ≡ meta.old) }
        ensures back { IfErr result (λ back. back ≡ self) }
    {
        let number = meta.next_number();
        let Ok(ops) = joined(alloc, self.queued.as_slice()) else {
            return Err(self);
        };
        let Ok(sealed) = SealedRecord::seal(alloc, number, ops) else {
            return Err(self);
        };
        match meta.begin(sealed) {
            Ok(()) => Ok(SealedBatch {
                queued: self.queued,
            }),
            Err(_) => Err(self),
        }
    }
}

/// What the batch that comes next would take: up to 64 transactions whose data writes have all ended and before which none of their
/// collections waits that isn't taken too. All stay.
pub fn choose_batch(alloc: Global, contexts: &mut Contexts) -> Result<Choice, AllocError>
    ensures same { contexts.new ≡ contexts.old }
    ensures chosen { IfOk result (IsChoiceOf (choice most_grouped contexts.old)) }
{
    contexts.choose(alloc, MOST_GROUPED)
}

/// Takes the batch that comes next, which is of so many transactions. Where memory runs out all stay. (Ceph: what `_kv_sync_thread` takes out
/// of its queue.)
pub fn take_batch(alloc: Global, contexts: &mut Contexts, count: u32) -> Result<Batch, AllocError>
    requires { count ≡ length (choice most_grouped contexts.old) }
    ensures ok { IfOk result (TakesBatch contexts.old contexts.new) }
    ensures err { OnErr result (contexts.new ≡ contexts.old) }
{
    let mut queued = Vec::with_capacity(alloc, count as usize)?;
    contexts.take(count, &mut queued);
    Ok(Batch { queued })
}

impl SealedBatch {
    /// The transactions of the batch, in the order of their commits.
    pub fn queued(&self) -> &[Queued]
        ensures { result.now ≡ self.now }
    {
        self.queued.as_slice()
    }

    /// How many transactions it is of.
    pub fn len(&self) -> usize
        ensures { result ≡ length self.now }
    {
        self.queued.len()
    }
}

/// The batch's record is stable: its operations are applied to the committed rows, and the units of the log that its transactions had
/// reserved are used. Nothing else is applied.
pub fn commit(sealed: SealedBatch, meta: &mut MetaStore) -> CommittedBatch
    requires { CanCommit sealed meta.old }
    ensures log { meta.new ≡ log_after (flushed_batch sealed) meta.old }
    ensures committed { result ≡ map committed_of sealed }
{
    meta.flushed();
    use_up(sealed.queued.as_slice(), meta);
    CommittedBatch {
        queued: sealed.queued,
    }
}
