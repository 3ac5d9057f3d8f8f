//! Transactions whose records are stable.
ghost use Rattle.std.specs.Prelude.{◌≡◌, Some};
ghost use Rattle.txn_states.specs.Applied.{applied_of, without_row};
ghost use Rattle.txn_states.specs.After.{after_of};

use byte_maps::Items;
use meta_rows::RowOp;
use std::marker::Model;

/// A transaction whose record is stable. A clause sees its place, its row operations, and the number of its deferred row. (Ceph's
/// STATE_KV_DONE.)
#[derive(Drop)]
pub struct Committed {
    place: u32,
    ops: Items<RowOp>,
    deferred: Option<u64>,
}

/// A committed transaction whose deferred row is still among the rows: its deferred writes aren't stable yet. A clause sees what it sees
/// of a `Committed`. (Ceph's STATE_DEFERRED_QUEUED.)
#[derive(Drop)]
pub struct DeferredWait {
    committed: Committed,
}

/// A committed transaction without a deferred row. A clause sees what it sees of a `Committed`. (Ceph's STATE_DONE.)
#[derive(Drop)]
pub struct Finished {
    committed: Committed,
}

/// What comes after a commit.
#[derive(Drop)]
pub enum After {
    Finished(Finished),
    /// Its deferred row has to be dropped first.
    Deferred(DeferredWait),
}

impl Model for Committed {
    ghost use Rattle.txn_states.specs.Applied.{Applied};

    ghost Value = { Applied };

    ghost view = { λ a. record { place = a.place; ops = a.ops; deferred = a.deferred } };
}

impl Model for DeferredWait {
    ghost use Rattle.std.specs.Prelude.{◌≢◌, None};
    ghost use Rattle.txn_states.specs.Applied.{Applied};

    ghost Value = { Applied };

    ghost view = { λ a. a.committed };

    ghost invariant = { λ a. a.committed.deferred ≢ None };
}

impl Model for Finished {
    ghost use Rattle.std.specs.Prelude.{◌≡◌, None};
    ghost use Rattle.txn_states.specs.Applied.{Applied};

    ghost Value = { Applied };

    ghost view = { λ a. a.committed };

    ghost invariant = { λ a. a.committed.deferred ≡ None };
}

impl Committed {
    pub(crate) fn of(place: u32, ops: Items<RowOp>) -> Committed
        ensures { result ≡ applied_of place ops }
    {
        Committed {
            place,
            ops,
            deferred: None,
        }
    }

    /// The place of its entry in the book.
    pub fn place(&self) -> u32
        ensures { result ≡ self.now.place }
    {
        self.place
    }

    /// The row operations that its commit applied.
    pub fn ops(&self) -> &[RowOp]
        ensures { result.now ≡ self.now.ops }
    {
        self.ops.as_slice()
    }

    /// It is finished, or its deferred row has to be dropped first. (Ceph's `_txc_finish`, or `_deferred_queue`.)
    pub fn finish(self) -> After
        ensures { result ≡ after_of self }
    {
        if self.deferred.is_some() {
            After::Deferred(DeferredWait { committed: self })
        } else {
            After::Finished(Finished { committed: self })
        }
    }
}

impl DeferredWait {
    /// The place of its entry in the book.
    pub fn place(&self) -> u32
        ensures { result ≡ self.now.place }
    {
        self.committed.place()
    }

    /// The row operations that its commit applied.
    pub fn ops(&self) -> &[RowOp]
        ensures { result.now ≡ self.now.ops }
    {
        self.committed.ops()
    }

    /// The number of its deferred row.
    pub fn row(&self) -> u64
        ensures { self.now.deferred ≡ Some result }
    {
        match self.committed.deferred {
            Some(number) => number,
            None => unreachable!(),
        }
    }

    /// The deferred row was dropped. (Ceph's STATE_DEFERRED_DONE.)
    pub fn row_dropped(self) -> Finished
        ensures { result ≡ without_row self }
    {
        let Committed { place, ops, .. } = self.committed;
        Finished {
            committed: Committed::of(place, ops),
        }
    }
}

impl Finished {
    /// The place of its entry in the book.
    pub fn place(&self) -> u32
        ensures { result ≡ self.now.place }
    {
        self.committed.place()
    }

    /// The row operations that its commit applied.
    pub fn ops(&self) -> &[RowOp]
        ensures { result.now ≡ self.now.ops }
    {
        self.committed.ops()
    }
}
