//! A transaction whose data is written.
ghost use Rattle.std.specs.Prelude.{◌≡◌};
ghost use Rattle.txn_states.specs.States.{IsWritten, committed_of};

use crate::committed::Committed;
use meta_rows::RowOp;
use plan_rows::FreshUnit;
use std::marker::Model;
use store_steps::Context;
use unit_fields::UnitNo;

/// A transaction all of whose data writes have ended well, on its way into the log. A clause sees its context. (Ceph's STATE_KV_QUEUED.)
#[derive(Drop)]
pub struct Queued {
    context: Context,
}

impl Model for Queued {
    ghost use Rattle.store_steps.specs.declared.context.Context.{Context};

    ghost Value = { Context };

    ghost use Rattle.txn_states.specs.States.{IsWritten};

    ghost view = { λ a. a.context };

    ghost invariant = { λ a. IsWritten a.context };
}

impl Queued {
    pub(crate) fn of(context: Context) -> Queued
        requires { IsWritten context }
        ensures { result ≡ context }
    {
        Queued { context }
    }

    /// All its units were submitted, and have reached the device.
    pub fn facts(&self)
        ensures { IsWritten self.now }
    {
        let _ = &self.context;
    }

    /// The place of its entry in the book.
    pub fn place(&self) -> u32
        ensures { result ≡ self.now.place }
    {
        self.context.place
    }

    /// The row operations that its commit applies.
    pub fn ops(&self) -> &[RowOp]
        ensures { result.now ≡ self.now.ops }
    {
        self.context.ops.as_slice()
    }

    /// The units that it took, with their bytes.
    pub fn fresh(&self) -> &[FreshUnit]
        ensures { result.now ≡ self.now.fresh }
    {
        self.context.fresh.as_slice()
    }

    /// The units of the log that are reserved for a record of these operations.
    pub fn need(&self) -> u32
        ensures { result ≡ self.now.need }
    {
        self.context.need
    }

    /// The units that come back to the free ones at its commit.
    pub fn released(&self) -> &[UnitNo]
        ensures { result.now ≡ self.now.released }
    {
        self.context.released.as_slice()
    }

    /// Its record is stable. Its operations are moved on, and no deferred row is left behind. (Ceph's `_txc_committed_kv`.)
    pub fn commit(self) -> Committed
        ensures { result ≡ committed_of self }
    {
        let context = self.context;
        let Context { place, ops, .. } = context;
        Committed::of(place, ops)
    }
}
