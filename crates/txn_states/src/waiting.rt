//! A transaction whose data writes are under way.
ghost use Rattle.std.specs.Prelude.{◌≡◌, ◌+◌, ◌≤◌, true, is_some, length, IfOk};
ghost use Rattle.store_steps.specs.Prelude.{unsent, is_done, given_more, done_more};
ghost use Rattle.txn_states.specs.States.{IsUnderWay};
ghost use Rattle.txn_states.specs.Writes.{IsWrite};

use crate::next_write::{NextWrite, next_write};
use crate::queued::Queued;
use meta_rows::RowOp;
use plan_rows::FreshUnit;
use std::alloc::{AllocError, Global};
use std::marker::Model;
use store_steps::Context;

/// A transaction whose data writes are under way: some may not be submitted yet, some may be in flight. A clause sees its context. (Ceph's
/// STATE_AIO_WAIT.)
#[derive(Drop)]
pub struct Waiting {
    context: Context,
}

impl Model for Waiting {
    ghost use Rattle.store_steps.specs.declared.context.Context.{Context};

    ghost Value = { Context };

    ghost use Rattle.txn_states.specs.States.{IsUnderWay};

    ghost view = { λ a. a.context };

    ghost invariant = { λ a. IsUnderWay a.context };
}

impl Waiting {
    pub(crate) fn of(context: Context) -> Waiting
        requires { IsUnderWay context }
        ensures { result ≡ context }
    {
        Waiting { context }
    }

    /// What each transaction keeps on its way: no more writes have ended than were submitted, and no more were submitted than there are.
    pub fn facts(&self)
        ensures { IsUnderWay self.now }
    {
        let _ = &self.context;
    }

    /// The place of its entry in the book.
    pub fn place(&self) -> u32
        ensures { result ≡ self.now.place }
    {
        self.context.place
    }

    /// The name of the collection that it changes.
    pub fn coll(&self) -> &[u8]
        ensures { result.now ≡ self.now.coll }
    {
        self.context.coll.as_slice()
    }

    /// The row operations that its commit applies.
    pub fn ops(&self) -> &[RowOp]
        ensures { result.now ≡ self.now.ops }
    {
        self.context.ops.as_slice()
    }

    /// The units that it took, with their bytes.
    pub fn fresh(&self) -> &[FreshUnit]
        ensures { result.now ≡ self.now.fresh }
    {
        self.context.fresh.as_slice()
    }

    /// The units of the log that are reserved for a record of its operations.
    pub fn need(&self) -> u32
        ensures { result ≡ self.now.need }
    {
        self.context.need
    }

    /// Whether a data write isn't submitted yet.
    pub fn has_unsent(&self) -> bool
        ensures { result ≡ is_some (unsent self.now) }
    {
        (self.context.given as usize) < self.context.fresh.len()
    }

    /// The data write that is submitted next: as many units as follow one another, 64 at most.
    pub fn next_write(&self, alloc: Global) -> Result<NextWrite, AllocError>
        requires { is_some (unsent self.now) ≡ true }
        ensures { IfOk result (IsWrite (unsent self.now)) }
    {
        next_write(alloc, &self.context)
    }

    /// A data write of so many units was submitted.
    pub fn submitted(&mut self, count: u32)
        requires { self.old.given + count ≤ length self.old.fresh }
        ensures { self.new ≡ given_more count self.old }
    {
        self.context.given += count;
    }

    /// The write of so many units has ended well.
    pub fn done(&mut self, count: u32)
        requires { self.old.done + count ≤ self.old.given }
        ensures { self.new ≡ done_more count self.old }
    {
        self.context.done += count;
    }

    /// Whether all its data writes have ended well.
    pub fn is_done(&self) -> bool
        ensures { result ≡ is_done self.now }
    {
        self.context.done as usize == self.context.fresh.len()
    }

    /// It may be taken for a batch now. (Ceph's `_txc_finish_io`.)
    pub fn queue(self) -> Queued
        requires { is_done self ≡ true }
        ensures { result ≡ self }
    {
        Queued::of(self.context)
    }
}
