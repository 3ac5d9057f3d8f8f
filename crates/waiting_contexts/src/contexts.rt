//! The transactions whose data writes are under way.
//!
//! A transaction's state is a type, so that none is committed whose writes haven't ended. Contexts stand by place in a map, the newest
//! beside it, their collections' turns in sequencers under the names, the places with unsent writes in a queue, and those that a batch
//! may take in a heap: so no call searches what waits. Where one transaction waits at a time, as with a client that waits for each, the
//! map isn't touched. A collection's sequencer stays for the mount once it had a context, as a loaded collection of Ceph keeps its own:
//! making and dropping one with each transaction cost more than all look-ups. Room in the heap is made when a context comes, and no end
//! of a write takes memory. The parts are crates of their own (`txn_states`, `op_sequencer`, `waiting_contexts`, `kv_worker`), so that
//! the kernel's proof has their clauses and not their bodies.
ghost use Rattle.std.specs.Prelude.{◌≡◌, ℕ, ◌+◌, ◌==◌, ◌<◌, ◌≤◌, ◌++◌, ◌∷◌, List, [], true, false, is_some, length, option_copied, Some, IfOk, IfErr, IfSome, OnOk, OnErr, if◌then◌else◌};
ghost use Rattle.std.specs.Option.{option_map_or};
ghost use Rattle.std.specs.Vec.{vec_len, vec_capacity};
ghost use Rattle.store_steps.specs.Prelude.{chosen, choice, left_by, next_unsent, with_context, without_context, given_more, done_more};
ghost use Rattle.txn_states.specs.Writes.{IsWrite};
ghost use Rattle.waiting_contexts.specs.Places.{IsAboveAll, context_at};
ghost use Rattle.waiting_contexts.specs.Unsent.{IsOfNext};
ghost use Rattle.waiting_contexts.specs.Choices.{IsChoiceOf};
ghost use Rattle.waiting_contexts.specs.Heads.{count_of};
ghost use Rattle.waiting_contexts.specs.Ties.{is_head, HaveTurnsOf};

use crate::choosing::{Choice, choose};
use crate::done_heads::DoneHeads;
use crate::sequencers::Sequencers;
use crate::submissions::Submissions;
use std::alloc::{AllocError, Global};
use std::marker::Model;
use txn_states::{NextWrite, Queued, Waiting};

/// The transactions whose data writes are under way, seen as the list of their contexts by place.
///
/// No call goes over them: each goes down a path of a map or of a heap. Now and then `push` moves a queue or the heap to larger memory.
#[derive(Drop)]
pub struct Contexts {
    submissions: Submissions,
    // their turns, by collection
    sequencers: Sequencers,
    // the places of those that a batch may take: done, and first in their collections
    heads: DoneHeads,
}

impl Model for Contexts {
    ghost use Rattle.std.specs.Prelude.{List};
    ghost use Rattle.store_steps.specs.declared.context.Context.{Context};

    ghost Value = { List Context };

    ghost use Rattle.waiting_contexts.specs.Ties.{IsTied};

    ghost view = { λ a. a.submissions };

    ghost invariant = { λ a. IsTied a.submissions a.sequencers a.heads };
}

// A context waits behind the others, and its turn behind those of its collection. It tells whether a batch may take it. Where memory runs out
// it comes back, and nobody has come.
fn enter(
    alloc: Global,
    submissions: &mut Submissions,
    sequencers: &mut Sequencers,
    context: Waiting,
) -> Result<bool, Waiting>
    requires above { IsAboveAll context.place submissions.old }
    requires tied { HaveTurnsOf submissions.old sequencers.old }
    ensures ok { OnOk result (submissions.new ≡ submissions.old ++ context ∷ []) }
    ensures ready { IfOk result (λ ready. ready ≡ is_head context.place submissions.new) }
    ensures err { OnErr result (submissions.new ≡ submissions.old) }
    ensures back { IfErr result (λ back. back ≡ context) }
    ensures tied { HaveTurnsOf submissions.new sequencers.new }
{
    let place = context.place();
    let is_done = context.is_done();
    submissions.push(context)?;
    let Some(added) = submissions.get(place) else {
        unreachable!();
    };
    match sequencers.push(alloc, added.coll(), place, is_done) {
        Ok(ready) => Ok(ready),
        Err(_) => Err(submissions.withdraw(place)),
    }
}

// The place of a context comes among the heads, if a batch may take it.
fn settle(heads: &mut DoneHeads, place: u32, is_ready: bool)
    requires { length heads.old.places < heads.old.room }
    ensures places { (q : ℕ) → count_of q heads.new.places
        ≡ count_of q (if is_ready then place ∷ heads.old.places else heads.old.places) }
    ensures room { heads.old.room ≤ heads.new.room }
{
    if is_ready {
        heads.push(place);
    }
}

// The place of the first context of a collection comes among the heads, if it is done.
fn advance(heads: &mut DoneHeads, next: Option<u32>)
    requires { length heads.old.places < heads.old.room }
    ensures places { (q : ℕ) → count_of q heads.new.places
        ≡ (if option_map_or (λ p. p == q) next false then 1 else 0) + count_of q heads.old.places }
    ensures room { heads.old.room ≤ heads.new.room }
{
    if let Some(place) = next {
        heads.push(place);
    }
}

impl Contexts {
    /// Nobody waits. It takes no memory.
    pub fn new(alloc: Global) -> Contexts
        ensures { result ≡ [] }
    {
        Contexts {
            submissions: Submissions::new(alloc),
            sequencers: Sequencers::new(alloc),
            heads: DoneHeads::new(alloc),
        }
    }

    /// A transaction waits behind all others. Where memory runs out it comes back.
    pub fn push(&mut self, alloc: Global, context: Waiting) -> Result<(), Waiting>
        requires { IsAboveAll context.place self.old }
        ensures ok { OnOk result (self.new ≡ self.old ++ context ∷ []) }
        ensures err { OnErr result (self.new ≡ self.old) }
        ensures back { IfErr result (λ back. back ≡ context) }
    {
        let most = self.submissions.most() + 1;
        let Ok(()) = self.heads.make_room(most) else {
            return Err(context);
        };
        let place = context.place();
        match enter(alloc, &mut self.submissions, &mut self.sequencers, context) {
            Ok(is_ready) => {
                settle(&mut self.heads, place, is_ready);
                Ok(())
            }
            Err(back) => Err(back),
        }
    }

    /// The context at a place, lent.
    pub fn get(&self, place: u32) -> Option<&Waiting>
        ensures { option_copied result ≡ context_at place self.now }
    {
        self.submissions.get(place)
    }

    /// Whether a data write isn't submitted yet.
    pub fn has_unsent(&self) -> bool
        ensures { result ≡ is_some (next_unsent self.now) }
    {
        self.submissions.has_unsent()
    }

    /// The data write that is submitted next: that of the context of least place that has one left.
    pub fn next_write(&self, alloc: Global) -> Result<NextWrite, AllocError>
        requires { is_some (next_unsent self.now) ≡ true }
        ensures { IfOk result (IsWrite (next_unsent self.now)) }
    {
        self.submissions.next_write(alloc)
    }

    /// The next data write was submitted, or so many of its first units.
    pub fn submitted(&mut self, place: u32, count: u32)
        requires { IsOfNext place count (next_unsent self.old) }
        ensures { self.new ≡ with_context place (given_more count) self.old }
    {
        self.submissions.facts();
        self.submissions.submitted(place, count);
    }

    /// So many more units of the context at this place have reached the device. (Ceph's `aio_finish`.)
    pub fn done(&mut self, place: u32, count: u32)
        requires { IfSome (context_at place self.old) (λ x. x.done + count ≤ x.given) }
        ensures { self.new ≡ with_context place (done_more count) self.old }
    {
        self.submissions.facts();
        if !self.submissions.done(place, count) {
            return;
        }
        let Some(context) = self.submissions.get(place) else {
            unreachable!();
        };
        let is_ready = self.sequencers.io_done(context.coll(), place);
        settle(&mut self.heads, place, is_ready);
    }

    /// Whether a batch can take one.
    pub fn has_done(&self) -> bool
        ensures { result ≡ is_some (chosen self.now) }
    {
        self.submissions.facts();
        !self.heads.is_empty()
    }

    /// What a batch of at most so many contexts would take. All stay.
    pub fn choose(&mut self, alloc: Global, most: u32) -> Result<Choice, AllocError>
        ensures same { self.new ≡ self.old }
        ensures chosen { IfOk result (IsChoiceOf (choice most self.old)) }
    {
        choose(
            alloc,
            &self.submissions,
            &self.sequencers,
            &mut self.heads,
            most,
        )
    }

    /// Takes so many contexts, each of which comes next among those left, into a list that has the room.
    pub fn take(&mut self, count: u32, list: &mut Vec<Queued>)
        requires there { length (choice count self.old) ≡ count }
        requires room { vec_len list.old + count ≤ vec_capacity list.old }
        ensures taken { list.new.items ≡ list.old.items ++ choice count self.old }
        ensures left { self.new ≡ left_by count self.old }
    {
        for _ in 0..count {
            let queued = self.take_chosen();
            list.push_reserved(queued);
        }
    }

    /// Takes the context that the next batch is of. (Ceph's `_txc_finish_io` queues it.)
    pub fn take_chosen(&mut self) -> Queued
        requires { is_some (chosen self.old) ≡ true }
        ensures taken { chosen self.old ≡ Some result }
        ensures left { self.new ≡ without_context result.place self.old }
    {
        self.submissions.facts();
        let Some(place) = self.heads.pop() else {
            unreachable!();
        };
        let Some(context) = self.submissions.take(place) else {
            unreachable!();
        };
        let next = self.sequencers.pop_ready(context.coll());
        advance(&mut self.heads, next);
        context.queue()
    }
}
