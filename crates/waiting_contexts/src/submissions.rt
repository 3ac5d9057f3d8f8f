//! Which data write is submitted next.
ghost use Rattle.std.specs.Prelude.{◌≡◌, ◌+◌, ◌≤◌, ◌^◌, ◌++◌, ◌∷◌, [], true, not, is_some, length, option_copied, Some, IfOk, IfErr, IfSome, OnOk, OnErr};
ghost use mathlib.Core.Bool.{beq};
ghost use Rattle.store_steps.specs.Prelude.{next_unsent, is_done, with_context, without_context, given_more, done_more};
ghost use Rattle.txn_states.specs.Writes.{IsWrite};
ghost use Rattle.txn_states.specs.States.{IsUnderWay};
ghost use Rattle.waiting_contexts.specs.Places.{IsAboveAll, IsLastPlace, context_at, is_done_at};
ghost use Rattle.waiting_contexts.specs.Unsent.{PlacesAscend, IsOfNext};

use crate::by_place::ByPlace;
use std::alloc::{AllocError, Global};
use std::collections::VecDeque;
use std::marker::Model;
use txn_states::{NextWrite, Waiting};

/// Contexts by place, with the queue of those that have a data write which isn't submitted: the next one is at its front.
#[derive(Drop)]
pub struct Submissions {
    contexts: ByPlace,
    // their places, ascending
    unsent: VecDeque<u32>,
}

impl Model for Submissions {
    ghost use Rattle.std.specs.Prelude.{◌≡◌, List};
    ghost use Rattle.store_steps.specs.declared.context.Context.{Context};

    ghost Value = { List Context };

    ghost use Rattle.waiting_contexts.specs.Unsent.{unsent_places};

    ghost view = { λ a. a.contexts };

    ghost invariant = { λ a. a.unsent.items ≡ unsent_places a.contexts };
}

impl Submissions {
    /// No context. It takes no memory.
    pub fn new(alloc: Global) -> Submissions
        ensures { result ≡ [] }
    {
        Submissions {
            contexts: ByPlace::new(alloc),
            unsent: VecDeque::new(alloc),
        }
    }

    /// Adds a context behind all others. Where memory runs out it comes back.
    pub fn push(&mut self, context: Waiting) -> Result<(), Waiting>
        requires { IsAboveAll context.place self.old }
        ensures ok { OnOk result (self.new ≡ self.old ++ context ∷ []) }
        ensures err { OnErr result (self.new ≡ self.old) }
        ensures back { IfErr result (λ back. back ≡ context) }
    {
        if self.unsent.reserve(1).is_err() {
            return Err(context);
        }
        let place = context.place();
        let has_unsent = context.has_unsent();
        match self.contexts.push(context) {
            Ok(()) => {
                if has_unsent {
                    self.unsent.push_back_reserved(place);
                }
                Ok(())
            }
            Err(back) => Err(back),
        }
    }

    /// The places of contexts ascend.
    pub fn facts(&self)
        ensures { PlacesAscend 0 self.now }
    {
        self.contexts.facts();
    }

    /// There are no more contexts than this, and it is one more at most.
    pub fn most(&self) -> usize
        ensures most { length self.now ≤ result }
        ensures few { result ≤ 2 ^ 63 }
    {
        self.contexts.most()
    }

    /// The context at a place, lent.
    pub fn get(&self, place: u32) -> Option<&Waiting>
        ensures { option_copied result ≡ context_at place self.now }
    {
        self.contexts.get(place)
    }

    /// Whether a data write isn't submitted yet.
    pub fn has_unsent(&self) -> bool
        ensures { result ≡ is_some (next_unsent self.now) }
    {
        self.contexts.facts();
        self.unsent.front().is_some()
    }

    /// The data write that is submitted next: that of the context of least place that has one left.
    pub fn next_write(&self, alloc: Global) -> Result<NextWrite, AllocError>
        requires { is_some (next_unsent self.now) ≡ true }
        ensures { IfOk result (IsWrite (next_unsent self.now)) }
    {
        self.contexts.facts();
        let Some(place) = self.unsent.front() else {
            unreachable!();
        };
        let Some(context) = self.contexts.get(*place) else {
            unreachable!();
        };
        context.next_write(alloc)
    }

    /// The next data write was submitted, or so many of its first units.
    pub fn submitted(&mut self, place: u32, count: u32)
        requires { IsOfNext place count (next_unsent self.old) }
        ensures { self.new ≡ with_context place (given_more count) self.old }
    {
        self.contexts.facts();
        if !self.contexts.submitted(place, count) {
            self.unsent.pop_front();
        }
    }

    /// So many more units of the context at this place have reached the device. It tells whether they were the last ones of it.
    pub fn done(&mut self, place: u32, count: u32) -> bool
        requires { IfSome (context_at place self.old) (λ x. x.done + count ≤ x.given) }
        ensures facts { IfSome (context_at place self.old) IsUnderWay }
        ensures done { self.new ≡ with_context place (done_more count) self.old }
        ensures last { result ≡ not (beq (is_done_at place self.new) (is_done_at place self.old)) }
    {
        self.contexts.done(place, count)
    }

    /// Takes the last context away again, whose place this is.
    pub(crate) fn withdraw(&mut self, place: u32) -> Waiting
        requires { IsLastPlace place self.old }
        ensures taken { context_at place self.old ≡ Some result }
        ensures left { self.new ≡ without_context place self.old }
    {
        let Some(back) = self.contexts.take(place) else {
            unreachable!();
        };
        if back.has_unsent() {
            self.unsent.pop_back();
        }
        back
    }

    /// Takes the context at a place away, all of whose units have reached the device: no data write of it is left to submit.
    pub fn take(&mut self, place: u32) -> Option<Waiting>
        requires { IfSome (context_at place self.old) (λ x. is_done x ≡ true) }
        ensures taken { result ≡ context_at place self.old }
        ensures left { self.new ≡ without_context place self.old }
    {
        self.contexts.facts();
        let Some(taken) = self.contexts.take(place) else {
            return None;
        };
        taken.facts();
        Some(taken)
    }
}
