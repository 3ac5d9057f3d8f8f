//! Contexts in a map, by their places in the book.
ghost use Rattle.std.specs.Prelude.{◌≡◌, ◌+◌, ◌<◌, ◌≤◌, ◌^◌, ◌∷◌, ◌++◌, not, [], length, option_copied, IfSome, IfErr, OnOk, OnErr};
ghost use mathlib.Core.Bool.{beq};
ghost use Rattle.store_steps.specs.Prelude.{with_context, without_context, given_more, done_more};
ghost use Rattle.txn_states.specs.States.{IsUnderWay};
ghost use Rattle.waiting_contexts.specs.Places.{IsAboveAll, context_at, is_done_at};
ghost use Rattle.waiting_contexts.specs.Unsent.{PlacesAscend, has_unsent_at};

use std::alloc::Global;
use std::collections::BTreeMap;
use std::marker::Model;
use txn_states::Waiting;

/// Contexts in a map, seen as the list of them by place. Each call but `len` goes down one path of it.
#[derive(Drop)]
pub struct PlaceMap {
    contexts: BTreeMap<u32, Waiting>,
}

impl Model for PlaceMap {
    ghost use Rattle.std.specs.Prelude.{List};
    ghost use Rattle.std.specs.Map.{values_of};
    ghost use Rattle.store_steps.specs.declared.context.Context.{Context};

    ghost Value = { List Context };

    ghost use Rattle.waiting_contexts.specs.Places.{AreByPlace};

    ghost view = { λ a. values_of a.contexts.entries };

    ghost invariant = { λ a. AreByPlace 0 a.contexts.entries };
}

impl PlaceMap {
    /// No context. It takes no memory.
    pub fn new(alloc: Global) -> PlaceMap
        ensures { result ≡ [] }
    {
        PlaceMap {
            contexts: BTreeMap::new(alloc),
        }
    }

    /// The places of contexts ascend.
    pub fn facts(&self)
        ensures { PlacesAscend 0 self.now }
    {
        let _ = &self.contexts;
    }

    /// How many contexts there are.
    pub fn len(&self) -> usize
        ensures count { result ≡ length self.now }
        ensures few { result < 2 ^ 63 }
    {
        self.contexts.len()
    }

    /// Adds a context behind all others. Where memory runs out it comes back.
    pub fn push(&mut self, context: Waiting) -> Result<(), Waiting>
        requires { IsAboveAll context.place self.old }
        ensures ok { OnOk result (self.new ≡ self.old ++ context ∷ []) }
        ensures err { OnErr result (self.new ≡ self.old) }
        ensures back { IfErr result (λ back. back ≡ context) }
    {
        let place = context.place();
        match self.contexts.insert(place, context) {
            Ok(_) => Ok(()),
            Err(failed) => Err(failed.value.1),
        }
    }

    /// The context at a place, lent.
    pub fn get(&self, place: u32) -> Option<&Waiting>
        ensures { option_copied result ≡ context_at place self.now }
    {
        self.contexts.get(&place)
    }

    /// So many more units of the context at this place were submitted. It tells whether a data write of it is left to submit.
    pub fn submitted(&mut self, place: u32, count: u32) -> bool
        requires { IfSome (context_at place self.old) (λ x. x.given + count ≤ length x.fresh) }
        ensures given { self.new ≡ with_context place (given_more count) self.old }
        ensures left { result ≡ has_unsent_at place self.new }
    {
        match self.contexts.get_mut(&place) {
            Some(context) => {
                context.submitted(count);
                context.has_unsent()
            }
            None => false,
        }
    }

    /// So many more units of the context at this place have reached the device. It tells whether they were the last ones of it.
    pub fn done(&mut self, place: u32, count: u32) -> bool
        requires { IfSome (context_at place self.old) (λ x. x.done + count ≤ x.given) }
        ensures facts { IfSome (context_at place self.old) IsUnderWay }
        ensures done { self.new ≡ with_context place (done_more count) self.old }
        ensures last { result ≡ not (beq (is_done_at place self.new) (is_done_at place self.old)) }
    {
        match self.contexts.get_mut(&place) {
            Some(context) => {
                context.facts();
                let was_done = context.is_done();
                context.done(count);
                context.is_done() != was_done
            }
            None => false,
        }
    }

    /// Takes the context at a place away.
    pub fn take(&mut self, place: u32) -> Option<Waiting>
        ensures taken { result ≡ context_at place self.old }
        ensures left { self.new ≡ without_context place self.old }
    {
        self.contexts.remove(&place)
    }
}
