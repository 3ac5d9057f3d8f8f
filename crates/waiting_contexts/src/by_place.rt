//! Contexts by their places in the book.
ghost use Rattle.std.specs.Prelude.{◌≡◌, ◌+◌, ◌<◌, ◌≤◌, ◌^◌, ◌∷◌, ◌++◌, not, [], length, option_copied, IfSome, IfErr, OnOk, OnErr};
ghost use mathlib.Core.Bool.{beq};
ghost use Rattle.store_steps.specs.Prelude.{with_context, without_context, given_more, done_more};
ghost use Rattle.txn_states.specs.States.{IsUnderWay};
ghost use Rattle.waiting_contexts.specs.Places.{IsAboveAll, context_at, is_done_at, is_newest_at};
ghost use Rattle.waiting_contexts.specs.Unsent.{PlacesAscend, has_unsent_at};

use crate::place_map::PlaceMap;
use std::alloc::Global;
use std::marker::Model;
use txn_states::Waiting;

/// Contexts, seen as the list of them by place. The newest stands beside the map, which is therefore touched only where several wait. Each
/// call but `most` goes down one path of it.
#[derive(Drop)]
pub struct ByPlace {
    older: PlaceMap,
    // above all others, where it wasn't taken
    newest: Option<Waiting>,
}

impl Model for ByPlace {
    ghost use Rattle.std.specs.Prelude.{List};
    ghost use Rattle.store_steps.specs.declared.context.Context.{Context};

    ghost Value = { List Context };

    ghost use Rattle.waiting_contexts.specs.Places.{with_newest, IsNewest};

    ghost view = { λ a. with_newest a.newest a.older };

    ghost invariant = { λ a. IsNewest a.newest a.older };
}

// Whether the newest has this place.
fn is_at(newest: &Option<Waiting>, place: u32) -> bool
    ensures { result ≡ is_newest_at place newest.now }
{
    match newest {
        Some(context) => context.place() == place,
        None => false,
    }
}

impl ByPlace {
    /// No context. It takes no memory.
    pub fn new(alloc: Global) -> ByPlace
        ensures { result ≡ [] }
    {
        ByPlace {
            older: PlaceMap::new(alloc),
            newest: None,
        }
    }

    /// The places of contexts ascend.
    pub fn facts(&self)
        ensures { PlacesAscend 0 self.now }
    {
        self.older.facts();
    }

    /// There are no more contexts than this, and it is one more at most.
    pub fn most(&self) -> usize
        ensures most { length self.now ≤ result }
        ensures few { result ≤ 2 ^ 63 }
    {
        self.older.len() + 1
    }

    /// Adds a context behind all others. Where memory runs out it comes back.
    pub fn push(&mut self, context: Waiting) -> Result<(), Waiting>
        requires { IsAboveAll context.place self.old }
        ensures ok { OnOk result (self.new ≡ self.old ++ context ∷ []) }
        ensures err { OnErr result (self.new ≡ self.old) }
        ensures back { IfErr result (λ back. back ≡ context) }
    {
        let Some(last) = self.newest.take() else {
            self.newest = Some(context);
            return Ok(());
        };
        match self.older.push(last) {
            Ok(()) => {
                self.newest = Some(context);
                Ok(())
            }
            Err(back) => {
                self.newest = Some(back);
                Err(context)
            }
        }
    }

    /// The context at a place, lent.
    pub fn get(&self, place: u32) -> Option<&Waiting>
        ensures { option_copied result ≡ context_at place self.now }
    {
        if is_at(&self.newest, place) {
            return self.newest.as_ref();
        }
        self.older.get(place)
    }

    /// So many more units of the context at this place were submitted. It tells whether a data write of it is left to submit.
    pub fn submitted(&mut self, place: u32, count: u32) -> bool
        requires { IfSome (context_at place self.old) (λ x. x.given + count ≤ length x.fresh) }
        ensures given { self.new ≡ with_context place (given_more count) self.old }
        ensures left { result ≡ has_unsent_at place self.new }
    {
        if is_at(&self.newest, place) {
            let Some(newest) = &mut self.newest else {
                unreachable!();
            };
            newest.submitted(count);
            return newest.has_unsent();
        }
        self.older.submitted(place, count)
    }

    /// So many more units of the context at this place have reached the device. It tells whether they were the last ones of it.
    pub fn done(&mut self, place: u32, count: u32) -> bool
        requires { IfSome (context_at place self.old) (λ x. x.done + count ≤ x.given) }
        ensures facts { IfSome (context_at place self.old) IsUnderWay }
        ensures done { self.new ≡ with_context place (done_more count) self.old }
        ensures last { result ≡ not (beq (is_done_at place self.new) (is_done_at place self.old)) }
    {
        if is_at(&self.newest, place) {
            let Some(newest) = &mut self.newest else {
                unreachable!();
            };
            newest.facts();
            let was_done = newest.is_done();
            newest.done(count);
            return newest.is_done() != was_done;
        }
        self.older.done(place, count)
    }

    /// Takes the context at a place away.
    pub fn take(&mut self, place: u32) -> Option<Waiting>
        ensures taken { result ≡ context_at place self.old }
        ensures left { self.new ≡ without_context place self.old }
    {
        if is_at(&self.newest, place) {
            return self.newest.take();
        }
        self.older.take(place)
    }
}
