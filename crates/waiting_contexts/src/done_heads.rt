//! The contexts that a batch may take.
ghost use Rattle.std.specs.Prelude.{◌≡◌, ◌↔◌, ◌+◌, ◌<◌, ◌≤◌, ◌∷◌, [], length, ℕ, IsTrue, IfSome, OnOk, MatchOption};
ghost use Rattle.waiting_contexts.specs.Heads.{count_of, IsLeast};

use std::alloc::{AllocError, Global};
use std::cmp::Reverse;
use std::collections::BinaryHeap;
use std::marker::Model;

/// The places of contexts that are done and stand first in their collections, in no order, with the room that they have. The least is found
/// at once, and one comes or goes in as many steps at most as their number has bits. Within its room a place comes without memory.
#[derive(Drop)]
pub struct DoneHeads {
    heap: BinaryHeap<Reverse<u32>>,
}

impl Model for DoneHeads {
    ghost use Rattle.waiting_contexts.specs.Heads.{Heads, heads_of, LeastOnTop};

    ghost Value = { Heads };

    ghost view = { λ a. heads_of a.heap };

    ghost invariant = { λ a. LeastOnTop a.heap };
}

impl DoneHeads {
    /// No place, and no room. It takes no memory.
    pub fn new(alloc: Global) -> DoneHeads
        ensures { result.places ≡ [] }
    {
        DoneHeads {
            heap: BinaryHeap::new(alloc),
        }
    }

    /// Makes room for so many places.
    pub fn make_room(&mut self, count: usize) -> Result<(), AllocError>
        ensures same { self.new.places ≡ self.old.places }
        ensures grows { self.old.room ≤ self.new.room }
        ensures room { OnOk result (count ≤ self.new.room) }
    {
        self.heap.reserve(count.saturating_sub(self.heap.len()))
    }

    /// One more place, within the room.
    pub fn push(&mut self, place: u32)
        requires { length self.old.places < self.old.room }
        ensures places { (q : ℕ) → count_of q self.new.places ≡ count_of q (place ∷ self.old.places) }
        ensures length { length self.new.places ≡ length self.old.places + 1 }
        ensures room { self.old.room ≤ self.new.room }
    {
        let Ok(()) = self.heap.push(Reverse(place)) else {
            unreachable!();
        };
    }

    /// Whether there is none.
    pub fn is_empty(&self) -> bool
        ensures { IsTrue result ↔ (self.now.places ≡ []) }
    {
        self.heap.is_empty()
    }

    /// The least place, which stays.
    pub fn first(&self) -> Option<u32>
        ensures { MatchOption result (self.now.places ≡ []) (λ p. IsLeast p self.now.places) }
    {
        let Some(Reverse(place)) = self.heap.peek() else {
            return None;
        };
        Some(*place)
    }

    /// Takes the least place away.
    pub fn pop(&mut self) -> Option<u32>
        ensures least { MatchOption result (self.old.places ≡ []) (λ p. IsLeast p self.old.places) }
        ensures rest { IfSome result (λ p. (q : ℕ) → count_of q self.old.places ≡ count_of q (p ∷ self.new.places)) }
        ensures length { IfSome result (λ _. length self.new.places + 1 ≡ length self.old.places) }
        ensures room { self.new.room ≡ self.old.room }
    {
        let Some(Reverse(place)) = self.heap.pop() else {
            return None;
        };
        Some(place)
    }
}
