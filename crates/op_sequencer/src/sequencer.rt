//! The contexts of one collection, in order of submission.
ghost use Rattle.std.specs.Prelude.{◌≡◌, ◌↔◌, ◌++◌, ◌∷◌, [], true, IsTrue, OnOk, OnErr};
ghost use Rattle.op_sequencer.specs.Turns.{AscendFrom, IsAboveTurns, IsTurnAt, has_turn, done_at, ready, behind, without_ready};

use std::alloc::{AllocError, Global};
use std::collections::VecDeque;
use std::marker::Model;

/// The turn of a context in its collection.
#[derive(Clone, Copy)]
pub struct Turn {
    /// The place of its entry in the book.
    pub place: u32,
    /// Whether all its data writes have ended well.
    pub done: bool,
}

/// The contexts of one collection that wait, in order of submission, which is the order of their places. (Ceph's `OpSequencer`.)
///
/// A context is taken out only when those before it were, and when its own data writes have ended. The kernel has one for each collection
/// that has a context waiting. Each call looks at as many turns at most as their number has bits.
#[derive(Drop)]
pub struct Sequencer {
    turns: VecDeque<Turn>,
}

impl Model for Sequencer {
    ghost use Rattle.std.specs.Prelude.{List};
    ghost use Rattle.op_sequencer.specs.declared.sequencer.Turn.{Turn};

    ghost Value = { List Turn };

    ghost use Rattle.op_sequencer.specs.Turns.{AscendFrom};

    ghost view = { λ a. a.turns.items };

    ghost invariant = { λ a. AscendFrom 0 a.turns.items };
}

// Where the turn of a place stands, found by bisection.
fn index_of(turns: &VecDeque<Turn>, place: u32) -> usize
    requires ascend { AscendFrom 0 turns.now.items }
    requires there { has_turn place turns.now.items ≡ true }
    ensures { IsTurnAt place result turns.now.items }
{
    let mut low = 0;
    let mut high = turns.len();
    while low < high {
        let mid = low + (high - low) / 2;
        if turns[mid].place < place {
            low = mid + 1;
        } else {
            high = mid;
        }
    }
    low
}

impl Sequencer {
    /// Nobody waits. It takes no memory.
    pub fn new(alloc: Global) -> Sequencer
        ensures { result ≡ [] }
    {
        Sequencer {
            turns: VecDeque::new(alloc),
        }
    }

    /// Whether nobody waits.
    pub fn is_empty(&self) -> bool
        ensures { IsTrue result ↔ (self.now ≡ []) }
    {
        self.turns.is_empty()
    }

    /// A context waits behind the others, at this place of the book. It is done at once where it has no data write.
    pub fn push(&mut self, place: u32, done: bool) -> Result<(), AllocError>
        requires { IsAboveTurns place self.old }
        ensures ok { OnOk result (self.new ≡ self.old ++ record { place = place; done = done } ∷ []) }
        ensures err { OnErr result (self.new ≡ self.old) }
    {
        self.turns.push_back(Turn { place, done })?;
        Ok(())
    }

    /// All data writes of the context at this place have ended well.
    pub fn io_done(&mut self, place: u32)
        requires { has_turn place self.old ≡ true }
        ensures { self.new ≡ done_at place self.old }
    {
        let at = index_of(&self.turns, place);
        self.turns[at].done = true;
    }

    /// The place of the first context, if it is done.
    pub fn head_ready(&self) -> Option<u32>
        ensures { result ≡ ready self.now }
    {
        match self.turns.front() {
            Some(first) if first.done => Some(first.place),
            _ => None,
        }
    }

    /// The place of the context behind the one at this place, if it is done.
    pub fn ready_behind(&self, place: u32) -> Option<u32>
        requires { has_turn place self.now ≡ true }
        ensures { result ≡ ready (behind place self.now) }
    {
        let at = index_of(&self.turns, place);
        let next = self.turns.get(at + 1)?;
        if next.done { Some(next.place) } else { None }
    }

    /// Takes the first context out, if it is done, and gives its place.
    pub fn pop_ready(&mut self) -> Option<u32>
        ensures popped { result ≡ ready self.old }
        ensures left { self.new ≡ without_ready self.old }
    {
        let place = self.head_ready()?;
        self.turns.pop_front();
        Some(place)
    }
}
