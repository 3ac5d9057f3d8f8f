//! The sequencers of collections.
ghost use Rattle.std.specs.Prelude.{◌≡◌, ℕ, ◌++◌, List, ◌∷◌, [], true, IfOk, OnOk, OnErr};
ghost use Rattle.op_sequencer.specs.Turns.{IsAboveTurns, has_turn, done_at, ready, behind, without_ready};
ghost use Rattle.waiting_contexts.specs.Queues.{turns_in, ChangesAt, SameTurns};
ghost use Rattle.waiting_contexts.specs.Ties.{is_ready_at};

use op_sequencer::Sequencer;
use std::alloc::{AllocError, Global};
use std::collections::BTreeMap;

/// The sequencer of each collection that has, or had, a context waiting, under the collection's name. Like Ceph's, which a collection keeps as
/// long as it is loaded, it stays when nobody waits, so that the next context of the collection takes no memory for it.
#[derive(Drop)]
pub struct Sequencers {
    by_coll: BTreeMap<Vec<u8>, Sequencer>,
}

// A sequencer in which one context waits.
fn sequencer_of(alloc: Global, place: u32, done: bool) -> Result<Sequencer, AllocError>
    ensures { IfOk result (λ made. made ≡ record { place = place; done = done } ∷ []) }
{
    let mut made = Sequencer::new(alloc);
    made.push(place, done)?;
    Ok(made)
}

// The name of a collection, with memory of its own.
fn name_of(alloc: Global, coll: &[u8]) -> Result<Vec<u8>, AllocError>
    ensures { IfOk result (λ name. name.items ≡ coll.now) }
{
    let mut name = Vec::with_capacity(alloc, coll.len())?;
    name.extend_from_slice(coll)?;
    Ok(name)
}

impl Sequencers {
    /// Nobody waits. It takes no memory.
    pub fn new(alloc: Global) -> Sequencers
        ensures { (c : List ℕ) → turns_in result c ≡ [] }
    {
        Sequencers {
            by_coll: BTreeMap::new(alloc),
        }
    }

    /// A context waits behind the others of its collection. It tells whether it is the first, and done.
    pub fn push(
        &mut self,
        alloc: Global,
        coll: &[u8],
        place: u32,
        done: bool,
    ) -> Result<bool, AllocError>
        requires { IsAboveTurns place (turns_in self.old coll.now) }
        ensures ok { OnOk result (ChangesAt coll.now (turns_in self.old coll.now ++ record { place = place; done = done } ∷ []) self.old self.new) }
        ensures ready { IfOk result (λ ready. ready ≡ is_ready_at place (turns_in self.new coll.now)) }
        ensures err { OnErr result (SameTurns self.old self.new) }
    {
        match self.by_coll.get_mut(coll) {
            Some(sequencer) => match sequencer.push(place, done) {
                Ok(()) => Ok(sequencer.head_ready() == Some(place)),
                Err(fail) => Err(fail),
            },
            None => {
                let made = sequencer_of(alloc, place, done)?;
                let name = name_of(alloc, coll)?;
                self.by_coll.insert(name, made)?;
                Ok(done)
            }
        }
    }

    /// All data writes of the context at this place have ended well. It tells whether it is the first of its collection.
    pub fn io_done(&mut self, coll: &[u8], place: u32) -> bool
        requires { has_turn place (turns_in self.old coll.now) ≡ true }
        ensures done { ChangesAt coll.now (done_at place (turns_in self.old coll.now)) self.old self.new }
        ensures ready { result ≡ is_ready_at place (turns_in self.new coll.now) }
    {
        let Some(sequencer) = self.by_coll.get_mut(coll) else {
            return false;
        };
        sequencer.io_done(place);
        sequencer.head_ready() == Some(place)
    }

    /// The place of the context that comes behind the one at this place in its collection, if it is done.
    pub fn ready_behind(&self, coll: &[u8], place: u32) -> Option<u32>
        requires { has_turn place (turns_in self.now coll.now) ≡ true }
        ensures { result ≡ ready (behind place (turns_in self.now coll.now)) }
    {
        let sequencer = self.by_coll.get(coll)?;
        sequencer.ready_behind(place)
    }

    /// Takes the first context of a collection out, if it is done, and gives the place of the next one, if that is done too.
    pub fn pop_ready(&mut self, coll: &[u8]) -> Option<u32>
        ensures left { ChangesAt coll.now (without_ready (turns_in self.old coll.now)) self.old self.new }
        ensures next { result ≡ ready (turns_in self.new coll.now) }
    {
        let sequencer = self.by_coll.get_mut(coll)?;
        sequencer.pop_ready();
        sequencer.head_ready()
    }
}
