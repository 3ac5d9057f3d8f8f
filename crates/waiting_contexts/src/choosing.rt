//! What a batch would take.
ghost use Rattle.std.specs.Prelude.{◌≡◌, ◌≢◌, ◌+◌, ◌<◌, ◌≤◌, ◌++◌, [], false, ℕ, length, IfSome, IfOk, IsTrue, OnOk, MatchOption};
ghost use Rattle.std.specs.List.{AllByRecursion};
ghost use Rattle.store_steps.specs.Prelude.{choice, left_by};
ghost use Rattle.waiting_contexts.specs.Heads.{IsLeast};
ghost use Rattle.waiting_contexts.specs.Choices.{IsChoiceOf, AreSamePlaces, TakesLeast, FindsNone, PicksOne, PicksNone};
ghost use Rattle.waiting_contexts.specs.Ties.{AreHeads, HaveTurnsOf, IsTied};

use crate::done_heads::DoneHeads;
use crate::sequencers::Sequencers;
use crate::submissions::Submissions;
use meta_rows::encoded_len;
use std::alloc::{AllocError, Global};

/// What a batch would take.
#[derive(Clone, Copy)]
pub struct Choice {
    /// How many contexts.
    pub count: u32,
    /// How many bytes the operations of all of them are spelled in; the largest number where it can't tell.
    pub bytes: usize,
}

// Whether the least of all places is at hand, and not beside.
fn is_at_hand(hand: &DoneHeads, beside: &DoneHeads) -> bool
    ensures at_hand { IsTrue result → (p : ℕ) → IsLeast p hand.now.places → AllByRecursion (λ q. p ≤ q) beside.now.places }
    ensures some { IsTrue result → hand.now.places ≢ [] }
    ensures beside { result ≡ false → (p : ℕ) → IsLeast p beside.now.places → AllByRecursion (λ q. p ≤ q) hand.now.places }
    ensures none { result ≡ false → beside.now.places ≡ [] → hand.now.places ≡ [] }
{
    let Some(here) = hand.first() else {
        return false;
    };
    let Some(there) = beside.first() else {
        return true;
    };
    here <= there
}

// Takes the least of the places at hand and beside. One from at hand goes to those that go back.
fn pop_least(hand: &mut DoneHeads, beside: &mut DoneHeads, back: &mut DoneHeads) -> Option<u32>
    requires { length back.old.places < back.old.room }
    ensures { MatchOption result (FindsNone hand.old beside.old back.old hand.new beside.new back.new)
        (λ p. TakesLeast p hand.old beside.old back.old hand.new beside.new back.new) }
{
    if !is_at_hand(hand, beside) {
        return beside.pop();
    }
    let Some(place) = hand.pop() else {
        unreachable!();
    };
    back.push(place);
    Some(place)
}

// Picks the context that comes next, where so many were picked before it, and tells the bytes of its operations.
fn pick_one(
    submissions: &Submissions,
    sequencers: &Sequencers,
    hand: &mut DoneHeads,
    beside: &mut DoneHeads,
    back: &mut DoneHeads,
    count: u32,
) -> Option<usize>
    requires tied { HaveTurnsOf submissions.now sequencers.now }
    requires heads { AreHeads (hand.old.places ++ beside.old.places) (left_by count submissions.now) }
    requires beside { length beside.old.places < beside.old.room }
    requires back { length back.old.places < back.old.room }
    ensures { MatchOption result (PicksNone submissions.now count hand.old beside.old back.old hand.new beside.new back.new)
        (λ bytes. PicksOne submissions.now count bytes hand.old beside.old back.old hand.new beside.new back.new) }
{
    submissions.facts();
    let place = pop_least(hand, beside, back)?;
    let Some(context) = submissions.get(place) else {
        unreachable!();
    };
    if let Some(next) = sequencers.ready_behind(context.coll(), place) {
        beside.push(next);
    }
    Some(encoded_len(context.ops()))
}

// Picks as many as come next, at most so many.
fn pick(
    submissions: &Submissions,
    sequencers: &Sequencers,
    hand: &mut DoneHeads,
    beside: &mut DoneHeads,
    back: &mut DoneHeads,
    most: u32,
) -> Choice
    requires tied { HaveTurnsOf submissions.now sequencers.now }
    requires heads { AreHeads hand.old.places submissions.now }
    requires beside { (beside.old.places ≡ []) × (most ≤ beside.old.room) }
    requires back { (back.old.places ≡ []) × (most ≤ back.old.room) }
    ensures chosen { IsChoiceOf (choice most submissions.now) result }
    ensures kept { AreSamePlaces hand.old.places (back.new.places ++ hand.new.places) }
    ensures lengths { length back.new.places + length hand.new.places ≡ length hand.old.places }
    ensures room { hand.old.room ≤ hand.new.room }
{
    let mut picked = Choice { count: 0, bytes: 0 };
    while picked.count < most {
        let Some(bytes) = pick_one(submissions, sequencers, hand, beside, back, picked.count) else {
            return picked;
        };
        picked.count += 1;
        picked.bytes = picked.bytes.saturating_add(bytes);
    }
    picked
}

// The places that were picked at hand go back.
fn go_back(hand: &mut DoneHeads, back: &mut DoneHeads)
    requires { length back.old.places + length hand.old.places ≤ hand.old.room }
    ensures kept { AreSamePlaces (back.old.places ++ hand.old.places) hand.new.places }
    ensures room { hand.old.room ≤ hand.new.room }
{
    while let Some(place) = back.pop() {
        hand.push(place);
    }
}

/// What a batch of at most so many contexts would take. All stay, and so do the places at hand.
pub(crate) fn choose(
    alloc: Global,
    submissions: &Submissions,
    sequencers: &Sequencers,
    hand: &mut DoneHeads,
    most: u32,
) -> Result<Choice, AllocError>
    requires { IsTied submissions.now sequencers.now hand.old }
    ensures tied { IsTied submissions.now sequencers.now hand.new }
    ensures chosen { IfOk result (IsChoiceOf (choice most submissions.now)) }
{
    let mut beside = DoneHeads::new(alloc);
    beside.make_room(most as usize)?;
    let mut back = DoneHeads::new(alloc);
    back.make_room(most as usize)?;
    let picked = pick(submissions, sequencers, hand, &mut beside, &mut back, most);
    submissions.facts();
    go_back(hand, &mut back);
    Ok(picked)
}
