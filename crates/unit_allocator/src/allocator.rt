//! The free units of a range, by a bit for each.
//!
//! The allocator keeps two bits for each unit, idle and free, with a summary above the free ones (a bit for each word of 64 that isn't
//! zero), and counts of holds for the units that are held alone, since these are few. So `hold` may want memory, and everything else
//! takes none. A clause sees it as before: each unit idle or not, and how many hold it.
ghost use Rattle.std.specs.Prelude.{◌≡◌, ◌≢◌, ◌↔◌, ℕ, ◌+◌, ◌-◌, ◌*◌, ◌<◌, ◌≤◌, ◌^◌, ◌++◌, ◌∷◌, [], true, false, length, replicate, take, MatchOption, IfOk, IfErr, OnOk, OnErr, IsTrue, vec_len, vec_capacity};
ghost use Rattle.std.specs.List.{range_with_len};
ghost use Rattle.unit_allocator.specs.Units.{free_units, is_free, holds_of, IsWithin, taken_one, given_one, taken, given, held, unheld, units_of, units_of_run, no_idle_units, freed_from};
ghost use Rattle.unit_allocator.specs.Fields.{IsWithout};
ghost use Rattle.unit_allocator.specs.Words.{bit};
ghost use Rattle.unit_allocator.specs.Fails.{FailsBy};

use crate::bits::{clear, low_bits, set, test};
use crate::hold_counts::{add_hold, count_at, end_hold};
use crate::indexed_bits::IndexedBits;
use number_map::NumberMap;
use std::alloc::{AllocError, Global};
use std::marker::Model;
use unit_fields::{UnitNo, UnitSet};

/// Units one after the other: Ceph's physical extent, counted in units and not in bytes.
#[derive(Clone, Copy)]
pub struct Run {
    /// The lowest of the units.
    pub first: UnitNo,
    /// How many units they are. `take` gives no run of none.
    pub count: u32,
}

/// Why units weren't taken. The allocator is as it was.
#[derive(Drop)]
pub enum TakeFail {
    /// Fewer units are free than are needed (ENOSPC).
    NoSpace {
        /// How many units were asked for.
        need: u32,
        /// How many are free.
        free: u32,
    },
    /// There was no memory for the list of runs.
    Memory,
}

/// The units of a range, of which each is idle or given to somebody, and is held by any number of users. A unit is free where it
/// is idle and nobody holds it; so a unit that is given back while a user still needs its bytes is free once the last hold ends.
///
/// The kernel makes one at a mount, from the units that the rows own. It has two bits for each unit, a bit for each 64 of them, and
/// an entry for each unit that is held. No call but `new`, `take`, `lowest_units` and `hold` takes memory: a commit can give units
/// back whatever memory there is.
#[derive(Drop)]
pub struct Allocator {
    first: u32,
    count: u32,
    // a bit for each idle unit
    idle: Vec<u64>,
    // how many hold a unit, of the units that are held
    holds: NumberMap<u32>,
    // a bit for each free unit
    bits: IndexedBits,
    free: u32,
    // no unit below it is free; like the bits it counts from `first`
    low: usize,
}

impl Model for Allocator {
    ghost use Rattle.unit_allocator.specs.Units.{Space, coded_space};
    ghost use Rattle.unit_allocator.specs.Fields.{flags, hold_counts, AreSound};

    ghost Value = { Space };

    ghost coded = { coded_space };

    ghost view = { λ a. record { first = a.first; idle = flags a.idle.items a.count; holds = hold_counts a.holds a.count } };

    ghost invariant = { λ a. AreSound a.first a.count a.idle.items a.holds a.bits a.free a.low };
}

// Units all of which are free.
fn all_free(alloc: Global, first: u32, count: u32) -> Result<Allocator, AllocError>
    requires { first + count < 2 ^ 32 }
    ensures first { IfOk result (λ space. space.first ≡ first) }
    ensures idle { IfOk result (λ space. space.idle ≡ replicate count true) }
    ensures holds { IfOk result (λ space. space.holds ≡ replicate count 0) }
{
    let idle = low_bits(alloc, count as usize)?;
    let words = low_bits(alloc, count as usize)?;
    let bits = IndexedBits::new(alloc, words)?;
    let holds = NumberMap::new(alloc);
    Ok(Allocator {
        first,
        count,
        idle,
        holds,
        bits,
        free: count,
        low: 0,
    })
}

impl Allocator {
    /// The units from `first` to before `end`. Those that aren't in the set of busy ones are free, and none is held. Of the set's
    /// units those outside the range don't count.
    pub fn new(
        alloc: Global,
        first: UnitNo,
        end: UnitNo,
        busy: &UnitSet,
    ) -> Result<Allocator, AllocError>
        requires { first ≤ end }
        ensures { let count = end - first in
            IfOk result (λ space. space ≡ freed_from (no_idle_units first count) busy.now (range_with_len first count)) }
    {
        let first = first.number();
        let count = end.number() - first;
        let mut made = all_free(alloc, first, count)?;
        for unit in busy.as_slice() {
            made.leave_out(*unit);
        }
        Ok(made)
    }

    // Takes a unit of a new allocator, if it is one of the range and wasn't taken before.
    fn leave_out(&mut self, unit: u32)
        requires { (u : ℕ) → holds_of self.old u ≡ 0 }
        ensures { IsWithout self.old self.new unit }
    {
        let place = UnitNo::new(unit);
        if self.contains(place) && self.is_free(place) {
            self.take_one(unit);
        }
    }

    /// How many units are free. It is kept, and not counted anew.
    pub fn free_count(&self) -> u32
        ensures { result ≡ length (free_units self.now) }
    {
        self.free
    }

    /// Whether the unit is one of the range.
    pub fn contains(&self, unit: UnitNo) -> bool
        ensures { IsTrue result ↔ IsWithin self.now unit }
    {
        let unit = unit.number();
        self.first <= unit && unit - self.first < self.count
    }

    /// Whether the unit is free.
    pub fn is_free(&self, unit: UnitNo) -> bool
        requires { IsWithin self.now unit }
        ensures { result ≡ is_free self.now unit }
    {
        self.bits.test((unit.number() - self.first) as usize)
    }

    /// How many hold the unit.
    pub fn holds(&self, unit: UnitNo) -> u32
        requires { IsWithin self.now unit }
        ensures { result ≡ holds_of self.now unit }
    {
        count_at(&self.holds, unit.number() - self.first)
    }

    // The lowest free unit.
    fn lowest(&mut self) -> Option<u32>
        ensures same { self.new ≡ self.old }
        ensures lowest { MatchOption result (free_units self.old ≡ []) (λ u. free_units self.old ≡ u ∷ free_units (taken_one self.old u)) }
        ensures within { MatchOption result (free_units self.old ≡ []) (λ u. IsWithin self.old u × IsTrue (is_free self.old u)) }
    {
        match self.bits.next(self.low) {
            Some(at) => {
                self.low = at;
                Some(self.first + at as u32)
            }
            None => None,
        }
    }

    // Takes a free unit.
    fn take_one(&mut self, unit: u32)
        requires within { IsWithin self.old unit }
        requires free { IsTrue (is_free self.old unit) }
        ensures { self.new ≡ taken_one self.old unit }
    {
        let at = (unit - self.first) as usize;
        clear(&mut self.idle, at);
        self.bits.clear(at);
        self.free -= 1;
    }

    // Whether nobody holds the unit.
    fn is_unheld(&self, unit: u32) -> bool
        requires { IsWithin self.now unit }
        ensures { IsTrue result ↔ (holds_of self.now unit ≡ 0) }
    {
        count_at(&self.holds, unit - self.first) == 0
    }

    // Gives a unit back that isn't free.
    fn give_one(&mut self, unit: u32)
        requires within { IsWithin self.old unit }
        requires taken { is_free self.old unit ≡ false }
        ensures { self.new ≡ given_one self.old unit }
    {
        let unheld = self.is_unheld(unit);
        let at = (unit - self.first) as usize;
        set(&mut self.idle, at);
        if unheld {
            mark_free(&mut self.bits, &mut self.low, at);
            self.free += 1;
        }
    }

    // Holds a unit once more.
    fn hold_one(&mut self, unit: u32) -> Result<(), AllocError>
        requires { IsWithin self.old unit }
        ensures ok { OnOk result (self.new ≡ held self.old unit) }
        ensures err { OnErr result (self.new ≡ self.old) }
    {
        let at = unit - self.first;
        add_hold(&mut self.holds, at)?;
        if self.bits.test(at as usize) {
            self.bits.clear(at as usize);
            self.free -= 1;
        }
        Ok(())
    }

    // Ends one hold of a unit.
    fn unhold_one(&mut self, unit: u32)
        requires within { IsWithin self.old unit }
        requires held { 0 < holds_of self.old unit }
        ensures { self.new ≡ unheld self.old unit }
    {
        let at = unit - self.first;
        let left = end_hold(&mut self.holds, at);
        if left == 0 && test(&self.idle, at as usize) {
            mark_free(&mut self.bits, &mut self.low, at as usize);
            self.free += 1;
        }
    }

    /// The lowest free unit, which stays free. Planning asks it, and `take_unit` takes the unit once nothing can fail any more.
    pub fn lowest_free(&self) -> Option<UnitNo>
        ensures lowest { MatchOption result (free_units self.now ≡ []) (λ u. free_units self.now ≡ u ∷ free_units (taken_one self.now u)) }
        ensures within { MatchOption result (free_units self.now ≡ []) (λ u. IsWithin self.now u × IsTrue (is_free self.now u)) }
    {
        match self.bits.next(self.low) {
            Some(at) => Some(UnitNo::new(self.first + at as u32)),
            None => None,
        }
    }

    /// The `n` lowest free units, ascending, which stay free. Planning asks for them, and `take_unit` takes each once nothing can fail
    /// any more. The search goes on from one unit to the next.
    pub fn lowest_units(&self, alloc: Global, n: u32) -> Result<Vec<UnitNo>, TakeFail>
        ensures units { IfOk result (λ units. units.items ≡ take n (free_units self.now)) }
        ensures enough { OnOk result (n ≤ length (free_units self.now)) }
        ensures why { IfErr result (λ fail. FailsBy fail n (length (free_units self.now))) }
    {
        let count = self.free_count();
        if count < n {
            return Err(TakeFail::NoSpace {
                need: n,
                free: count,
            });
        }
        let Ok(mut units) = Vec::with_capacity(alloc, n as usize) else {
            return Err(TakeFail::Memory);
        };
        let mut from = self.low;
        for _ in 0..n {
            match self.bits.next(from) {
                Some(at) => {
                    units.push_reserved(UnitNo::new(self.first + at as u32));
                    from = at + 1;
                }
                None => unreachable!(),
            }
        }
        Ok(units)
    }

    /// Takes one free unit, and no memory.
    pub fn take_unit(&mut self, unit: UnitNo)
        requires within { IsWithin self.old unit }
        requires free { IsTrue (is_free self.old unit) }
        ensures one { self.new ≡ taken_one self.old unit }
        ensures listed { self.new ≡ taken self.old (unit ∷ []) }
    {
        // The low mark goes up to the lowest free unit, so that the next search needn't begin further down.
        let _lowest = self.lowest();
        self.take_one(unit.number());
    }

    /// Holds a unit once more, so that it isn't free until `unhold` was called as often. The caller is a transaction whose deferred
    /// write goes to the unit. Err comes where there is no memory for the hold, or where the unit has as many as a `u32` counts.
    pub fn hold(&mut self, unit: UnitNo) -> Result<(), AllocError>
        requires { IsWithin self.old unit }
        ensures ok { OnOk result (self.new ≡ held self.old unit) }
        ensures err { OnErr result (self.new ≡ self.old) }
    {
        self.hold_one(unit.number())
    }

    /// Ends one hold of a unit. An idle unit whose last hold ends is free.
    pub fn unhold(&mut self, unit: UnitNo)
        requires within { IsWithin self.old unit }
        requires held { 0 < holds_of self.old unit }
        ensures { self.new ≡ unheld self.old unit }
    {
        self.unhold_one(unit.number());
    }

    /// Takes the `n` lowest free units, as runs of as many units as follow one another, ascending (Ceph's `allocate`).
    pub fn take(&mut self, alloc: Global, n: u32) -> Result<Vec<Run>, TakeFail>
        ensures ok { OnOk result (self.new ≡ taken self.old (take n (free_units self.old))) }
        ensures enough { OnOk result (n ≤ length (free_units self.old)) }
        ensures runs { IfOk result (λ runs. units_of runs.items ≡ take n (free_units self.old)) }
        ensures err { OnErr result (self.new ≡ self.old) }
        ensures why { IfErr result (λ fail. FailsBy fail n (length (free_units self.old))) }
    {
        let free = self.free_count();
        if free < n {
            return Err(TakeFail::NoSpace { need: n, free });
        }
        let Ok(mut runs) = Vec::with_capacity(alloc, n as usize) else {
            return Err(TakeFail::Memory);
        };
        for _ in 0..n {
            match self.lowest() {
                Some(unit) => {
                    self.take_one(unit);
                    add_unit(&mut runs, unit);
                }
                None => unreachable!(),
            }
        }
        Ok(runs)
    }

    /// Gives units back (Ceph's `release`). Those that are held are free only once their holds end.
    pub fn give(&mut self, run: Run)
        requires within { (u : ℕ) → run.first ≤ u → u < run.first + run.count → IsWithin self.old u }
        requires taken { (u : ℕ) → run.first ≤ u → u < run.first + run.count → is_free self.old u ≡ false }
        requires fits { run.first + run.count < 2 ^ 32 }
        ensures { self.new ≡ given self.old (units_of_run run) }
    {
        let first = run.first.number();
        for unit in first..first + run.count {
            self.give_one(unit);
        }
    }
}

// Sets the bit of a number, and lowers the low mark, below which no bit is set, to it.
fn mark_free(bits: &mut IndexedBits, low: &mut usize, i: usize)
    requires { i < 64 * length bits.old }
    ensures here { bit bits.new i ≡ true }
    ensures elsewhere { (q : ℕ) → q ≢ i → bit bits.new q ≡ bit bits.old q }
    ensures len { length bits.new ≡ length bits.old }
    ensures not_above_old { low.new ≤ low.old }
    ensures not_above { low.new ≤ i }
{
    bits.set(i);
    *low = i.min(*low);
}

// Whether the unit comes next after those of a run, and its count can be one more.
fn is_next(run: &Run, unit: u32) -> bool
    ensures { IsTrue result ↔ ((run.now.first + run.now.count ≡ unit) × (run.now.count + 1 < 2 ^ 32)) }
{
    let end = u64::from(run.first.number()) + u64::from(run.count);
    end == u64::from(unit) && run.count < u32::MAX
}

// One more unit, in the last run where it is the next one.
fn add_unit(runs: &mut Vec<Run>, unit: u32)
    requires { vec_len runs.old < vec_capacity runs.old }
    ensures units { units_of runs.new.items ≡ units_of runs.old.items ++ unit ∷ [] }
    ensures len { vec_len runs.new ≤ vec_len runs.old + 1 }
    ensures capacity { vec_capacity runs.new ≡ vec_capacity runs.old }
{
    match runs.pop() {
        Some(last) => {
            if is_next(&last, unit) {
                runs.push_reserved(Run {
                    first: last.first,
                    count: last.count + 1,
                });
            } else {
                runs.push_reserved(last);
                runs.push_reserved(Run {
                    first: UnitNo::new(unit),
                    count: 1,
                });
            }
        }
        None => runs.push_reserved(Run {
            first: UnitNo::new(unit),
            count: 1,
        }),
    }
}
