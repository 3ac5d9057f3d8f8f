//! How many hold a unit, kept for the units that are held.
ghost use Rattle.std.specs.Prelude.{◌≡◌, ◌≢◌, ℕ, ◌+◌, ◌-◌, ◌<◌, ◌^◌, MatchResult, OnOk, OnErr};
ghost use Rattle.unit_allocator.specs.Fields.{hold_count};

use number_map::NumberMap;
use std::alloc::{AllocError, Global};

// How many hold the unit at a place.
pub fn count_at(holds: &NumberMap<u32>, at: u32) -> u32
    ensures { result ≡ hold_count holds.now at }
{
    match holds.get(at) {
        Some(count) => *count,
        None => 0,
    }
}

// One more holds the unit at a place.
pub fn add_hold(holds: &mut NumberMap<u32>, at: u32) -> Result<(), AllocError>
    ensures here { OnOk result (hold_count holds.new at ≡ hold_count holds.old at + 1) }
    ensures elsewhere { OnOk result ((q : ℕ) → q ≢ at → hold_count holds.new q ≡ hold_count holds.old q) }
    ensures err { OnErr result (holds.new ≡ holds.old) }
{
    let more = one_more(count_at(holds, at))?;
    holds.insert(at, more)?;
    Ok(())
}

// A count of holds with one more, where it fits.
fn one_more(count: u32) -> Result<u32, AllocError>
    ensures { MatchResult result (λ more. more ≡ count + 1) (λ _. count + 1 ≡ 2 ^ 32) }
{
    count.checked_add(1).ok_or(AllocError)
}

// One less holds the unit at a place.
pub fn end_hold(holds: &mut NumberMap<u32>, at: u32) -> u32
    requires { 0 < hold_count holds.old at }
    ensures left { result ≡ hold_count holds.old at - 1 }
    ensures here { hold_count holds.new at ≡ hold_count holds.old at - 1 }
    ensures elsewhere { (q : ℕ) → q ≢ at → hold_count holds.new q ≡ hold_count holds.old q }
{
    let left = count_at(holds, at) - 1;
    if left == 0 {
        let _last = holds.take(at);
        return 0;
    }
    match holds.insert(at, left) {
        Ok(()) => left,
        Err(_) => unreachable!(),
    }
}
