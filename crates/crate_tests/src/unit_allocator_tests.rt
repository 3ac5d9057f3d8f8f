//! Free units that are taken and held, few of them and many.

use crate::cases::first_false;
use std::alloc::{AllocError, Global};
use unit_allocator::{Allocator, Run};
use unit_fields::{UnitNo, UnitSet};

// The units 18, 20, 21 and 30 are free, as in a store of 31 units whose first 18 are its own.
fn few(alloc: Global) -> Result<Allocator, AllocError> {
    let mut busy = UnitSet::new(alloc);
    for unit in [19, 22, 23, 24, 25, 26, 27, 28, 29] {
        busy.insert(unit)?;
    }
    Allocator::new(alloc, UnitNo::new(18), UnitNo::new(31), &busy)
}

// The runs of so many free units, or None where they aren't taken.
fn take(alloc: Global, space: &mut Allocator, n: u32) -> Option<Vec<Run>> {
    match space.take(alloc, n) {
        Ok(runs) => Some(runs),
        Err(_) => None,
    }
}

// Whether these runs, of a first unit and a count, are the only ones.
fn are_runs(runs: &[Run], wanted: &[(u32, u32)]) -> bool {
    for (run, (first, count)) in runs.iter().zip(wanted) {
        if run.first.number() != *first || run.count != *count {
            return false;
        }
    }
    runs.len() == wanted.len()
}

// Whether the three lowest units come in runs as long as they get.
fn are_lowest(alloc: Global) -> Result<bool, AllocError> {
    let mut space = few(alloc)?;
    match take(alloc, &mut space, 3) {
        Some(runs) => Ok(are_runs(&runs, &[(18, 1), (20, 2)])),
        None => Ok(false),
    }
}

// Whether one of them can be held.
fn is_held(alloc: Global) -> Result<bool, AllocError> {
    let mut space = few(alloc)?;
    let unit = UnitNo::new(20);
    Ok(space.contains(unit) && space.hold(unit).is_ok())
}

// As many units as a store has at most: none of them busy but the first 18 and each hundredth.
fn largest(alloc: Global) -> Result<Allocator, AllocError> {
    let mut busy = UnitSet::new(alloc);
    for place in 0..10_486u32 {
        busy.insert(place * 100)?;
    }
    Allocator::new(alloc, UnitNo::new(18), UnitNo::new(1_048_576), &busy)
}

// Gives each unit of a run back that may be given.
fn give(space: &mut Allocator, run: &Run) {
    let first = run.first.number();
    for unit in first..first.saturating_add(run.count) {
        let first = UnitNo::new(unit);
        if unit < u32::MAX && space.contains(first) && !space.is_free(first) {
            space.give(Run { first, count: 1 });
        }
    }
}

// Gives the runs at even places back.
fn give_every_other(space: &mut Allocator, runs: &[Run]) {
    for (place, run) in runs.iter().enumerate() {
        if place % 2 == 0 {
            give(space, run);
        }
    }
}

// How many units are free and how many runs are taken then, once 100,000 units were taken, every other run was given back, and 50,005
// units more were taken; or None where units aren't taken.
fn after_a_million(alloc: Global) -> Result<Option<(u32, usize)>, AllocError> {
    let mut space = largest(alloc)?;
    if let Some(runs) = take(alloc, &mut space, 100_000) {
        give_every_other(&mut space, &runs);
    }
    let free = space.free_count();
    match take(alloc, &mut space, 50_005) {
        Some(runs) => Ok(Some((free, runs.len()))),
        None => Ok(None),
    }
}

/// Which comes out otherwise: the lowest units, a hold, more units than are free, or many units.
pub fn first_wrong(alloc: Global) -> Result<Option<usize>, AllocError> {
    Ok(first_false(&[
        are_lowest(alloc)?,
        is_held(alloc)?,
        take(alloc, &mut few(alloc)?, 5).is_none(),
        after_a_million(alloc)? == Some((988_078, 506)),
    ]))
}
