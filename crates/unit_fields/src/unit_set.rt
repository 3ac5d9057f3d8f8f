//! Sets of units.
ghost use Rattle.std.specs.Prelude.{◌≡◌, ◌↔◌, IsTrue, OnOk, OnErr, MatchResult};
ghost use Rattle.std.specs.FinSet as set;
ghost use Rattle.unit_fields.specs.UnitSet.{Ascends, IsPlaceOf, IsGapFor, IsAboveLast};

use std::alloc::{AllocError, Global};
use std::marker::Model;

/// A set of units, seen as a finite set of numbers: the units of a bitmap, of a half that isn't zero, and the like.
///
/// It is a list in ascending order: a look-up bisects it, an insert or a removal moves what stands behind.
#[derive(Drop)]
pub struct UnitSet {
    units: Vec<u32>,
}

impl Model for UnitSet {
    ghost use Rattle.std.specs.FinSet as set;
    ghost use Rattle.std.specs.Ordering.{nat_cmp};
    ghost use Rattle.std.specs.Coded.{coded_ℕ};
    ghost use Rattle.unit_fields.specs.UnitSet.{Ascends};

    ghost Value = { set.FinSet nat_cmp };

    ghost coded = { set.code coded_ℕ };

    ghost view = { λ a. set.from_list a.units.items };

    ghost invariant = { λ a. Ascends a.units.items };
}

// Whether a unit is above the last one.
fn is_above_last(units: &[u32], unit: u32) -> bool
    ensures { IsTrue result → IsAboveLast units.now unit }
{
    match units.last() {
        Some(last) => *last < unit,
        None => false,
    }
}

// Where a unit stands among ascending ones, or where it would go: by one comparison where that is behind all of them.
fn place_of(units: &[u32], unit: u32) -> Result<usize, usize>
    requires { Ascends units.now }
    ensures { MatchResult result (IsPlaceOf units.now unit) (IsGapFor units.now unit) }
{
    if is_above_last(units, unit) {
        Err(units.len())
    } else {
        units.binary_search(&unit)
    }
}

impl UnitSet {
    /// The set without units. It takes no memory.
    pub fn new(alloc: Global) -> UnitSet
        ensures { result ≡ set.empty }
    {
        UnitSet {
            units: Vec::new(alloc),
        }
    }

    /// The set of these units, which ascend.
    pub fn from_ascending(units: Vec<u32>) -> UnitSet
        requires { Ascends units.items }
        ensures { result ≡ set.from_list units.items }
    {
        UnitSet { units }
    }

    /// Whether the unit is in the set.
    pub fn contains(&self, unit: u32) -> bool
        ensures { result ≡ set.contains self.now unit }
    {
        place_of(&self.units, unit).is_ok()
    }

    /// Puts a unit in. It takes memory only where the unit isn't in the set.
    pub fn insert(&mut self, unit: u32) -> Result<(), AllocError>
        ensures ok { OnOk result (self.new ≡ set.insert self.old unit) }
        ensures err { OnErr result (self.new ≡ self.old) }
    {
        match place_of(&self.units, unit) {
            Ok(_) => Ok(()),
            Err(at) => Ok(self.units.insert(at, unit)?),
        }
    }

    /// Takes a unit out, and says whether it was in the set. Nothing changes where it wasn't.
    pub fn remove(&mut self, unit: u32) -> bool
        ensures was { result ≡ set.contains self.old unit }
        ensures removed { self.new ≡ set.remove self.old unit }
    {
        match place_of(&self.units, unit) {
            Ok(at) => {
                self.units.remove(at);
                true
            }
            Err(_) => false,
        }
    }

    /// How many units are in the set.
    pub fn len(&self) -> usize
        ensures { result ≡ set.len self.now }
    {
        self.as_slice().len()
    }

    /// Whether no unit is in the set.
    pub fn is_empty(&self) -> bool
        ensures { IsTrue result ↔ (self.now ≡ set.empty) }
    {
        self.len() == 0
    }

    /// The units in ascending order, lent.
    pub fn as_slice(&self) -> &[u32]
        ensures units { set.from_list result.now ≡ self.now }
        ensures ascending { Ascends result.now }
    {
        &self.units
    }
}
