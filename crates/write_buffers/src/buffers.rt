//! Bytes of units, by the numbers of the units.
ghost use Rattle.std.specs.Prelude.{◌≡◌, ◌==◌, ◌+◌, ◌<◌, ◌≤◌, ◌^◌, ℕ, None, Some, IsSome, OnOk, OnErr, option_copied, if◌then◌else◌};
ghost use Rattle.write_buffers.specs.Buffers.{memory_in, AreNotIn};

use bytes::Bytes as SharedBytes;
use std::alloc::{AllocError, Global};
use std::collections::HashMap;

/// The bytes of data units that were taken by transactions which aren't committed: reads find them here, and not at the device. Those of a
/// unit are shared by count, and 4096 by who puts them in.
#[derive(Drop)]
pub struct WriteBuffers {
    by_unit: HashMap<u32, SharedBytes>,
}

impl WriteBuffers {
    /// Nothing is in memory. It takes none.
    pub fn new(alloc: Global) -> WriteBuffers
        ensures { (unit : ℕ) → memory_in result unit ≡ None }
    {
        WriteBuffers {
            by_unit: HashMap::new(alloc),
        }
    }

    /// The bytes of a unit, lent, if they are in memory. Reads call it.
    pub fn get(&self, unit: u32) -> Option<&SharedBytes>
        ensures { option_copied result ≡ memory_in self.now unit }
    {
        self.by_unit.get(&unit)
    }

    /// How many units from one on, at most so many, aren't in memory in a row. Each is looked up, unless nothing is in memory. Reads call it
    /// for each run of pages.
    pub fn absent_from(&self, at: u32, most: u32) -> u32
        requires fits { at + most ≤ 2 ^ 32 }
        ensures few { result ≤ most }
        ensures units { AreNotIn (memory_in self.now) at result }
        ensures next { result < most → IsSome (memory_in self.now (at + result)) }
    {
        if self.by_unit.is_empty() {
            return most;
        }
        for i in 0..most {
            if self.by_unit.contains_key(&(at + i)) {
                return i;
            }
        }
        most
    }

    /// Puts the bytes of a unit in, in place of those that it had. Memory can run out only at a unit that had none, and now and then the
    /// map moves to larger memory. Who takes a transaction calls it.
    pub fn insert(&mut self, unit: u32, bytes: SharedBytes) -> Result<(), AllocError>
        ensures ok { OnOk result ((u : ℕ) → memory_in self.new u ≡ (if u == unit then Some bytes else memory_in self.old u)) }
        ensures err { OnErr result ((u : ℕ) → memory_in self.new u ≡ memory_in self.old u) }
    {
        self.by_unit.insert(unit, bytes)?;
        Ok(())
    }

    /// Lets the bytes of a unit go, if they are in memory. Who commits a transaction calls it.
    pub fn remove(&mut self, unit: u32)
        ensures { (u : ℕ) → memory_in self.new u ≡ (if u == unit then None else memory_in self.old u) }
    {
        self.by_unit.remove(&unit);
    }
}
