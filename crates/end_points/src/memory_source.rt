// A source in memory.
ghost use Rattle.std.specs.Prelude.{◌≡◌, ◌↔◌, ◌+◌, ◌<◌, ◌≤◌, Some, IsTrue, IfOk, OnOk, OnErr, IsErrOf, Contains};
ghost use Rattle.block_device.specs.Prelude.{Rose};
ghost use Rattle.end_points.specs.Source.{Took};
ghost use Rattle.end_points.specs.Memory.{size_taken, after_take, after_fault};

use crate::Source;
use block_device::Failed;
use std::marker::Model;

/// A text in memory, which tells what is left of it, and fails at listed calls.
#[derive(Drop)]
pub struct MemorySource {
    text: Vec<u8>,
    at: usize,
    step: u32,
    fails: Vec<u64>,
    calls: u64,
    fault_count: u64,
}

impl Model for MemorySource {
    ghost use Rattle.end_points.specs.Memory.{MemoryText};

    ghost Value = { MemoryText };

    ghost use Rattle.end_points.specs.SourceInside.{memory_text, IsSourceKept};

    ghost view = { memory_text };

    ghost invariant = { IsSourceKept };
}

// Whether the call of this number is listed.
pub fn is_listed(fails: &[u64], number: u64) -> bool
    ensures { IsTrue result ↔ Contains fails.now number }
{
    fails.contains(&number)
}

impl MemorySource {
    /// A source of this text, of which a call gives at most `step` bytes, and the calls of these
    /// numbers, from 0 on, fail.
    pub fn new(text: Vec<u8>, step: u32, fails: Vec<u64>) -> MemorySource
        requires { 0 < step }
        ensures { result ≡ record { left = text.items; step = step; fails = fails.items; calls = 0; faults = 0 } }
    {
        MemorySource {
            text,
            at: 0,
            step,
            fails,
            calls: 0,
            fault_count: 0,
        }
    }
}

impl Source for MemorySource {
    ghost left = { λ s. Some s.left };

    ghost faults = { λ s. s.faults };

    fn read(&mut self, into: &mut Vec<u8>, most: u32) -> Result<u32, Failed>
        ensures ok { IfOk result (λ n. Took (Some self.old.left) most n into.old.items into.new.items (Some self.new.left)) }
        ensures exact { IfOk result (λ n. n ≡ size_taken self.old most) }
        ensures after { IfOk result (λ n. self.new ≡ after_take self.old n) }
        ensures fails { IsErrOf result Failed.Fault ↔ Contains self.old.fails self.old.calls }
        ensures fault { IsErrOf result Failed.Fault → self.new ≡ after_fault self.old }
        ensures memory { IsErrOf result Failed.Memory → self.new ≡ self.old }
        ensures err { OnErr result (self.new.left ≡ self.old.left) }
        ensures none { OnErr result (into.new.items ≡ into.old.items) }
        ensures kept { OnOk result (self.new.faults ≡ self.old.faults) }
        ensures later { self.old.faults ≤ self.new.faults }
        ensures cause { IsErrOf result Failed.Fault → Rose self.old.faults self.new.faults }
    {
        if is_listed(&self.fails, self.calls) {
            self.calls = self.calls.saturating_add(1);
            self.fault_count = self.fault_count.saturating_add(1);
            return Err(Failed::Fault);
        }
        let left = self.text.len() - self.at;
        let n = left.min(most as usize).min(self.step as usize);
        match into.extend_from_slice(&self.text[self.at..self.at + n]) {
            Ok(()) => {}
            Err(_) => return Err(Failed::Memory),
        }
        self.at += n;
        self.calls = self.calls.saturating_add(1);
        Ok(n as u32)
    }
}
