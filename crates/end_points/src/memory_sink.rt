// A sink in memory.
ghost use Rattle.std.specs.Prelude.{◌≡◌, ◌↔◌, [], ◌<◌, ◌≤◌, Some, IsErr, IfOk, OnOk, OnErr, length, take, ◌+◌, ◌++◌, vec_capacity};
ghost use Rattle.block_device.specs.Prelude.{Rose};
ghost use Rattle.end_points.specs.Sink.{Put};
ghost use Rattle.end_points.specs.Memory.{room_for, OutputRefuses, after_put, after_refusal};

use crate::memory_source::is_listed;
use crate::{Fault, Sink};
use std::alloc::{AllocError, Global};
use std::marker::Model;

/// An output in memory with room for so many bytes, which tells what it took, and fails at listed
/// calls and where it is full.
#[derive(Drop)]
pub struct MemorySink {
    text: Vec<u8>,
    room: usize,
    step: u32,
    fails: Vec<u64>,
    calls: u64,
    fault_count: u64,
}

impl Model for MemorySink {
    ghost use Rattle.end_points.specs.Memory.{MemoryOutput};

    ghost Value = { MemoryOutput };

    ghost use Rattle.end_points.specs.SinkInside.{memory_output, IsSinkKept};

    ghost view = { memory_output };

    ghost invariant = { IsSinkKept };
}

impl MemorySink {
    /// A sink with room for so many bytes, of which a call takes at most `step`; the calls of these
    /// numbers, from 0 on, fail.
    pub fn new(
        alloc: Global,
        room: usize,
        step: u32,
        fails: Vec<u64>,
    ) -> Result<MemorySink, AllocError>
        requires { 0 < step }
        ensures { IfOk result (λ s. s ≡ record { text = []; room = room; step = step; fails = fails.items; calls = 0; faults = 0 }) }
    {
        Ok(MemorySink {
            text: Vec::with_capacity(alloc, room)?,
            room,
            step,
            fails,
            calls: 0,
            fault_count: 0,
        })
    }

    /// What it took so far.
    pub fn text(&self) -> &[u8]
        ensures { result.now ≡ self.now.text }
    {
        self.text.as_slice()
    }
}

// Appends bytes where there is room for them.
fn append_in_room(text: &mut Vec<u8>, bytes: &[u8])
    requires { length text.old.items + length bytes.now ≤ vec_capacity text.old }
    ensures text { text.new.items ≡ text.old.items ++ bytes.now }
    ensures room { vec_capacity text.old ≤ vec_capacity text.new }
{
    match text.extend_from_slice(bytes) {
        Ok(()) => {}
        Err(_) => unreachable!(),
    }
}

impl Sink for MemorySink {
    ghost written = { λ s. Some s.text };

    ghost faults = { λ s. s.faults };

    fn write(&mut self, piece: &[u8]) -> Result<u32, Fault>
        ensures ok { IfOk result (λ n. Put (Some self.old.text) piece.now n (Some self.new.text)) }
        ensures exact { IfOk result (λ n. n ≡ room_for self.old (length piece.now)) }
        ensures after { IfOk result (λ n. self.new ≡ after_put self.old (take n piece.now)) }
        ensures fails { IsErr result ↔ OutputRefuses self.old piece.now }
        ensures fault { OnErr result (self.new ≡ after_refusal self.old) }
        ensures err { OnErr result (self.new.text ≡ self.old.text) }
        ensures kept { OnOk result (self.new.faults ≡ self.old.faults) }
        ensures later { self.old.faults ≤ self.new.faults }
        ensures cause { OnErr result (Rose self.old.faults self.new.faults) }
    {
        let left = self.room - self.text.len();
        let listed = is_listed(&self.fails, self.calls);
        self.calls = self.calls.saturating_add(1);
        if listed || (left == 0 && !piece.is_empty()) {
            self.fault_count = self.fault_count.saturating_add(1);
            return Err(Fault);
        }
        let n = piece.len().min(left).min(self.step as usize);
        append_in_room(&mut self.text, &piece[..n]);
        Ok(n as u32)
    }
}
