//! Text on its way to a sink, in pieces.
//!
//! A text goes to the sink in pieces of at most 16 KiB, from room on the stack. Printing takes memory for one thing alone, a note for
//! each entry whether its commit is acknowledged and where the next entry of its client is; where there is none for it, the commits are
//! searched for each entry, and the entries for each of the 64 clients. So a status 5 comes from the run and never from its text, and a
//! run whose memory has ended still says what it has.
ghost use Rattle.std.specs.Prelude.{◌≡◌, ◌+◌, ◌<◌, ◌≤◌, [], ◌++◌, ℕ, List, false, MatchResult, OnOk, OnErr, length, decimal};
ghost use Rattle.run_texts.specs.Printed.{Output, output, TookAll, TookFront};
ghost use Rattle.run_texts.specs.Printing.{AddsText, PrintedSoFar};

use arrayvec::ArrayVec;
use end_points::{Fault, Sink};
use itoa::Buffer;
use std::marker::Model;

// How many bytes of a text wait at most before they go to the sink.
const ROOM: usize = 16384;

/// A text that is printed piece by piece: what is added waits until there are 16 KiB of it, and then goes to the sink. It
/// takes no memory. Once the sink has failed, nothing more goes to it, and what is added is dropped.
#[derive(Drop)]
pub struct Printer {
    waiting: ArrayVec<u8, ROOM>,
    failed: bool,
}

impl Model for Printer {
    ghost use Rattle.std.specs.Prelude.{◌≤◌, length};
    ghost use Rattle.run_texts.specs.Printing.{Waiting};

    ghost Value = { Waiting };

    ghost view = { λ p. record { bytes = p.waiting.items; failed = p.failed } };
}

/// Writes all of a text, or as much of it as the sink takes before it fails.
fn write_all<K: Sink>(out: &mut K, text: &[u8]) -> Result<(), Fault>
    ensures ok { OnOk result (TookAll text.now (output (K.written out.old) (K.faults out.old)) (output (K.written out.new) (K.faults out.new))) }
    ensures err { OnErr result (TookFront text.now (output (K.written out.old) (K.faults out.old)) (output (K.written out.new) (K.faults out.new))) }
{
    let mut at = 0;
    while at < text.len() {
        at += out.write(&text[at..])? as usize;
    }
    Ok(())
}

impl Printer {
    /// With nothing that waits.
    pub fn new() -> Printer
        ensures { result ≡ record { bytes = []; failed = false } }
    {
        Printer {
            waiting: ArrayVec::new(),
            failed: false,
        }
    }

    /// Whether the sink has failed.
    pub fn has_failed(&self) -> bool
        ensures { result ≡ self.now.failed }
    {
        self.failed
    }

    /// Writes what waits, and says whether the sink has failed at it or before.
    fn write_waiting<K: Sink>(&self, out: &mut K) -> bool
        ensures { AddsText [] self.now (record { bytes = []; failed = result })
            (output (K.written out.old) (K.faults out.old)) (output (K.written out.new) (K.faults out.new)) }
    {
        if self.failed {
            return true;
        }
        match write_all(out, self.waiting.as_slice()) {
            Ok(()) => false,
            Err(Fault) => true,
        }
    }

    /// Writes what waits, and drops it where the sink fails or has failed.
    fn pass_on<K: Sink>(&mut self, out: &mut K)
        ensures adds { AddsText [] self.old self.new (output (K.written out.old) (K.faults out.old)) (output (K.written out.new) (K.faults out.new)) }
        ensures empty { self.new.bytes ≡ [] }
    {
        self.failed = self.write_waiting(out);
        self.waiting.clear();
    }

    /// Makes room for a byte at least, and says for how many there is room.
    fn make_room<K: Sink>(&mut self, out: &mut K) -> usize
        ensures adds { AddsText [] self.old self.new (output (K.written out.old) (K.faults out.old)) (output (K.written out.new) (K.faults out.new)) }
        ensures some { 0 < result }
        ensures room { result + length self.new.bytes ≡ 16384 }
    {
        if self.waiting.is_full() {
            self.pass_on(out);
        }
        self.waiting.remaining_capacity()
    }

    /// Lets bytes wait for which there is room.
    fn keep(&mut self, bytes: &[u8])
        requires { length self.old.bytes + length bytes.now ≤ 16384 }
        ensures { self.new ≡ record self.old { bytes = self.old.bytes ++ bytes.now } }
    {
        match self.waiting.try_extend_from_slice(bytes) {
            Ok(()) => {}
            Err(_) => unreachable!(),
        }
    }

    /// Adds bytes.
    pub fn push<K: Sink>(&mut self, out: &mut K, bytes: &[u8])
        ensures { AddsText bytes.now self.old self.new (output (K.written out.old) (K.faults out.old)) (output (K.written out.new) (K.faults out.new)) }
    {
        let mut left = bytes;
        'pieces: while !left.is_empty() {
            let room = self.make_room(out);
            let (piece, rest) = left.split_at(left.len().min(room));
            self.keep(piece);
            left = rest;
        }
    }

    /// Adds a text.
    pub fn push_str<K: Sink>(&mut self, out: &mut K, text: &str)
        ensures { AddsText text.now self.old self.new (output (K.written out.old) (K.faults out.old)) (output (K.written out.new) (K.faults out.new)) }
    {
        self.push(out, text.as_bytes());
    }

    /// Adds a number in decimal.
    pub fn push_number<K: Sink>(&mut self, out: &mut K, number: u64)
        ensures { AddsText (decimal number) self.old self.new (output (K.written out.old) (K.faults out.old)) (output (K.written out.new) (K.faults out.new)) }
    {
        let mut digits = Buffer::new();
        self.push_str(out, digits.format(number));
    }

    /// Writes what waits. An Err says that the sink has failed, now or before.
    pub fn finish<K: Sink>(self, out: &mut K) -> Result<(), Fault>
        ensures { (start : Output) (text : List ℕ) → PrintedSoFar self.failed start text self.bytes (output (K.written out.old) (K.faults out.old)) →
            MatchResult result (λ _. TookAll text start (output (K.written out.new) (K.faults out.new)))
            (λ _. TookFront text start (output (K.written out.new) (K.faults out.new))) }
    {
        let mut printer = self;
        printer.pass_on(out);
        if printer.failed { Err(Fault) } else { Ok(()) }
    }
}
