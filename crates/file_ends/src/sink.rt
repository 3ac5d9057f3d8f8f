//! Standard output.
ghost use Rattle.std.specs.Prelude.{◌≡◌, ◌<◌, ◌≤◌, ℕ, None, IfSome, length};

use end_points::{Fault, Sink};
use std::io::{ErrorKind, Write};
use std::marker::Model;
use std::thread;
use std::time::{Clock, Duration};

// The most bytes that one call hands to the system.
const PIECE: usize = 1 << 30;

// The milliseconds before a write is tried again for which the output had no room.
const FULL_PAUSE: u64 = 1;

/// An output that passes each piece on to the system before its call returns, so that a failing write is seen at the piece
/// that it lost: `W` keeps nothing back. It doesn't tell what it took. Clauses see it as the count of its faults, of which
/// each write that fails, or takes nothing of a piece, is one.
///
/// An output that doesn't block, as a pipe or a terminal that another program has set so, says at once that it has no room. That
/// is no failure: the write is tried again after a pause by the clock, for as long as a write that blocks would wait.
#[derive(Drop)]
pub struct OutSink<W: Write + Drop, C: Clock + Copy> {
    out: W,
    clock: C,
    fault_count: u64,
}

impl<W: Write + Drop, C: Clock + Copy> Model for OutSink<W, C> {
    ghost use Rattle.std.specs.Prelude.{ℕ};

    ghost Value = { ℕ };

    ghost view = { λ s. s.fault_count };
}

impl<W: Write + Drop, C: Clock + Copy> OutSink<W, C> {
    /// Writes to this output.
    pub fn new(out: W, clock: C) -> OutSink<W, C>
        ensures { result ≡ 0 }
    {
        OutSink {
            out,
            clock,
            fault_count: 0,
        }
    }
}

// Writes once, and again where a signal came in between, or where there was no room. None where nothing was taken.
fn write_some<W: Write, C: Clock>(out: &mut W, clock: &C, piece: &[u8]) -> Option<usize>
    ensures { IfSome result (λ n. (0 < n) × (n ≤ length piece.now)) }
{
    for _ in 0..u64::MAX {
        match out.write(piece) {
            Ok(0) => return None,
            Ok(n) => return Some(n),
            Err(e) if e.kind() == ErrorKind::Interrupted => {}
            Err(e) if e.kind() == ErrorKind::WouldBlock => thread::sleep(
                clock,
                Duration::from_millis(FULL_PAUSE),
            ),
            Err(_) => return None,
        }
    }
    None
}

impl<W: Write + Drop, C: Clock + Copy> Sink for OutSink<W, C> {
    ghost written = { λ _. None };

    ghost faults = { λ s. s };

    fn write(&mut self, piece: &[u8]) -> Result<u32, Fault> {
        if piece.is_empty() {
            return Ok(0);
        }
        let count = PIECE.min(piece.len());
        match write_some(&mut self.out, &self.clock, &piece[..count]) {
            Some(n) => Ok(n as u32),
            None => {
                self.fault_count = self.fault_count.saturating_add(1);
                Err(Fault)
            }
        }
    }
}
