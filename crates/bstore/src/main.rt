//! The program: it makes the ends of a store over files and standard output, lets `bstore_top` do the work, and ends with
//! its status. All text goes to standard output, and none to standard error.
//!
//! Proved: where there is no memory for the words of a command line, the status is 5 and `stopped 5` was written, or 6 and the output has
//! failed (`stop_for_memory`). `main` itself has no clause: its few lines are to be read.
//!
//! `main` opens `/dev/null` three times, for reading, before anything else, and keeps what it opened: each opening takes the lowest free
//! descriptor, so none of 0, 1 and 2 is free for a device afterwards, and a write to an output that was closed fails, which is status 6.
//! Where `/dev/null` isn't there, the root folder or the current one is opened in its place: a folder takes no bytes either, and one of
//! them is always there. Where none can be opened no file is opened at all.
#![tactic(auto)]

ghost use Rattle.std.specs.Prelude.{◌≡◌, ◌⊎◌};
ghost use Rattle.block_device.specs.Prelude.{Rose};
ghost use Rattle.end_points.specs.Sink.{with_bytes};

mod words;

use bstore_top::top;
use end_points::{OpenGate, Sink};
use file_ends::{FileBay, OutSink};
use std::alloc::AllocError;
use std::process::ExitCode;
use words::words;

// What the last line of a run says that memory has ended.
const STOPPED: &str = "stopped 5\n";

// Ends a run for which there is no memory, not even for its words: the status is 5, or 6 where the output fails.
fn stop_for_memory<K: Sink>(out: &mut K) -> u8
    ensures status { (result ≡ 5) ⊎ ((result ≡ 6) × Rose (K.faults out.old) (K.faults out.new)) }
    ensures text { result ≡ 5 → K.written out.new ≡ with_bytes (K.written out.old) STOPPED.now }
{
    let mut left = STOPPED.as_bytes();
    while !left.is_empty() {
        match out.write(left) {
            Ok(n) => left = &left[n as usize..],
            Err(_) => return 6,
        }
    }
    5
}

fn main(rt: HostRuntime) -> ExitCode {
    let mut bay = FileBay::new(rt, rt.alloc());
    let mut out = OutSink::new(rt.stdout(), rt);
    let status = match words(&rt) {
        Ok(words) => top(rt.alloc(), &words, &mut bay, &mut out, &OpenGate).status,
        Err(AllocError) => stop_for_memory(&mut out),
    };
    ExitCode::from(status)
}
