//! A script in a file.
ghost use Rattle.std.specs.Prelude.{◌≡◌, ◌+◌, ◌++◌, ◌<◌, ◌≤◌, ℕ, None, IfOk, length, vec_capacity};

use block_device::Failed;
use end_points::Source;
use std::fs::File;
use std::io::{self, ErrorKind, Read};
use std::marker::Model;

// The most bytes that one call asks the system for.
const PIECE: usize = 16384;

/// A file that is read from where it stands to its end. It doesn't tell its text. Clauses see it as the count of its
/// faults, of which each call of the system that fails is one.
#[derive(Drop)]
pub struct FileSource {
    file: File,
    fault_count: u64,
}

impl Model for FileSource {
    ghost use Rattle.std.specs.Prelude.{ℕ};

    ghost Value = { ℕ };

    ghost view = { λ s. s.fault_count };
}

impl FileSource {
    /// Reads this file.
    pub fn new(file: File) -> FileSource
        ensures { result ≡ 0 }
    {
        FileSource {
            file,
            fault_count: 0,
        }
    }
}

// Reads once, and again where a signal came in between.
fn read_some(file: &mut File, into: &mut [u8]) -> io::Result<usize>
    ensures { IfOk result (λ n. n ≤ length into.old) }
{
    for _ in 0..u64::MAX {
        match file.read(into) {
            Err(e) if e.kind() == ErrorKind::Interrupted => {}
            outcome => return outcome,
        }
    }
    Err(io::Error::from(ErrorKind::Interrupted))
}

// Appends bytes where there is room for them.
fn append_in_room(into: &mut Vec<u8>, bytes: &[u8])
    requires { length into.old.items + length bytes.now ≤ vec_capacity into.old }
    ensures { into.new.items ≡ into.old.items ++ bytes.now }
{
    match into.extend_from_slice(bytes) {
        Ok(()) => {}
        Err(_) => unreachable!(),
    }
}

impl Source for FileSource {
    ghost left = { λ _. None };

    ghost faults = { λ s. s };

    fn read(&mut self, into: &mut Vec<u8>, most: u32) -> Result<u32, Failed> {
        let mut piece = [0u8; PIECE];
        let count = PIECE.min(most as usize);
        if into.reserve(count).is_err() {
            return Err(Failed::Memory);
        }
        match read_some(&mut self.file, &mut piece[..count]) {
            Ok(n) => {
                append_in_room(into, &piece[..n]);
                Ok(n as u32)
            }
            Err(_) => {
                self.fault_count = self.fault_count.saturating_add(1);
                Err(Failed::Fault)
            }
        }
    }
}
