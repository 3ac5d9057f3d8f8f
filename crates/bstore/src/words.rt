//! The words of the command line.
ghost use Rattle.std.specs.Prelude.{◌≡◌};

use std::alloc::{AllocError, Global};
use std::env;
use std::io::ErrorKind;
use std::rt::Env;

/// The words that the program was called with, its own name first. A word that isn't text is in no command line, so where
/// there is one, this is the list without words, which isn't a command line either. An Err is want of memory.
pub fn words<R: Env + AllocGlobal>(rt: &R) -> Result<Vec<String>, AllocError> {
    match env::args(rt) {
        Ok(words) => words.collect(rt.alloc()),
        Err(e) if e.kind() == ErrorKind::OutOfMemory => Err(AllocError),
        Err(_) => Ok(Vec::new(rt.alloc())),
    }
}
