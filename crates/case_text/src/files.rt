//! The files of cases that a program is given.

use crate::{CaseError, Text};
use std::alloc::Global;
use std::rt::Files;
use std::{fs, io, mem};

/// What follows the lines of a case.
pub trait Follow: Drop {
    /// A case with nothing set up.
    fn begin(alloc: Global) -> Result<Self, CaseError>;

    /// Follows a line, and prints what it shows.
    fn follow(&mut self, line: &str, out: &mut Text) -> Result<(), CaseError>;
}

/// Follows a line of a text. A line `case WORDS` begins a case with nothing set up.
fn follow_line<F: Follow>(
    alloc: Global,
    case: &mut F,
    line: &str,
    out: &mut Text,
) -> Result<(), CaseError> {
    if !line.starts_with("case ") {
        return case.follow(line, out);
    }
    out.println(format_args!("\n{line}"));
    drop(mem::replace(case, F::begin(alloc)?));
    Ok(())
}

/// Prints what the lines of a text come to. A line that can't be followed is printed with what is wrong with it.
fn follow_lines<F: Follow>(alloc: Global, case: &mut F, text: &str, out: &mut Text) {
    for line in text.lines() {
        if let Err(wrong) = follow_line(alloc, case, line, out) {
            out.println(format_args!("{wrong}: {line}"));
        }
    }
}

/// What the file at a path comes to, by the cases of its text.
fn shown<F: Follow>(alloc: Global, path: &str, text: &str) -> Result<String, CaseError> {
    let mut case = F::begin(alloc)?;
    let mut out = Text::new(alloc);
    out.println(format_args!("file {path}"));
    follow_lines(alloc, &mut case, text, &mut out);
    out.finish()
}

/// Prints what the cases of the file at a path come to.
pub fn run_file<F: Follow, R: Files + Print + AllocGlobal>(rt: &R, path: &str) -> io::Result<()> {
    let text = fs::read_to_string(rt, path)?;
    match shown::<F>(rt.alloc(), path, text.as_str()) {
        Ok(out) => rt.print(out.as_str()),
        Err(_) => Err(io::Error::from(io::ErrorKind::OutOfMemory)),
    }
}
