//! What the cases of a file come to, as text.

use crate::CaseError;
use std::alloc::Global;
use std::fmt::{Display, Write};

/// Text that is printed into memory. Where memory runs out for a part of it, that part is missing, which `finish` tells.
#[derive(Drop)]
pub struct Text {
    text: String,
    is_whole: bool,
}

impl Text {
    /// Nothing is printed yet.
    pub fn new(alloc: Global) -> Text {
        Text {
            text: String::new(alloc),
            is_whole: true,
        }
    }

    /// Prints a value behind what there is.
    pub fn print<D: Display + Drop>(&mut self, value: D) {
        if write!(self.text, "{value}").is_err() {
            self.is_whole = false;
        }
    }

    /// Prints a value and an end of line.
    pub fn println<D: Display + Drop>(&mut self, value: D) {
        if writeln!(self.text, "{value}").is_err() {
            self.is_whole = false;
        }
    }

    /// What is printed so far.
    pub fn as_str(&self) -> &str {
        self.text.as_str()
    }

    /// Prints a text that is printed already.
    pub fn append(&mut self, other: &Text) {
        self.print(other.text.as_str());
        self.is_whole = self.is_whole && other.is_whole;
    }

    /// All that was printed.
    pub fn finish(self) -> Result<String, CaseError> {
        if self.is_whole {
            Ok(self.text)
        } else {
            Err(CaseError::OutOfMemory)
        }
    }
}
