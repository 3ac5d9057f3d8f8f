//! What is wrong with a line of a case.

use std::alloc::{AllocError, AllocFailed};
use std::fmt;

/// A line of a case wasn't followed.
#[derive(Clone, Copy)]
pub enum CaseError {
    /// Memory ran out.
    OutOfMemory,
    /// What is wrong with the line.
    Line(&'static str),
}

impl fmt::Display for CaseError {
    fn fmt<W: fmt::Write>(&self, f: &mut fmt::Formatter<W>) -> fmt::Result {
        match self {
            CaseError::OutOfMemory => write!(f, "out of memory"),
            CaseError::Line(why) => write!(f, "{why}"),
        }
    }
}

impl From<AllocError> for CaseError {
    fn from(error: AllocError) -> CaseError {
        let _ = error;
        CaseError::OutOfMemory
    }
}

impl<T: Drop> From<AllocFailed<T>> for CaseError {
    fn from(error: AllocFailed<T>) -> CaseError {
        let _ = error;
        CaseError::OutOfMemory
    }
}
