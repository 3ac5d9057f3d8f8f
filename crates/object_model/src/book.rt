//! The book of a mount: what clients asked and were answered, and what was committed and acknowledged.
ghost use Rattle.std.specs.Prelude.{◌≡◌, []};
ghost use Rattle.object_model.specs.Objects.{Objects};
ghost use Rattle.object_model.specs.Book.{IsLegal};

use crate::asked::Asked;
use crate::command::Answer;
use byte_maps::Items;
use std::alloc::Global;

/// A command and its answer.
#[derive(Drop)]
pub struct Entry {
    /// The client's number.
    pub client: u32,
    /// The line of the client's script that the command stands on.
    pub line: u32,
    pub command: Asked,
    pub answer: Answer,
    /// How many commits were acknowledged when the entry was made.
    pub acks: u32,
}

/// An accepted transaction that was put into a batch of the log.
#[derive(Clone, Copy)]
pub struct Commit {
    /// The place of its entry in the book.
    pub place: u32,
    /// Set at its acknowledgement to the number of device events, submissions and completions, since the mount began.
    pub acked_at: Option<u64>,
}

/// Entries in the order of submission, commits in the order of their batches.
#[derive(Drop)]
pub struct Book {
    pub entries: Items<Entry>,
    pub commits: Items<Commit>,
}

impl Book {
    /// The book of a mount that has accepted no work yet. It is legal whatever the objects are.
    pub fn new(alloc: Global) -> Book
        ensures empty { result ≡ record { entries = []; commits = [] } }
        ensures legal { (objects : Objects) → IsLegal objects result }
    {
        Book {
            entries: Items::new(alloc),
            commits: Items::new(alloc),
        }
    }
}
