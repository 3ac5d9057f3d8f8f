//! What the lines of a script say.
use crate::Said;
use object_model::Command;

/// A line that says something.
#[derive(Drop)]
pub struct Line {
    /// Its number in the script, from 1 on. Empty lines and comments count too.
    pub line: u32,
    pub what: Said,
}

/// What a line says, as `IsLineOf` of `specs/Grammar.antt` has it.
#[derive(Drop)]
pub enum What {
    /// A transaction or a read of one collection.
    Command(Command),
    /// The client goes on once all its accepted transactions are acknowledged.
    Wait,
}
