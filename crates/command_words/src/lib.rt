//! The words of a command line: which of them are one, and what they say.
//!
//! Proved: words are a command line exactly where `clap` finds no fault in them by the table, and the values that it finds are in
//! range; what the line says are these values. For words that are none a text comes back, of which no clause says what it is; want of
//! memory is the only other answer.
#![tactic(auto)]

mod command_line;
mod file_names;
mod laws;
mod no_line;
mod table;

pub use command_line::{CommandLine, read_words};
pub use file_names::{FileName, FileNames};
pub use laws::{a_spelled_line_is_one, taken_words_spell_a_line, words_spell_one_line};
pub use no_line::NoLine;
