//! Scripts: the lines of one client, as commands with their line numbers; and names as scripts spell them.
//!
//! Proved: the commands and `wait`s are those of the grammar, of all bytes up to the end; a script is refused exactly where a line is
//! outside the grammar or the limits, or can't stand behind those before it, by the number of the first such line, or where a block isn't
//! ended, by the number one past the last line; a failed read is answered only where the source's count rose, and any other answer comes
//! only where it didn't. A block is one transaction of all its operations, with the line of its `begin`. Of `wait`s one behind another
//! only the first is kept. What is said is kept with its data as they are spelled, and written out when it is used (`Said::into_what`).
#![tactic(auto)]

mod about;
mod both;
mod change;
mod data;
mod escape;
mod fail;
mod grammar;
mod hex;
mod laws;
mod line;
mod number;
mod pair;
mod parser;
mod reader;
mod said;
mod script;
mod split;
mod values;

pub use escape::spell_byte;
pub use fail::ScriptFail;
pub use laws::{
    each_line_fits, few_commands, one_bad_line, one_data, one_meaning, one_name, one_number,
    one_script, one_word_for_a_name, script_or_bad,
};
pub use line::{Line, What};
pub use said::Said;
pub use script::read_script;
