//! The lines of a case: reads, and transactions whose operations have semicolons between them.

use crate::answers::print_answer;
use crate::questions::question;
use crate::transactions::transaction;
use case_text::{CaseError, Follow, Text};
use object_model::{Answer, Command};
use plain_store::{ArgFault, Plain};
use std::alloc::Global;
use unit_fields::CollName;

/// The objects of a case, all of one collection.
#[derive(Drop)]
pub struct ObjectLines {
    alloc: Global,
    coll: CollName,
    plain: Plain,
}

/// The command of a line on a collection.
fn command(alloc: Global, coll: CollName, line: &str) -> Result<Command, CaseError> {
    match question(alloc, &coll, line)? {
        Some(read) => Ok(Command::Read(read)),
        None => transaction(alloc, coll, line).map(Command::Change),
    }
}

impl ObjectLines {
    /// Applies the transaction of a command that was accepted.
    fn apply(&mut self, command: &Command) -> Result<(), CaseError> {
        let Command::Change(change) = command else {
            return Ok(());
        };
        match self.plain.apply(self.alloc, change) {
            Ok(()) => Ok(()),
            Err(ArgFault::Refused(_)) => Err(CaseError::Line("refused after all")),
            Err(ArgFault::Memory) => Err(CaseError::OutOfMemory),
        }
    }

    /// Shows the answer to a command. A transaction that is accepted is applied.
    fn answer(&mut self, command: &Command, out: &mut Text) -> Result<(), CaseError> {
        let answer = self.plain.reply(self.alloc, command)?;
        print_answer(&answer, out);
        let is_accepted = matches!(&answer, Answer::Accepted);
        drop(answer);
        if is_accepted {
            self.apply(command)
        } else {
            Ok(())
        }
    }
}

impl Follow for ObjectLines {
    /// A store without collections.
    fn begin(alloc: Global) -> Result<ObjectLines, CaseError> {
        Ok(ObjectLines {
            alloc,
            coll: CollName::new(alloc, 1, 0)?,
            plain: Plain::new(alloc),
        })
    }

    /// Follows a line of a case, and shows it and its answer; nothing of a comment and an empty line.
    fn follow(&mut self, line: &str, out: &mut Text) -> Result<(), CaseError> {
        if line.is_empty() || line.starts_with('#') {
            return Ok(());
        }
        let coll = self.coll.copy(self.alloc)?;
        let command = command(self.alloc, coll, line)?;
        out.println(line);
        let answered = self.answer(&command, out);
        drop(command);
        answered
    }
}
