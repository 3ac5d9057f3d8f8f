//! Transactions, whose operations have semicolons between them.

use crate::operations::operation;
use case_text::{CaseError, Words};
use object_model::{Op, Transaction};
use std::alloc::Global;
use unit_fields::CollName;

/// The most operations that a line repeats.
const MOST_REPEATS: u32 = 1000;

/// The operation of a text at its so many-th time, which is the number in the place of `#`.
fn numbered(alloc: Global, text: &str, time: u32) -> Result<Op, CaseError> {
    match text.split_once('#') {
        Some((front, back)) => {
            let text = format!(in alloc; "{front}{time}{back}")?;
            operation(alloc, text.as_str())
        }
        None => operation(alloc, text),
    }
}

fn without_memory(back: (CollName, Op)) -> CaseError {
    drop(back);
    CaseError::OutOfMemory
}

/// A transaction that is being made.
#[derive(Drop)]
struct Made {
    alloc: Global,
    /// The collection, until there is an operation on it.
    coll: Option<CollName>,
    change: Option<Transaction>,
}

impl Made {
    /// Begins with the first operation.
    fn begin(&mut self, op: Op) -> Result<(), CaseError> {
        let Some(coll) = self.coll.take() else {
            drop(op);
            return Err(CaseError::Line("it is begun"));
        };
        Transaction::new(self.alloc, coll, op)
            .map(|change| drop(self.change.replace(change)))
            .map_err(without_memory)
    }

    fn push(&mut self, op: Op) -> Result<(), CaseError> {
        match &mut self.change {
            Some(change) => change.push(op).map_err(CaseError::from),
            None => self.begin(op),
        }
    }

    /// Adds the operation of a text, so many times.
    fn add(&mut self, text: &str, times: u32) -> Result<(), CaseError> {
        for time in 0..times {
            self.push(numbered(self.alloc, text, time.wrapping_add(1))?)?;
        }
        Ok(())
    }

    /// Adds a part of a line. An operation behind `repeat COUNT` comes so many times.
    fn add_part(&mut self, part: &str) -> Result<(), CaseError> {
        let mut words = Words::new(part);
        if words.next()? != "repeat" {
            return self.add(part, 1);
        }
        let times = words.small()?.min(MOST_REPEATS);
        self.add(words.text(), times)
    }

    /// Adds all parts of a line.
    fn add_parts(&mut self, line: &str) -> Result<(), CaseError> {
        for part in line.split("; ") {
            self.add_part(part)?;
        }
        Ok(())
    }
}

/// The transaction on a collection whose operations stand in a line.
pub fn transaction(alloc: Global, coll: CollName, line: &str) -> Result<Transaction, CaseError> {
    let mut made = Made {
        alloc,
        coll: Some(coll),
        change: None,
    };
    made.add_parts(line)?;
    made.change.take().ok_or(CaseError::Line("no operation"))
}
