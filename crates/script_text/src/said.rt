//! What a line or a block says, as it is kept until it is used.
ghost use Rattle.std.specs.Prelude.{◌≡◌, IfOk, MatchOption};
ghost use Rattle.object_model.specs.declared.command.Command.TheVariants.{Change, Read as Reads};
ghost use Rattle.script_text.specs.declared.line.What.TheVariants.{Command as Commands, Wait};
ghost use Rattle.script_text.specs.Grammar.{is_wait, op_line};
ghost use Rattle.script_text.specs.Kept.{IsNoChange};

use crate::What;
use crate::change::{KeptChange, KeptOp};
use object_model::{Command, Op, Read};
use std::alloc::{AllocError, Global};
use std::marker::Model;
use unit_fields::CollName;

/// What a line or a block says, in memory in proportion to its text: the bytes of a `fill` aren't there before `into_what`.
#[derive(Drop)]
pub struct Said {
    kept: Kept,
}

/// A transaction with its data as they are spelled, a read or a `wait`.
#[derive(Drop)]
enum Kept {
    Change(KeptChange),
    Read(Read),
    Wait,
}

impl Model for Said {
    ghost use Rattle.script_text.specs.declared.line.What.{What};

    ghost Value = { What };

    ghost use Rattle.script_text.specs.Kept.{kept_what};

    ghost view = { λ a. kept_what a.kept };
}

impl Said {
    /// A read.
    pub fn read(read: Read) -> Said
        ensures { result ≡ Commands (Reads read) }
    {
        Said {
            kept: Kept::Read(read),
        }
    }

    /// A `wait`.
    pub fn wait() -> Said
        ensures { result ≡ Wait }
    {
        Said { kept: Kept::Wait }
    }

    /// A transaction.
    pub fn change(change: KeptChange) -> Said
        ensures { result ≡ Commands (Change change) }
    {
        Said {
            kept: Kept::Change(change),
        }
    }

    /// A transaction of an operation that is kept so.
    pub fn kept_op(alloc: Global, coll: CollName, op: KeptOp) -> Said
        ensures { result ≡ op_line coll op }
    {
        Said::change(KeptChange::new(alloc, coll, op))
    }

    /// A transaction of this operation.
    pub fn op(alloc: Global, coll: CollName, op: Op) -> Said
        ensures { result ≡ op_line coll op }
    {
        Said::kept_op(alloc, coll, KeptOp::of(op))
    }

    /// Whether it is a `wait`.
    pub fn is_wait(&self) -> bool
        ensures { result ≡ is_wait self.now }
    {
        matches!(&self.kept, Kept::Wait)
    }

    /// The transaction, if it is one.
    pub fn into_change(self) -> Option<KeptChange>
        ensures { MatchOption result (IsNoChange self) (λ change. self ≡ Commands (Change change)) }
    {
        match self.kept {
            Kept::Change(change) => Some(change),
            Kept::Read(read) => {
                drop(read);
                None
            }
            Kept::Wait => None,
        }
    }

    /// What it says, with its data written out: this takes their memory.
    pub fn into_what(self, alloc: Global) -> Result<What, AllocError>
        ensures { IfOk result (λ what. what ≡ self) }
    {
        match self.kept {
            Kept::Change(change) => {
                let change = change.into_transaction(alloc)?;
                Ok(What::Command(Command::Change(change)))
            }
            Kept::Read(read) => Ok(What::Command(Command::Read(read))),
            Kept::Wait => Ok(What::Wait),
        }
    }
}
