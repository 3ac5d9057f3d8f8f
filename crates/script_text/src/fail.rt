//! Why a script was not read, and why words weren't.
ghost use Rattle.std.specs.Prelude.{◌≡◌};
ghost use Rattle.script_text.specs.declared.fail.ScriptFail.TheVariants.{Memory};
ghost use Rattle.script_text.specs.declared.fail.WordFail.TheVariants.{Memory as NoMemory};
ghost use Rattle.script_text.specs.Reading.{of_source};

use block_device::Failed;
use std::alloc::{AllocError, AllocFailed};
use thiserror::Error;

/// Why a script was not read.
#[derive(Debug, Drop, Error)]
pub enum ScriptFail {
    /// Memory ran out.
    #[error("out of memory")]
    Memory,
    /// The first line outside the grammar or the limits, by its number from 1 on.
    #[error("line {n}")]
    Line { n: u32 },
    /// The source failed, and has counted it.
    #[error("the script can't be read")]
    ReadFault,
}

impl From<AllocError> for ScriptFail {
    ghost from_gives = { λ _ e. e ≡ Memory };

    fn from(_e: AllocError) -> ScriptFail {
        ScriptFail::Memory
    }
}

impl From<Failed> for ScriptFail {
    ghost from_gives = { λ failed e. e ≡ of_source failed };

    fn from(failed: Failed) -> ScriptFail {
        match failed {
            Failed::Memory => ScriptFail::Memory,
            Failed::Fault => ScriptFail::ReadFault,
        }
    }
}

/// Why words weren't read.
#[derive(Drop)]
pub enum WordFail {
    /// Memory ran out.
    Memory,
    /// They don't spell what was looked for.
    NotSpelled,
}

impl From<AllocError> for WordFail {
    ghost from_gives = { λ _ e. e ≡ NoMemory };

    fn from(_e: AllocError) -> WordFail {
        WordFail::Memory
    }
}

impl<T: Drop> From<AllocFailed<T>> for WordFail {
    ghost from_gives = { λ _ e. e ≡ NoMemory };

    fn from(_e: AllocFailed<T>) -> WordFail {
        WordFail::Memory
    }
}
