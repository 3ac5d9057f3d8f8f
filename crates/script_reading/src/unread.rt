//! Why scripts weren't read.
ghost use Rattle.std.specs.Prelude.{◌≡◌};
ghost use Rattle.script_reading.specs.declared.unread.Unread.TheVariants.{Memory};

use std::alloc::AllocError;
use thiserror::Error;

/// Why scripts weren't read: what came first ended it.
#[derive(Debug, Drop, Error)]
pub enum Unread {
    /// Memory ran out.
    #[error("out of memory")]
    Memory,
    /// A line of a script is outside the grammar or the limits, the first such line of the first such script.
    #[error("script {script} line {n}")]
    Line {
        /// The script's number, which is its client's.
        script: u32,
        /// The line's number.
        n: u32,
    },
    /// The bay failed to open a script, or the source of a script failed, and has counted it.
    #[error("a script can't be read")]
    Fault,
}

impl From<AllocError> for Unread {
    ghost from_gives = { λ _ e. e ≡ Memory };

    fn from(_e: AllocError) -> Unread {
        Unread::Memory
    }
}
