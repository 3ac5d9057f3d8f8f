//! Why words spell no command line that can be run.

use std::alloc::AllocError;

/// Why words were read as no command line.
#[derive(Drop)]
pub enum NoLine {
    /// Memory ran out.
    Memory,
    /// They are none. The text says what was wrong, or is the help that was asked for; it ends with a line feed.
    Told { text: String },
}

impl From<AllocError> for NoLine {
    ghost use Rattle.std.specs.Prelude.{◌≡◌};
    ghost use Rattle.command_words.specs.declared.no_line.NoLine.TheVariants.{Memory};

    ghost from_gives = { λ _ e. e ≡ Memory };

    fn from(_e: AllocError) -> NoLine {
        NoLine::Memory
    }
}
