//! Why nothing was read.
ghost use Rattle.std.specs.Prelude.{◌≡◌};
ghost use Rattle.txn_codec.specs.declared.fail.ReadFail.TheVariants.{Memory};

use std::alloc::{AllocError, AllocFailed};

/// Why nothing was read.
#[derive(Drop)]
pub enum ReadFail {
    /// Memory ran out.
    Memory,
    /// The bytes begin with no spelling of what was looked for.
    NotSpelled,
}

impl From<AllocError> for ReadFail {
    ghost from_gives = { λ _ e. e ≡ Memory };

    fn from(_e: AllocError) -> ReadFail {
        ReadFail::Memory
    }
}

impl<T: Drop> From<AllocFailed<T>> for ReadFail {
    ghost from_gives = { λ _ e. e ≡ Memory };

    fn from(_e: AllocFailed<T>) -> ReadFail {
        ReadFail::Memory
    }
}
