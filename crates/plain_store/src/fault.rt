//! Why a transaction was not applied.
ghost use Rattle.std.specs.Prelude.{◌≡◌};
ghost use Rattle.plain_store.specs.declared.fault.ArgFault.TheVariants.{Memory};

use object_model::Refusal;
use std::alloc::{AllocError, AllocFailed};

/// A transaction was refused, or memory ran out before that was known.
#[derive(Drop)]
pub enum ArgFault {
    /// Want of memory.
    Memory,
    /// The first refusal among its operations, or `TooBig` for the whole of it.
    Refused(Refusal),
}

impl From<AllocError> for ArgFault {
    ghost from_gives = { λ _ e. e ≡ Memory };

    fn from(_e: AllocError) -> ArgFault {
        ArgFault::Memory
    }
}

impl<T: Drop> From<AllocFailed<T>> for ArgFault {
    ghost from_gives = { λ _ e. e ≡ Memory };

    fn from(_e: AllocFailed<T>) -> ArgFault {
        ArgFault::Memory
    }
}
