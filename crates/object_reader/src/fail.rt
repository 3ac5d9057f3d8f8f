//! Why a read wasn't answered.
ghost use Rattle.std.specs.Prelude.{◌≡◌};
ghost use Rattle.object_reader.specs.declared.fail.ReadFail.TheVariants.{Memory};

use std::alloc::AllocError;

/// Why a read gave nothing.
#[derive(Clone, Copy)]
pub enum ReadFail {
    /// Memory ran out.
    Memory,
    /// The device failed at a read, and has counted it.
    Fault,
}

impl From<AllocError> for ReadFail {
    ghost from_gives = { λ _ e. e ≡ Memory };

    fn from(_e: AllocError) -> ReadFail {
        ReadFail::Memory
    }
}
