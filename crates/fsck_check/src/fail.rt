//! Why a store wasn't looked through.
ghost use Rattle.std.specs.Prelude.{◌≡◌};
ghost use Rattle.block_device.specs.declared.device.Failed.{Failed};
ghost use Rattle.fsck_check.specs.Checking.{fsck_fail_of};
ghost use Rattle.fsck_check.specs.declared.fail.FsckFail.TheVariants.{Memory};

use block_device::Failed;
use std::alloc::AllocError;
use thiserror::Error;

/// Why a store wasn't looked through.
#[derive(Debug, Drop, Error)]
pub enum FsckFail {
    /// Memory ran out.
    #[error("out of memory")]
    Memory,
    /// The device has fewer than 19 units, or neither superblock slot is valid.
    #[error("the device holds no store")]
    NoSuper,
    /// A read of the device failed, and it has counted that.
    #[error("the device failed")]
    Fault,
}

impl From<AllocError> for FsckFail {
    ghost from_gives = { λ _ e. e ≡ Memory };

    fn from(_e: AllocError) -> FsckFail {
        FsckFail::Memory
    }
}

impl From<Failed> for FsckFail {
    ghost from_gives = { λ why e. e ≡ fsck_fail_of why };

    fn from(why: Failed) -> FsckFail {
        match why {
            Failed::Memory => FsckFail::Memory,
            Failed::Fault => FsckFail::Fault,
        }
    }
}
