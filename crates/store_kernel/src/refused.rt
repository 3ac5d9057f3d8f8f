//! Why a transaction isn't accepted.
ghost use Rattle.std.specs.Prelude.{◌≡◌};
ghost use Rattle.store_kernel.specs.Submitting.{cause_of_plan, cause_of_read};
ghost use Rattle.store_kernel.specs.declared.refused.Cause.TheVariants as cause;

use block_device::Ticket;
use object_model::{Refusal, Transaction};
use page_sources::PartFail;
use std::alloc::AllocError;
use txn_planner::PlanFail;
use unit_fields::UnitNo;

/// Why a transaction was not accepted. The first four have an entry in the book. With each other nothing was noted, and the
/// transaction comes back.
#[derive(Drop)]
pub enum Refused {
    /// The submitted rows refuse it.
    Refusal(Refusal),
    /// It takes more data units than are free (ENOSPC).
    NoSpace { need: u32, free: u32 },
    /// A unit whose old bytes it keeps has another checksum than its row tells.
    Csum { unit: UnitNo, kept: u32, found: u32 },
    /// Its record takes more units than the log has room for.
    MetaFull { need: u32, room: u32 },
    /// The kernel is down, since the submission with this ticket ended badly.
    Down { ticket: Ticket, back: Transaction },
    /// The book has as many entries as it may have.
    BookFull(Transaction),
    /// The device failed at a read of old bytes, and has counted it.
    DeviceRead(Transaction),
    /// Memory ran out.
    Memory(Transaction),
}

/// Why no context was made for a transaction.
#[derive(Clone, Copy)]
pub enum Cause {
    Refusal(Refusal),
    NoSpace { need: u32, free: u32 },
    Csum { unit: UnitNo, kept: u32, found: u32 },
    MetaFull { need: u32, room: u32 },
    DeviceRead,
    Memory,
}

impl From<AllocError> for Cause {
    ghost from_gives = { λ _ e. e ≡ cause.Memory };

    fn from(_e: AllocError) -> Cause {
        Cause::Memory
    }
}

impl From<PlanFail> for Cause {
    ghost from_gives = { λ why e. e ≡ cause_of_plan why };

    fn from(why: PlanFail) -> Cause {
        match why {
            PlanFail::Refusal(refusal) => Cause::Refusal(refusal),
            PlanFail::NoSpace { need, free } => Cause::NoSpace { need, free },
            PlanFail::Memory => Cause::Memory,
        }
    }
}

impl From<PartFail> for Cause {
    ghost from_gives = { λ why e. e ≡ cause_of_read why };

    fn from(why: PartFail) -> Cause {
        match why {
            PartFail::BadPage(bad) => Cause::Csum {
                unit: bad.unit,
                kept: bad.kept,
                found: bad.found,
            },
            PartFail::Fault => Cause::DeviceRead,
            PartFail::Memory => Cause::Memory,
        }
    }
}
