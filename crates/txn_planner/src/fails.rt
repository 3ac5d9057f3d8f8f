//! Why a transaction isn't planned.
ghost use Rattle.std.specs.Prelude.{◌≡◌};
ghost use Rattle.txn_planner.specs.PlanFails.{plan_fail_of};
ghost use Rattle.txn_planner.specs.declared.fails.PlanFail.TheVariants.{Memory};

use object_model::Refusal;
use std::alloc::AllocError;
use unit_allocator::TakeFail;

/// Why there is no plan.
#[derive(Clone, Copy)]
pub enum PlanFail {
    /// The submitted rows refuse the transaction, or it is too large as a whole.
    Refusal(Refusal),
    /// It takes more units than are free (ENOSPC).
    NoSpace { need: u32, free: u32 },
    /// Memory ran out.
    Memory,
}

impl From<AllocError> for PlanFail {
    ghost from_gives = { λ _ e. e ≡ Memory };

    fn from(_e: AllocError) -> PlanFail {
        PlanFail::Memory
    }
}

impl From<TakeFail> for PlanFail {
    ghost from_gives = { λ why e. e ≡ plan_fail_of why };

    fn from(why: TakeFail) -> PlanFail {
        match why {
            TakeFail::NoSpace { need, free } => PlanFail::NoSpace { need, free },
            TakeFail::Memory => PlanFail::Memory,
        }
    }
}
