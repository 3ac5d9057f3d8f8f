//! The data units that transactions take and give back.
ghost use Rattle.std.specs.Prelude.{◌≡◌, map};
ghost use Rattle.unit_fields.specs.Prelude.{Ascends};
ghost use Rattle.unit_allocator.specs.Prelude.{taken, given};
ghost use Rattle.store_kernel.specs.Units.{CanBeTaken, CanBeGiven};

use store_steps::FreshUnit;
use unit_allocator::{Allocator, Run};
use unit_fields::UnitNo;

/// Takes the units of a transaction, which ascend.
pub fn take_fresh(space: &mut Allocator, fresh: &[FreshUnit])
    requires ascend { Ascends (map (λ f. f.unit) fresh.now) }
    requires free { CanBeTaken (map (λ f. f.unit) fresh.now) space.old }
    ensures { space.new ≡ taken space.old (map (λ f. f.unit) fresh.now) }
{
    for one in fresh {
        space.take_unit(one.unit);
    }
}

/// Gives the units back that a committed transaction released. Those that are held stay so, and are not free.
pub fn give_back(space: &mut Allocator, units: &[UnitNo])
    requires { CanBeGiven units.now space.old }
    ensures { space.new ≡ given space.old units.now }
{
    for unit in units {
        space.give(Run {
            first: *unit,
            count: 1,
        });
    }
}
