//! The operations on the freelist's bitmap that go with a write.
//!
//! In Ceph's BlueStore `_txc_finalize_kv` calls `allocate` and `release` of the freelist for the units of a transaction.
ghost use Rattle.std.specs.Prelude.{map, OnOk};
ghost use Rattle.txn_planner.specs.Turns.{GetsUnits, GetTurns};

use bitmap_freelist::push_flips;
use meta_rows::RowOp;
use plan_rows::FreshUnit;
use std::alloc::{AllocError, Global};
use unit_fields::{UnitNo, UnitSet};

/// Puts these units in the set, in whichever order they come.
pub fn insert_all(set: &mut UnitSet, units: &[UnitNo]) -> Result<(), AllocError>
    ensures { OnOk result (GetsUnits units.now set.old set.new) }
{
    for unit in units {
        set.insert(unit.number())?;
    }
    Ok(())
}

// Puts the units of these in the set.
fn insert_fresh(set: &mut UnitSet, fresh: &[FreshUnit]) -> Result<(), AllocError>
    ensures { OnOk result (GetsUnits (map (λ f. f.unit) fresh.now) set.old set.new) }
{
    for one in fresh {
        set.insert(one.unit.number())?;
    }
    Ok(())
}

/// Pushes the operations that turn the bits of the units that a write takes and of those that it releases, each bit once.
pub fn turn_bits(
    alloc: Global,
    ops: &mut Vec<RowOp>,
    fresh: &[FreshUnit],
    released: &[UnitNo],
) -> Result<(), AllocError>
    ensures { OnOk result (GetTurns (map (λ f. f.unit) fresh.now) released.now ops.old.items ops.new.items) }
{
    let mut units = UnitSet::new(alloc);
    insert_fresh(&mut units, fresh)?;
    insert_all(&mut units, released)?;
    push_flips(ops, &units)
}
