//! The row operations of a plan, from the changes of rows and the units that are taken and released.
//!
//! Of an object that isn't what it was, the changes have its shards, each that was there and in whose place none comes, as gone, and its
//! onode where its size is another one; they have the row of the collection where an operation is on that. The other rows are as they
//! were, and needn't be compared. An object's onode and its shards are read by one range of rows: its own key is the front of theirs.
ghost use Rattle.std.specs.Prelude.{map, IfOk};
ghost use Rattle.txn_planner.specs.Finishing.{AreRowOps};

use crate::turns::turn_bits;
use byte_maps::Items;
use meta_rows::{RowOp, RowTable};
use plan_rows::FreshUnit;
use row_changes::RowChanges;
use std::alloc::{AllocError, Global};
use unit_fields::UnitNo;

/// The operations on rows: the difference that the changes make to the table, and behind it those that turn the bits of the fresh units and of
/// the released ones.
pub fn row_ops(
    alloc: Global,
    rows: &RowTable,
    changes: RowChanges,
    fresh: &[FreshUnit],
    released: &[UnitNo],
) -> Result<Items<RowOp>, AllocError>
    ensures { IfOk result (AreRowOps rows.now.rows changes (map (λ f. f.unit) fresh.now) released.now) }
{
    let mut ops = changes.difference(alloc, rows)?.into_vec();
    turn_bits(alloc, &mut ops, fresh, released)?;
    Ok(Items::from_vec(ops))
}
