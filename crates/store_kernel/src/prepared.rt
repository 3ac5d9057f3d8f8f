//! A transaction with all that it takes to accept it.
ghost use Rattle.std.specs.Prelude.{◌≡◌, ℕ, ◌<◌, ◌^◌, length};
ghost use Rattle.meta_rows.specs.Prelude.{ops_bytes};
ghost use Rattle.meta_log.specs.Prelude.{unit_count};

use byte_maps::Items;
use meta_log::units_of_body;
use meta_rows::{RowOp, encoded_len};
use store_steps::Plan;
use txn_states::{Prepared, Waiting};
use unit_fields::CollName;

/// A plan, and what else its context and the submitted rows need.
#[derive(Drop)]
pub struct PreparedTxn {
    pub plan: Plan,
    /// The units of a record of the plan's operations alone.
    pub need: u32,
    /// The operations once more, for the submitted rows.
    pub copy: Items<RowOp>,
    /// The name of the collection.
    pub coll: CollName,
}

impl PreparedTxn {
    ghost use Rattle.txn_states.specs.States.{prepared_context};

    /// The context at this place of the book, none of whose data writes is submitted, and the operations for the submitted rows.
    pub fn split(self, place: u32) -> (Waiting, Vec<RowOp>)
        requires { length self.plan.fresh < 2 ^ 32 }
        ensures context { result.0 ≡ prepared_context place self.coll self.plan self.need }
        ensures copy { result.1.items ≡ self.copy }
    {
        let PreparedTxn {
            plan,
            need,
            copy,
            coll,
        } = self;
        let context = Prepared::new(place, coll, plan, need);
        (context.start(), copy.into_vec())
    }
}

/// How many units a record of these operations alone takes, whatever its number is.
pub fn units_needed(ops: &[RowOp]) -> u32
    requires { length (ops_bytes ops.now) < 2 ^ 43 }
    ensures { (number : ℕ) → result ≡ unit_count number ops.now }
{
    units_of_body(encoded_len(ops)) as u32
}
