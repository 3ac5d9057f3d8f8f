//! Drafts of plans: what is known of a transaction before the old bytes are read that its plan needs.
ghost use Rattle.std.specs.Prelude.{◌≡◌, false, length, IfOk, IfErr};
ghost use Rattle.object_model.specs.Prelude.{is_too_large};
ghost use Rattle.plan_drafts.specs.Prelude.{IsKnown, AreReadAt};
ghost use Rattle.object_rows.specs.Stores.{AreRowsOfWidth};
ghost use Rattle.txn_planner.specs.Planning.{PlannedTo};
ghost use Rattle.txn_planner.specs.Drafts.{places_in, IsDraftFor, IsPlanRefused};
ghost use Rattle.txn_planner.specs.PlanFails.{IsPlanFor, IsPlanFail};

use crate::fails::PlanFail;
use crate::finishing::row_ops;
use crate::laying::changed_rows;
use crate::planning::Planning;
use crate::standing::{fresh_units, released_units, standing};
use crate::steps::plan_op;
use byte_maps::Items;
use meta_rows::RowTable;
use object_model::{Refusal, Transaction};
use object_rows::coll_name_is_one;
use page_edits::contents;
use plan_rows::{PageUnit, Plan, ReadUnit};
use shared_blobs::lower;
use std::alloc::{AllocError, Global};
use unit_allocator::Allocator;
use unit_fields::{UnitNo, Width};

/// A transaction that can be planned once old bytes are there.
#[derive(Drop)]
pub struct TxnDraft {
    /// What its operations come to.
    pub planning: Planning,
    /// The lowest free units, one for each that it takes.
    pub units: Vec<UnitNo>,
}

impl TxnDraft {
    /// The units that hold the old bytes which the plan needs, by operation and page.
    pub fn places(&self) -> &[PageUnit]
        ensures { result.now ≡ places_in self.now }
    {
        self.planning.places.as_slice()
    }

    /// The plan, where these old bytes were read, each unit whole, in the order of their places.
    ///
    /// Each page that the transaction put takes the free unit of its taking, and the units are released that pages have left: those of objects'
    /// own, and those of slots that no page names any more. The bits of all these in the freelist are turned by the last operations. The
    /// bytes of whole pages aren't copied. It makes no blob.
    pub fn finish(
        self,
        alloc: Global,
        width: Width,
        rows: &RowTable,
        space: &Allocator,
        txn: &Transaction,
        read: Items<ReadUnit>,
    ) -> Result<Plan, AllocError>
        requires good { AreRowsOfWidth width rows.now.rows }
        requires draft { IsDraftFor width txn.now rows.now.rows space.now self }
        requires read { AreReadAt (places_in self) read }
        ensures ok { IfOk result (IsPlanFor width txn.now rows.now.rows space.now (places_in self)) }
        ensures read { IfOk result (λ plan. plan.read ≡ read) }
    {
        let TxnDraft { planning, units } = self;
        let held = contents(
            alloc,
            txn.ops(),
            &planning.writes,
            read.as_slice(),
            planning.taken,
        )?;
        let takings = standing(alloc, &planning.objects)?;
        let fresh = fresh_units(alloc, takings.as_slice(), &units, held.as_slice())?;
        let lowered = lower(alloc, width, rows, &planning.unshared)?;
        let released = released_units(alloc, &planning.left, &lowered.freed)?;
        let changes = changed_rows(
            alloc,
            width,
            rows,
            txn,
            planning,
            &lowered,
            &units,
            held.as_slice(),
        )?;
        let ops = row_ops(alloc, rows, changes, fresh.as_slice(), released.as_slice())?;
        Ok(Plan {
            ops,
            fresh,
            released,
            read,
            new_blobs: 0,
        })
    }
}

// All operations of a transaction, one after the other.
fn plan_ops(
    alloc: Global,
    width: Width,
    rows: &RowTable,
    txn: &Transaction,
) -> Result<Planning, PlanFail>
    requires known { IsKnown txn.now.ops }
    requires small { is_too_large txn.now ≡ false }
    requires good { AreRowsOfWidth width rows.now.rows }
    ensures ok { IfOk result (PlannedTo width txn.now rows.now.rows (length txn.now.ops)) }
    ensures fail { IfErr result (IsPlanRefused width txn.now rows.now.rows) }
{
    let mut planning = Planning::new(alloc, rows, txn.coll())?;
    for at in 0..txn.ops().len() {
        plan_op(alloc, width, rows, txn, at, &mut planning)?;
    }
    Ok(planning)
}

/// The draft of a transaction over the submitted rows, which have checksums of this width, and the free units. `submit` calls it before
/// it changes anything.
pub fn begin(
    alloc: Global,
    width: Width,
    rows: &RowTable,
    space: &Allocator,
    txn: &Transaction,
) -> Result<TxnDraft, PlanFail>
    requires known { IsKnown txn.now.ops }
    requires good { AreRowsOfWidth width rows.now.rows }
    ensures ok { IfOk result (IsDraftFor width txn.now rows.now.rows space.now) }
    ensures fail { IfErr result (IsPlanFail width txn.now rows.now.rows space.now) }
{
    coll_name_is_one(txn.coll());
    if txn.is_too_large() {
        return Err(PlanFail::Refusal(Refusal::TooBig));
    }
    let planning = match plan_ops(alloc, width, rows, txn) {
        Ok(planning) => planning,
        Err(why) => return Err(why),
    };
    match space.lowest_units(alloc, planning.taken) {
        Ok(units) => Ok(TxnDraft { planning, units }),
        Err(why) => Err(PlanFail::from(why)),
    }
}
