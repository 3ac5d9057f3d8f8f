//! What is known of a quiet device, how each call keeps it, and what follows once a kernel is drained.
ghost use Rattle.std.specs.Prelude.{◌≡◌, ℕ, true, List, [], Some, None};
ghost use Rattle.block_device.specs.Prelude.{IsClean, Disk, History};
ghost use Rattle.meta_rows.specs.declared.row_op.RowOp.{RowOp};
ghost use Rattle.meta_log.specs.Prelude.{in_runs};
ghost use Rattle.log_facts.specs.Prelude.{not_sent, SlotsStand, ActiveHalfStands, OtherHalfRests};
ghost use Rattle.unit_allocator.specs.Prelude.{Space};
ghost use Rattle.plan_drafts.specs.Prelude.{PlansKeep};
ghost use Rattle.store_steps.specs.Prelude.{State, is_drained, Found, opened, Call, Calls, IsRun};
ghost use Rattle.run_facts.specs.Prelude.{IsKept};
ghost use Rattle.unit_facts.specs.Known.{IsAnsweredSince, KnownOfUnits, KnowsUnits};

/// A device without a dirty unit, where nothing is in flight and all events since a quiet moment are counted, is known from its slots,
/// from the records in the active half, with zeros behind them, and from the other half, which is zero where it isn't listed as stale.
pub fn a_found_device_is_known()
    ensures { (base : ℕ) (f : Found) (recs : List (List RowOp)) (space : Space) (next events : ℕ) (d : Disk) (h : History) →
        d.history ≡ Some h → d.flights ≡ [] → IsAnsweredSince base h [] events → ((unit : ℕ) → IsClean h.log unit) →
        SlotsStand h f.sup → OtherHalfRests h f.sup (in_runs f.stale) →
        ActiveHalfStands h f.sup f.rows f.tail f.number None 0 not_sent recs →
        KnownOfUnits base (opened f space next events) d h }
{}

/// Each call of a kernel that keeps its facts leaves the device known, where the kernel is up behind it: by the history that
/// the device tells then.
pub fn a_call_keeps_what_is_known()
    ensures { (call : Call) (base : ℕ) (s s' : State) (d d' : Disk) (h h' : History) → IsKept s d → s'.down ≡ None →
        KnownOfUnits base s d h → Calls call s d s' d' → d'.history ≡ Some h' → KnownOfUnits base s' d' h' }
{}

/// So does a run of calls, where plans over good rows keep them good.
#[tactic(auto, using(crate::proofs::Runs::run_knows))]
pub fn a_run_keeps_what_is_known()
    ensures { PlansKeep → (calls : List Call) (base : ℕ) (s s' : State) (d d' : Disk) (h : History) → IsKept s d →
        KnownOfUnits base s d h → IsRun s d calls s' d' → s'.down ≡ None → KnowsUnits base s' d' }
{}

/// Once the kernel is drained no unit of the device is dirty.
pub fn a_drained_kernel_leaves_no_dirty_unit()
    ensures { (base : ℕ) (s : State) (d : Disk) (h : History) → IsKept s d → KnownOfUnits base s d h → s.down ≡ None →
        is_drained d.depth s ≡ true → (unit : ℕ) → IsClean h.log unit }
{}
