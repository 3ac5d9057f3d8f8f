//! What plans come to. Each function has laws for its contract and does nothing.
ghost use Rattle.std.specs.Prelude.{Option, Err, IsOk, true, false, ◌≡◌, ◌≤◌, ◌+◌, ◌^◌, ℕ, List, length};
ghost use Rattle.meta_log.specs.declared.slot.Super.{Super};
ghost use Rattle.meta_log.specs.Prelude.{width_of};
ghost use Rattle.meta_rows.specs.Prelude.{Rows, rows_size, ops_bytes};
ghost use Rattle.object_model.specs.declared.op.Refusal.{Refusal};
ghost use Rattle.object_model.specs.declared.op.Refusal.TheVariants.{TooBig};
ghost use Rattle.object_model.specs.Prelude.{Objects, Change, transaction_effect, submitted_effect, is_too_large};
ghost use Rattle.unit_fields.specs.Prelude.{IsCollName};
ghost use Rattle.store_image.specs.Prelude.{NoBadRow, IsShape};
ghost use Rattle.unit_allocator.specs.Prelude.{Space};
ghost use Rattle.plan_rows.specs.declared.plan.Plan.{Plan};
ghost use Rattle.plan_drafts.specs.Prelude.{Layout, CollDraft, AreTaken, AreRefused, Begins, IsGood, AreFreeOver, Plans, PlansKeep, AsksAreFew};

/// Each plan that the planner may make keeps and makes what is asked of a plan, and takes free units.
pub fn plans_keep()
    ensures { PlansKeep }
{}

/// The operations of a plan take few bytes in a record, and no more than the rows that may go.
pub fn records_are_short()
    ensures { (s : Super) (view : Rows) (space : Space) (next : ℕ) (change : Change) (plan : Plan) → IsGood s view
        → AreFreeOver s view space → Plans (width_of s) change view space next plan → length (ops_bytes plan.ops) ≤ 2 ^ 40 + rows_size view }
{}

/// Before it is planned, a transaction asks for no more units than its operations ask for at most.
pub fn asks_are_few()
    ensures { AsksAreFew }
{}

/// Which reply a transaction gets is decided by its size, and then by its operations, each over the draft that those before it lead to: whatever
/// objects have the shape of the rows, it is this one.
pub fn replies_by_drafts()
    ensures too_large { (change : Change) (objects : Objects) → is_too_large change ≡ true → submitted_effect change objects ≡ Err TooBig }
    ensures small { (change : Change) (objects : Objects) → is_too_large change ≡ false
        → submitted_effect change objects ≡ transaction_effect change objects }
    ensures refused { (s : Super) (rows : Rows) (objects : Objects) (change : Change) (layouts : List ℕ → Option Layout) (start : CollDraft)
        → NoBadRow s rows → IsCollName change.coll → Begins (width_of s) rows change.coll layouts start → IsShape rows objects
        → (refusal : Refusal) → AreRefused change.ops start refusal → transaction_effect change objects ≡ Err refusal }
    ensures taken { (s : Super) (rows : Rows) (objects : Objects) (change : Change) (layouts : List ℕ → Option Layout) (start : CollDraft)
        → NoBadRow s rows → IsCollName change.coll → Begins (width_of s) rows change.coll layouts start → IsShape rows objects
        → AreTaken change.ops start → IsOk (transaction_effect change objects) }
{}
