//! What the kernel keeps, and that its steps come to an end. Each function has laws for its contract and does nothing.
ghost use Rattle.std.specs.Prelude.{◌≡◌, ℕ, ◌+◌, ◌*◌, ◌^◌, ◌<◌, ◌≤◌, Bool, true, List, [], ◌++◌, length, map, slice_get, Contains, Option, Some, None, is_some, if◌then◌else◌};
ghost use Rattle.std.specs.List.{AllByRecursion};
ghost use Rattle.std.specs.Option.{option_or};
ghost use Rattle.unit_fields.specs.Prelude.{Ascends};
ghost use Rattle.selections.specs.Fair.{IsComplete};
ghost use Rattle.block_device.specs.declared.device.Ticket.{Ticket};
ghost use Rattle.block_device.specs.Prelude.{Disk, IsSound, IsNotInFlight, IsUntouched};
ghost use Rattle.meta_rows.specs.Prelude.{ops_bytes, row_sets, rows_size, AllFit};
ghost use Rattle.meta_log.specs.declared.runs.UnitRun.{UnitRun};
ghost use Rattle.meta_log.specs.Prelude.{IsSuper, unit_count, check_units, active_unit, other_unit, other_slot, next_super, width_of};
ghost use Rattle.log_facts.specs.Prelude.{IsSpellable};
ghost use Rattle.switch_facts.specs.Prelude.{IsPieceOf, AreApart};
ghost use Rattle.object_model.specs.Prelude.{Change};
ghost use Rattle.store_image.specs.Prelude.{HasPage};
ghost use Rattle.plan_rows.specs.declared.plan.Plan.{Plan};
ghost use Rattle.plan_drafts.specs.Prelude.{PlansKeep, IsKnown};
ghost use Rattle.object_model.specs.declared.command.Read.{Read};
ghost use Rattle.object_model.specs.declared.command.Answer.{Answer};
ghost use Rattle.unit_allocator.specs.Prelude.{Space, free_units};
ghost use Rattle.store_steps.specs.declared.step.Step.{Step};
ghost use Rattle.store_steps.specs.declared.step.Step.TheVariants.{Data, Flush, Seal, Record, Sync, CheckWrite, CheckFlush, SlotWrite, SlotFlush};
ghost use Rattle.store_steps.specs.declared.context.Context.{Context};
ghost use Rattle.meta_store.specs.Store.{Begun, Checking};
ghost use Rattle.store_steps.specs.Prelude.{Batch, State, Unsent, unsent_units, run_bytes, next_unsent, batch_ops, check_pieces, piece_unit, begun_piece_bytes, Found, opened, is_ready, is_ready_up, is_drained, DoesOrFails, Reads, Call, Calls, IsRun, Accepts, Refuses, chosen, choice, left_by, accepted_with, data_sent, reaped, taken_up, committed_batch, uncommitted, all_fresh, bytes_in, memory_of, intents, is_in, SpaceIsCounted, HoldsAreCounted, Footprint};
ghost use Rattle.flight_facts.specs.Prelude.{measure};
ghost use Rattle.run_facts.specs.Prelude.{IsKept, IsOpenable};

/// Each step that is ready keeps what the kernel keeps, whatever the device answers, and leaves less to do or fewer answers None
/// in a row: so steps come to an end.
#[tactic(auto, using(crate::proofs::Kept::step_laws))]
pub fn steps_keep()
    ensures kept { (step : Step) (s s' : State) (d d' : Disk) → IsKept s d → is_ready step d.depth s ≡ true
        → DoesOrFails step s d s' d' → IsSound d' → IsKept s' d' }
    ensures less { (step : Step) (s s' : State) (d d' : Disk) → IsKept s d → is_ready step d.depth s ≡ true
        → DoesOrFails step s d s' d' → IsSound d' → measure s' d'.waits < measure s d.waits }
{}

/// A transaction that is submitted keeps it too, accepted or refused, whatever is under way, and so does a read, where plans over good rows keep
/// them good. What is turned away changes nothing.
pub fn transactions_keep()
    ensures accepted { (client line : ℕ) (change : Change) (s s' : State) (d : Disk) → PlansKeep → IsKept s d → IsKnown change.ops
        → Accepts client line change s d s' → IsKept s' d }
    ensures refused { (client line : ℕ) (change : Change) (a : Answer) (s s' : State) (d : Disk) → IsKept s d → IsKnown change.ops
        → Refuses client line change a s d s' → IsKept s' d }
    ensures read { (client line : ℕ) (read : Read) (s s' : State) (d : Disk) → IsKept s d → Reads client line read s d s'
        → IsKept s' d }
{}

/// So a run of calls keeps it.
#[tactic(auto, using(crate::proofs::KeptCalls::kept_run))]
pub fn a_run_keeps_what_the_kernel_keeps()
    ensures { (calls : List Call) (s s' : State) (d d' : Disk) → PlansKeep → IsKept s d → IsRun s d calls s' d' → IsKept s' d' }
{}

/// A data unit is idle exactly where it isn't busy: its bit is 0 in the committed rows, and no transaction that isn't committed has it. So what
/// a transaction releases comes back at its commit, and not before. It is held by as many as the submitted rows say.
pub fn idle_units_are_not_busy()
    ensures idle { (s : State) (d : Disk) → IsKept s d → s.down ≡ None
        → SpaceIsCounted s.log.sup s.log.rows (intents (uncommitted s)) s.space }
    ensures held { (s : State) (d : Disk) → IsKept s d → s.down ≡ None → HoldsAreCounted s.log.sup s.submitted s.space }
{}

/// The submitted rows are short, since as one record they fit half of the log: so what takes rows away is short too.
pub fn submitted_rows_are_short()
    ensures { (s : State) (d : Disk) → IsKept s d → s.down ≡ None → rows_size s.submitted ≤ 2 ^ 28 }
{}

/// A unit of a page of the submitted rows that isn't in memory is in no flight, so that it can be read at any time. Whole units are in memory.
pub fn units_not_in_memory_can_be_read()
    ensures readable { (s : State) (d : Disk) → IsKept s d → s.down ≡ None → (unit : ℕ) → HasPage (width_of s.log.sup) s.submitted unit
        → memory_of s unit ≡ None → IsUntouched d.flights unit }
    ensures whole { (s : State) (d : Disk) → IsKept s d → s.down ≡ None → (unit : ℕ) (bytes : List ℕ) → memory_of s unit ≡ Some bytes
        → length bytes ≡ 4096 }
{}

/// The bytes of the units that a transaction takes are in memory from when it is accepted, before which they weren't, until it is committed:
/// whatever else happens leaves there what is there, so also the ends of submissions, and a batch that is opened.
pub fn bytes_are_in_memory_until_committed()
    ensures accepted { (client line : ℕ) (change : Change) (plan : Plan) (s : State) (unit : ℕ)
        → memory_of (accepted_with client line change plan s) unit ≡ option_or (memory_of s unit) (bytes_in plan.fresh unit) }
    ensures free { (s : State) (d : Disk) → IsKept s d → s.down ≡ None → (unit : ℕ) → Contains (free_units s.space) unit
        → memory_of s unit ≡ None }
    ensures same { (s s' : State) → intents (uncommitted s') ≡ intents (uncommitted s) → memory_of s' ≡ memory_of s }
    ensures given { (place count : ℕ) (ticket : Ticket) (s : State) → memory_of (data_sent place count ticket s) ≡ memory_of s }
    ensures reaped { (ticket : Ticket) (good : Bool) (s : State) → memory_of (reaped ticket good s) ≡ memory_of s }
    ensures opened { (s : State) (d : Disk) → IsKept s d → s.down ≡ None → s.batch ≡ None → memory_of (taken_up s) ≡ memory_of s }
    ensures committed { (s : State) (d : Disk) → IsKept s d → s.down ≡ None → (b : Batch) → s.batch ≡ Some b → (unit : ℕ)
        → memory_of (committed_batch b s) unit
        ≡ (if is_some (bytes_in (all_fresh b.contexts) unit) then None else memory_of s unit) }
{}

/// A batch takes at most so many contexts, all of whose units have reached the device, and fewer only where none of those left comes next. Taken to
/// the front they change places with those of other collections alone. Those left stay in order, and none is lost.
pub fn a_choice()
    ensures few { (most : ℕ) (xs : List Context) → length (choice most xs) ≤ most }
    ensures done { (most : ℕ) (xs : List Context) → AllByRecursion (λ x. x.done ≡ length x.fresh) (choice most xs) }
    ensures full { (most : ℕ) (xs : List Context) → length (choice most xs) < most → chosen (left_by most xs) ≡ None }
    ensures order { (most : ℕ) (xs : List Context) → Ascends (map (λ x. x.place) xs)
        → IsComplete is_in (intents xs) (intents (choice most xs ++ left_by most xs)) }
    ensures left { (most : ℕ) (xs : List Context) → Ascends (map (λ x. x.place) xs) → Ascends (map (λ x. x.place) (left_by most xs)) }
    ensures count { (most : ℕ) (xs : List Context) → Ascends (map (λ x. x.place) xs)
        → length (choice most xs) + length (left_by most xs) ≡ length xs }
{}

/// A kernel that is opened on a store with good rows keeps it from the start.
pub fn opened_keeps()
    ensures { (f : Found) (space : Space) (next events : ℕ) (d : Disk) → IsSound d → d.flights ≡ [] → events ≤ 2 ^ 61
        → IsOpenable f space next d.units → IsKept (opened f space next events) d }
{}

/// A drained kernel that isn't down has nothing under way: no context, no batch, no switch of halves, nothing set aside in the log, nothing in flight, and
/// each commit is acknowledged.
#[tactic(auto, using(crate::proofs::Known::idle_laws))]
pub fn drained_is_idle()
    ensures pending { (s : State) (d : Disk) → IsKept s d → s.down ≡ None → is_drained d.depth s ≡ true → s.pending ≡ [] }
    ensures batch { (s : State) (d : Disk) → IsKept s d → s.down ≡ None → is_drained d.depth s ≡ true → s.batch ≡ None }
    ensures switching { (s : State) (d : Disk) → IsKept s d → s.down ≡ None → is_drained d.depth s ≡ true → s.switching ≡ None }
    ensures check { (s : State) (d : Disk) → IsKept s d → s.down ≡ None → is_drained d.depth s ≡ true → s.log.check ≡ None }
    ensures reserved { (s : State) (d : Disk) → IsKept s d → s.down ≡ None → is_drained d.depth s ≡ true → s.log.reserved ≡ 0 }
    ensures flights { (s : State) (d : Disk) → IsKept s d → s.down ≡ None → is_drained d.depth s ≡ true → d.flights ≡ [] }
    ensures acked { (s : State) (d : Disk) → IsKept s d → s.down ≡ None → is_drained d.depth s ≡ true → s.acked ≡ length s.book.commits }
{}

/// Where the first flush of a batch is ready, no write in flight touches a unit of the batch; where the second is, none touches a unit of its
/// record. Where the flush behind a checkpoint is ready, none touches a unit of the other half; where the one behind the next superblock is, none
/// touches its slot. So what a flush is to make stable has ended before it is submitted.
pub fn flushes_cover()
    ensures flush { (s : State) (d : Disk) (batch : Batch) → IsKept s d → is_ready Flush d.depth s ≡ true → s.batch ≡ Some batch
        → AllByRecursion (λ f. IsUntouched d.flights f.unit) (all_fresh batch.contexts) }
    ensures sync { (s : State) (d : Disk) (writing : Begun) (j : ℕ) → IsKept s d → is_ready Sync d.depth s ≡ true → s.log.begun ≡ Some writing
        → j < unit_count s.log.number writing.ops → IsUntouched d.flights (active_unit s.log.sup + (s.log.tail + j)) }
    ensures check { (s : State) (d : Disk) (k : ℕ) → IsKept s d → is_ready CheckFlush d.depth s ≡ true → k < s.log.sup.half
        → IsUntouched d.flights (other_unit s.log.sup + k) }
    ensures slot { (s : State) (d : Disk) → IsKept s d → is_ready SlotFlush d.depth s ≡ true → IsUntouched d.flights (other_slot s.log.sup) }
{}

/// Several data writes of a transaction may be in flight at once, several pieces of its record, and several of a checkpoint: none touches a unit of
/// another. The next superblock is written alone.
pub fn next_is_untouched()
    ensures data { (s : State) (d : Disk) (next : Unsent) → IsKept s d → is_ready Data d.depth s ≡ true → next_unsent s.pending ≡ Some next
        → IsNotInFlight d next.first.unit (length (run_bytes (unsent_units next))) }
    ensures record { (s : State) (d : Disk) (writing : Begun) → IsKept s d → is_ready Record d.depth s ≡ true → s.log.begun ≡ Some writing
        → IsNotInFlight d (piece_unit s.log writing) (length (begun_piece_bytes s.log.number writing)) }
    ensures check { (s : State) (d : Disk) (checking : Checking) (run : UnitRun) → IsKept s d → is_ready CheckWrite d.depth s ≡ true
        → s.log.check ≡ Some checking → slice_get (check_pieces s.log) checking.given ≡ Some run
        → IsNotInFlight d (other_unit s.log.sup + run.first) (4096 * run.count) }
    ensures slot { (s : State) (d : Disk) → IsKept s d → is_ready SlotWrite d.depth s ≡ true → IsNotInFlight d (other_slot s.log.sup) 4096 }
{}

/// A checkpoint can be written at any time: the committed rows as one record have a spelling and fit a half, each of its pieces can be written at
/// once, and the superblock that follows has its limits.
pub fn a_checkpoint_can_be_written()
    ensures fits { (s : State) (d : Disk) → IsKept s d → s.down ≡ None → check_units s.log.number s.log.rows ≤ s.log.sup.half }
    ensures spelled { (s : State) (d : Disk) → IsKept s d → s.down ≡ None → IsSpellable s.log.number (row_sets s.log.rows) }
    ensures pieces { (s : State) (d : Disk) → IsKept s d → s.down ≡ None → AllByRecursion (IsPieceOf s.log.sup.half) (check_pieces s.log) }
    ensures apart { (s : State) (d : Disk) → IsKept s d → s.down ≡ None → AreApart (check_pieces s.log) }
    ensures follows { (s : State) (d : Disk) → IsKept s d → s.down ≡ None → IsSuper (next_super s.log.sup s.log.number) }
{}

/// The next data write is of 1 to 64 whole units of the device. A batch whose record can be made has a spelling for it, and the log
/// has room for it; and numbers and events stay below the limits of their types.
#[tactic(auto, using(crate::proofs::Known::room_laws))]
pub fn steps_have_room()
    ensures few { (s : State) (d : Disk) (next : Unsent) → IsKept s d → is_ready Data d.depth s ≡ true → next_unsent s.pending ≡ Some next
        → (0 < length (unsent_units next)) × (length (unsent_units next) ≤ 64) }
    ensures whole { (s : State) (d : Disk) (next : Unsent) → IsKept s d → is_ready Data d.depth s ≡ true → next_unsent s.pending ≡ Some next
        → length (run_bytes (unsent_units next)) ≡ 4096 * length (unsent_units next) }
    ensures inside { (s : State) (d : Disk) (next : Unsent) → IsKept s d → is_ready Data d.depth s ≡ true → next_unsent s.pending ≡ Some next
        → 4096 * next.first.unit + length (run_bytes (unsent_units next)) ≤ 4096 * d.units }
    ensures room { (s : State) (d : Disk) (batch : Batch) → IsKept s d → is_ready Seal d.depth s ≡ true → s.batch ≡ Some batch
        → s.log.tail + unit_count s.log.number (batch_ops batch) ≤ s.log.sup.half }
    ensures spelling { (s : State) (d : Disk) (batch : Batch) → IsKept s d → is_ready Seal d.depth s ≡ true → s.batch ≡ Some batch
        → AllFit (batch_ops batch) × (length (ops_bytes (batch_ops batch)) < 2 ^ 32) }
    ensures number { (s : State) (d : Disk) (batch : Batch) → IsKept s d → is_ready Seal d.depth s ≡ true → s.batch ≡ Some batch
        → s.log.number < 2 ^ 62 }
    ensures events { (s : State) (d : Disk) → IsKept s d → s.events + 1 < 2 ^ 64 }
{}

/// A call that leaves the kernel up has a footprint: what it adds to the device's log, and what it makes of the rows, of the data units, of the
/// active half of the log, and of the book.
pub fn a_call_has_a_footprint()
    ensures { (call : Call) (s : State) (d : Disk) (s' : State) (d' : Disk) → IsKept s d → s'.down ≡ None → Calls call s d s' d'
        → Footprint s d s' d' }
{}
