//! What is in flight, as steps come and go. Each function has laws for its contract and does nothing.
ghost use Rattle.std.specs.Prelude.{◌≡◌, ℕ, ◌+◌, ◌*◌, ◌<◌, ◌≤◌, true, false, List, [], ◌∷◌, ◌++◌, length, take, drop, slice_get, Option, Some, None, is_some, IfSome};
ghost use Rattle.std.specs.List.{AllByRecursion};
ghost use Rattle.block_device.specs.Prelude.{Disk, Flight, IsUntouched};
ghost use Rattle.object_model.specs.Prelude.{Change};
ghost use Rattle.object_model.specs.declared.command.Command.{Command};
ghost use Rattle.object_model.specs.declared.command.Answer.{Answer};
ghost use Rattle.meta_log.specs.declared.runs.UnitRun.{UnitRun};
ghost use Rattle.meta_log.specs.Prelude.{unit_count, active_unit, other_unit, given_from, in_run, AreRunsFrom, check_units};
ghost use Rattle.switch_facts.specs.Prelude.{AreApart};
ghost use Rattle.plan_rows.specs.declared.plan.Plan.{Plan};
ghost use Rattle.store_steps.specs.declared.step.Step.{Step};
ghost use Rattle.store_steps.specs.declared.context.Context.{Context};
ghost use Rattle.store_steps.specs.declared.flight.FlushState.{FlushState};
ghost use Rattle.store_steps.specs.declared.flight.Flying.{Flying};
ghost use Rattle.meta_store.specs.Store.{Meta, Begun, Checking};
ghost use Rattle.store_steps.specs.declared.flight.Switching.{Switching};
ghost use Rattle.store_steps.specs.Prelude.{Batch, State, is_not_sent, pieces_of, check_pieces, is_ready, is_drained, intent_of, entered, accepted_with, Takes, Does, DoesOrFails};
ghost use Rattle.store_steps.specs.Ready.{is_flushed};
ghost use Rattle.flight_facts.specs.Prelude.{AreFlights, IsNone, IsGivenPiece, IsGivenRun, AreOfJobs, IsNoTarget, FlightsMatch, FitsRecord, check_most, measure, AreFlightsKnown, DeviceGoes, BookStep};

/// Each step that is ready leaves in flight what the device has in flight, whatever it answers, and part by part too where the kernel stays up. It
/// leaves less to do, or fewer answers None in a row.
#[tactic(auto, using(crate::proofs::Outcomes::step_laws))]
pub fn steps_match()
    ensures tickets { (step : Step) (s s' : State) (d d' : Disk) → AreFlightsKnown s d → is_ready step d.depth s ≡ true
        → DoesOrFails step s d s' d' → AreFlights s'.flying d'.flights }
    ensures parts { (step : Step) (s s' : State) (d d' : Disk) → AreFlightsKnown s d → is_ready step d.depth s ≡ true
        → DoesOrFails step s d s' d' → s'.down ≡ None → FlightsMatch s' d'.flights }
    ensures less { (step : Step) (s s' : State) (d d' : Disk) → AreFlightsKnown s d → is_ready step d.depth s ≡ true
        → DoesOrFails step s d s' d' → measure s' d'.waits < measure s d.waits }
{}

/// What a step leaves, whatever is known of the state that it meets: at the device nothing, a submission, the end of one, or an answer None; the
/// book as it was, but for the commits of a batch that is opened, and an acknowledgement. Whether the kernel is down changes by a bad end alone.
pub fn a_step_leaves_device_and_book()
    ensures device { (step : Step) (s : State) (d : Disk) (s' : State) (d' : Disk) → DoesOrFails step s d s' d' → DeviceGoes d d' }
    ensures book { (step : Step) (s : State) (d : Disk) (s' : State) (d' : Disk) → DoesOrFails step s d s' d' → BookStep s s' step }
    ensures up { (step : Step) (s : State) (d : Disk) (s' : State) (d' : Disk) → Does step s d s' d' → s'.down ≡ s.down }
    ensures down { (s : State) (d : Disk) (s' : State) (d' : Disk) → Takes s d false s' d' → is_some s'.down ≡ true }
{}

/// What is in flight, part by part, for any number of contexts under way: a transaction that is accepted keeps it, and so does an entry of the book.
/// A unit that no job may touch is in no flight.
pub fn flights_match()
    ensures joins { (client line : ℕ) (change : Change) (plan : Plan) (s : State) (flights : List Flight) → FlightsMatch s flights
        → FlightsMatch (accepted_with client line change plan s) flights }
    ensures enters { (client line : ℕ) (command : Command) (a : Answer) (s : State) (flights : List Flight) → FlightsMatch s flights
        → FlightsMatch (entered client line command a s) flights }
    ensures unflown { (m : Meta) (pending : List Context) (flying : List Flying) (flights : List Flight) (unit : ℕ)
        → AreOfJobs m pending flying flights → IsNoTarget m pending unit → IsUntouched flights unit }
{}

/// At the first flush of a batch a unit that no waiting context gave to the device is in no flight, and so it is at the second, be it one of the
/// record: all that was submitted of the batch, and then of its record, has ended. So it is with a switch of halves: at the flush behind the
/// checkpoint all its pieces have ended, so no unit of the other half is in flight; at the flush of the next superblock its slot isn't.
pub fn flushed_units_have_landed()
    ensures flush { (s : State) (flights : List Flight) (b : Batch) (unit : ℕ)
        → FlightsMatch s flights → s.batch ≡ Some b → is_not_sent b.first ≡ true
        → AllByRecursion (λ x. IsNone (take x.given x.fresh) unit) s.pending → IsUntouched flights unit }
    ensures sync { (s : State) (flights : List Flight) (b : Batch) (r : Begun) (unit : ℕ)
        → FlightsMatch s flights → s.batch ≡ Some b → s.log.begun ≡ Some r → is_not_sent b.second ≡ true
        → r.written ≡ pieces_of s.log.number r
        → AllByRecursion (λ x. IsNone (take x.given x.fresh) unit) s.pending → IsUntouched flights unit }
    ensures check { (s : State) (flights : List Flight) (w : Switching) (c : Checking) (unit : ℕ)
        → FlightsMatch s flights → s.switching ≡ Some w → s.log.check ≡ Some c → is_not_sent w.flush ≡ true
        → c.written ≡ length (check_pieces s.log)
        → AllByRecursion (λ x. IsNone (take x.given x.fresh) unit) s.pending → IsUntouched flights unit }
    ensures slot { (s : State) (flights : List Flight) (w : Switching) (unit : ℕ)
        → FlightsMatch s flights → s.switching ≡ Some w → is_flushed w.flush ≡ true → is_not_sent w.slot ≡ true
        → AllByRecursion (λ x. IsNone (take x.given x.fresh) unit) s.pending → IsUntouched flights unit }
    ensures slot_flush { (s : State) (flights : List Flight) (w : Switching) (unit : ℕ)
        → FlightsMatch s flights → s.switching ≡ Some w → is_flushed w.slot ≡ true → is_not_sent w.slot_flush ≡ true
        → AllByRecursion (λ x. IsNone (take x.given x.fresh) unit) s.pending → IsUntouched flights unit }
{}

/// What a context has left to write is none of what it gave to the device, and the pieces that a record or a checkpoint has left are none of those
/// that were given.
pub fn what_is_left_is_not_given()
    ensures units { (x : Context) → FitsRecord (intent_of x)
        → AllByRecursion (λ f. IsNone (take x.given x.fresh) f.unit) (drop x.given x.fresh) }
    ensures pieces { (m : Meta) (r : Begun) (j : ℕ) → j < given_from (unit_count m.number r.ops) r.given
        → ¬ IsGivenPiece m r (active_unit m.sup + (m.tail + j)) }
    ensures runs { (m : Meta) (c : Checking) (run : UnitRun) (k : ℕ) → AreApart (check_pieces m) → slice_get (check_pieces m) c.given ≡ Some run
        → in_run run k ≡ true → ¬ IsGivenRun m c (other_unit m.sup + k) }
{}

/// The pieces of a checkpoint whose record fits the half, where what is stale lies in it, cost less than what is set aside for one.
pub fn a_checkpoint_has_few_pieces()
    ensures { (m : Meta) → m.sup.half ≤ 65536 → check_units m.number m.rows ≤ m.sup.half → AreRunsFrom 0 m.sup.half m.stale
        → 2 * length (check_pieces m) + 7 < check_most }
{}

/// Where no step is ready nothing is under way: no context waits, neither a batch nor a switch of halves is, and nothing is in flight.
#[tactic(auto, using(crate::proofs::Readiness::drained_laws))]
pub fn nothing_is_left_where_no_step_is_ready()
    ensures pending { (s : State) (d : Disk) → 8 ≤ d.depth → FlightsMatch s d.flights → s.down ≡ None → is_drained d.depth s ≡ true
        → s.pending ≡ [] }
    ensures batch { (s : State) (d : Disk) → 8 ≤ d.depth → FlightsMatch s d.flights → s.down ≡ None → is_drained d.depth s ≡ true
        → s.batch ≡ None }
    ensures switching { (s : State) (d : Disk) → 8 ≤ d.depth → FlightsMatch s d.flights → s.down ≡ None → is_drained d.depth s ≡ true
        → s.switching ≡ None }
    ensures check { (s : State) (d : Disk) → 8 ≤ d.depth → FlightsMatch s d.flights → s.down ≡ None → is_drained d.depth s ≡ true
        → s.log.check ≡ None }
    ensures flying { (s : State) (d : Disk) → 8 ≤ d.depth → FlightsMatch s d.flights → s.down ≡ None → is_drained d.depth s ≡ true
        → s.flying ≡ [] }
{}
