//! What is known of the book, from one call to the next and along a run.

ghost use Rattle.std.specs.Prelude.{◌≡◌, ℕ, ◌+◌, ◌<◌, ◌≤◌, true, List, []};
ghost use Rattle.block_device.specs.Prelude.{Disk, IsSound};
ghost use Rattle.object_model.specs.Prelude.{Objects, Change, is_named, OneName};
ghost use Rattle.object_model.specs.declared.command.Answer.TheVariants as answer;
ghost use Rattle.store_image.specs.Prelude.{IsShape};
ghost use Rattle.unit_allocator.specs.Prelude.{Space};
ghost use Rattle.plan_drafts.specs.Prelude.{PlansKeep, AsksAreFew, IsKnown};
ghost use Rattle.read_facts.specs.Prelude.{IsLegalButBytes};
ghost use Rattle.store_steps.specs.declared.context.Context.{Context};
ghost use Rattle.store_steps.specs.declared.step.Step.{Step};
ghost use Rattle.store_steps.specs.Prelude.{State, colls_of, Found, opened, is_ready, need_of, free_count, Accepts, Refuses, DoesOrFails, Call, Calls, IsRun, room_of};
ghost use Rattle.run_facts.specs.Prelude.{IsKept};
ghost use Rattle.book_facts.specs.BookFacts.{KnownOfBook, IsInOrder};
ghost use Rattle.book_facts.specs.Rooms.{units_taken_at_most, needs_in, demanded_by, any_no_space};

/// So far each context has one name, that of its collection.
pub fn a_context_has_one_name()
    ensures one { (x : Context) → OneName (colls_of x) }
    ensures own { (x : Context) → is_named x.coll (colls_of x) ≡ true }
    ensures no_other { (x : Context) (coll : List ℕ) → OneName (colls_of x) → is_named coll (colls_of x) ≡ true → coll ≡ x.coll }
{}

/// The book of a kernel that was just opened is known, for all objects whose shape the rows have.
pub fn a_new_book_is_known()
    ensures { (opening : Objects) (f : Found) (space : Space) (next events : ℕ) → IsShape f.rows opening →
        KnownOfBook opening (opened f space next events) }
{}

/// What is known of the book stays known over each call of the kernel, also over one that leaves it down.
pub fn a_call_keeps_the_book()
    ensures { (opening : Objects) (call : Call) (s s' : State) (d d' : Disk) → PlansKeep → IsKept s d → KnownOfBook opening s →
        Calls call s d s' d' → KnownOfBook opening s' }
{}

/// A known book is legal, but for the bytes that reads gave: of a device that doesn't tell what it holds no more is known of them than their
/// checksums.
#[tactic(auto, using(crate::proofs::Books::known_legal))]
pub fn a_known_book_is_legal()
    ensures { (opening : Objects) (s : State) → KnownOfBook opening s → IsLegalButBytes opening s.book }
{}

/// The order of transactions stays known along a run, whatever objects the rows stand for: each collection's are committed as they were
/// accepted, and none twice.
pub fn a_run_keeps_the_order()
    ensures opened { (f : Found) (space : Space) (next events : ℕ) → IsInOrder (opened f space next events) }
    ensures kept { (calls : List Call) (s s' : State) (d d' : Disk) → PlansKeep → IsKept s d → IsInOrder s → IsRun s d calls s' d' → IsInOrder s' }
{}

/// The book is legal, but for these bytes, at the end of each run from a state whose book is known, whether or not the device tells its log,
/// and also where the kernel is down.
pub fn a_run_makes_a_legal_book()
    ensures { (opening : Objects) (calls : List Call) (s s' : State) (d d' : Disk) → PlansKeep → IsKept s d → KnownOfBook opening s →
        IsRun s d calls s' d' → IsLegalButBytes opening s'.book }
{}

/// Free units go to accepted transactions alone: what was free before a run is free after it, or is within what those accepted in it take at
/// most. So want of space comes only where that and what the refused one needs are together more than were free at the mount.
pub fn space_suffices()
    ensures kept { (calls : List Call) (s s' : State) (d d' : Disk) → PlansKeep → IsKept s d → IsRun s d calls s' d'
        → free_count s.space + units_taken_at_most s.book.entries ≤ free_count s'.space + units_taken_at_most s'.book.entries }
    ensures refused { (calls : List Call) (s s' t : State) (d d' : Disk) (client line need free : ℕ) (change : Change) → PlansKeep → IsKept s d
        → s.book.entries ≡ [] → IsRun s d calls s' d' → Refuses client line change (answer.NoSpace need free) s' d' t
        → free_count s.space < units_taken_at_most s'.book.entries + need }
{}

/// In a run whose commands together ask for at most as many units as were free when it began, no transaction is refused for want of
/// units.
pub fn want_of_space_is_beyond_the_demand()
    ensures { (calls : List Call) (s s' : State) (d d' : Disk) → PlansKeep → AsksAreFew → IsKept s d → s.book.entries ≡ []
        → IsRun s d calls s' d' → any_no_space s'.book.entries ≡ true → free_count s.space < demanded_by s'.book.entries }
{}

/// An accepted transaction lowers the room in the log by its need, and no step or read lowers it. So want of room comes only where the needs of
/// all transactions accepted since the mount and of the refused one together are more than the room was then.
pub fn room_suffices()
    ensures accepted { (client line : ℕ) (change : Change) (s s' : State) (d : Disk) → IsKept s d → IsKnown change.ops
        → (a : Accepts client line change s d s') → room_of s'.log + need_of s.log a.plan ≡ room_of s.log }
    ensures steps { (step : Step) (s s' : State) (d d' : Disk) → IsKept s d → is_ready step d.depth s ≡ true
        → DoesOrFails step s d s' d' → IsSound d' → room_of s.log ≤ room_of s'.log }
    ensures kept { (calls : List Call) (s s' : State) (d d' : Disk) → PlansKeep → IsKept s d → (run : IsRun s d calls s' d')
        → room_of s.log ≤ room_of s'.log + needs_in calls s d s' d' run }
    ensures refused { (calls : List Call) (s s' t : State) (d d' : Disk) (client line need room : ℕ) (change : Change) → PlansKeep → IsKept s d
        → (run : IsRun s d calls s' d') → Refuses client line change (answer.MetaFull need room) s' d' t
        → room_of s.log < needs_in calls s d s' d' run + need }
{}
