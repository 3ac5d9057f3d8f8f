//! Prefix durability along the calls of a kernel, and what its device stands for once it is drained.
ghost use Rattle.std.specs.Prelude.{◌≡◌, ℕ, ◌+◌, true, List, [], length, Some, None, unwrap_or};
ghost use Rattle.std.specs.List.{AllByRecursion};
ghost use Rattle.block_device.specs.Prelude.{last, IsClean, HasNoBadDone, last_at, Disk, History, IsSound};
ghost use Rattle.object_model.specs.Prelude.{Objects, replay, accepted, IsLegal};
ghost use Rattle.store_image.specs.Prelude.{HasPage, ObjectsStand, StandsFor, StaysExact, IsStart, EachCutStands};
ghost use Rattle.read_facts.specs.Prelude.{IsNoCsum};
ghost use Rattle.unit_allocator.specs.Prelude.{Space};
ghost use Rattle.store_steps.specs.Prelude.{State, is_drained, Found, opened, Call, Calls, IsRun, memory_of};
ghost use Rattle.plan_drafts.specs.Prelude.{PlansKeep};
ghost use Rattle.run_facts.specs.Prelude.{IsKept};
ghost use Rattle.crash_facts.specs.Store.{contents_at, KnownOfStore, IsDurable, KeepsDurable, IsMounted};
ghost use Rattle.meta_log.specs.Prelude.{width_of};

/// A store that was mounted, on a device where nothing is in flight and that tells its log, is durable from the start, for the objects
/// that the contents stood for when the mount began.
pub fn a_mounted_store_is_durable()
    ensures { (base : ℕ) (opening : Objects) (f : Found) (space : Space) (next events : ℕ) (d : Disk) (h : History) → d.history ≡ Some h →
        d.flights ≡ [] → IsMounted base opening f events h → IsDurable base opening (opened f space next events) d }
{}

/// Each call leaves it durable, also one that takes the end of a submission that ended badly.
#[tactic(auto, using(crate::proofs::Runs::call_durable))]
pub fn a_call_keeps_a_store_durable()
    ensures { (base : ℕ) (opening : Objects) (call : Call) (s s' : State) (d d' : Disk) → PlansKeep → IsKept s d → IsSound d' →
        IsDurable base opening s d → Calls call s d s' d' → IsDurable base opening s' d' }
{}

/// So does a run of calls.
#[tactic(auto, using(crate::proofs::Runs::run_durable))]
pub fn a_run_keeps_a_store_durable()
    ensures { (base : ℕ) (opening : Objects) (calls : List Call) (s s' : State) (d d' : Disk) → PlansKeep → IsKept s d →
        IsDurable base opening s d → IsRun s d calls s' d' → IsDurable base opening s' d' }
{}

/// Once the kernel is drained, and not down, the device stands for the objects after all accepted transactions, and its bitmap is exactly
/// their units, but for those that were leaked when the mount began.
pub fn a_drained_store_stands()
    ensures stands { (base : ℕ) (opening : Objects) (s : State) (d : Disk) (h : History) → IsKept s d → s.down ≡ None →
        is_drained d.depth s ≡ true → KnownOfStore base opening s d h →
        StandsFor (last h.start h.log) (replay opening (accepted s.book.entries)) }
    ensures exact { (base : ℕ) (opening : Objects) (s : State) (d : Disk) (h : History) → IsKept s d → s.down ≡ None →
        is_drained d.depth s ≡ true → KnownOfStore base opening s d h → StaysExact (contents_at base h) (last h.start h.log) }
{}

/// The book of a durable store is legal: each entry has the answer that plain objects give, reads too, and none names a bad unit.
pub fn a_durable_book_is_legal()
    ensures legal { (base : ℕ) (opening : Objects) (s : State) (d : Disk) → IsDurable base opening s d → IsLegal opening s.book }
    ensures sums { (base : ℕ) (opening : Objects) (s : State) (d : Disk) → IsDurable base opening s d →
        AllByRecursion (λ e. IsNoCsum e.answer) s.book.entries }
{}

/// While the kernel isn't down, whatever is under way, the submitted rows stand for the objects after all accepted transactions, over the bytes
/// that units have in memory, or as last written. And of a unit with a page that isn't in memory no write ended badly. So a read gives just what
/// these objects have.
pub fn a_store_can_be_read()
    ensures stand { (base : ℕ) (opening : Objects) (s : State) (d : Disk) (h : History) → IsKept s d → s.down ≡ None →
        KnownOfStore base opening s d h →
        ObjectsStand (width_of s.log.sup) (λ unit. unwrap_or (memory_of s unit) (last_at h unit)) s.submitted
        (replay opening (accepted s.book.entries)) }
    ensures answered { (base : ℕ) (opening : Objects) (s : State) (d : Disk) (h : History) → IsKept s d → s.down ≡ None →
        KnownOfStore base opening s d h → (unit : ℕ) → HasPage (width_of s.log.sup) s.submitted unit → memory_of s unit ≡ None →
        HasNoBadDone h.log unit }
{}

/// Prefix durability of runs: whatever a crash at any cut of the log since the start leaves stands for the objects after the first
/// commits of the book, among which is each one acknowledged by then, unless something torn is valid by chance.
#[tactic(auto, using(crate::proofs::Runs::each_cut))]
pub fn each_crash_leaves_a_prefix()
    ensures { (base : ℕ) (opening : Objects) (calls : List Call) (s s' : State) (d d' : Disk) (h' : History) → PlansKeep → IsKept s d →
        IsDurable base opening s d → IsRun s d calls s' d' → d'.history ≡ Some h' → EachCutStands base h' opening s'.book }
{}

/// And where such a run ends drained and not down, the device stands for the objects after all accepted transactions, its bitmap is as exact
/// as when the mount began, and no unit is dirty.
pub fn a_drained_run_stands()
    ensures stands { (base : ℕ) (opening : Objects) (calls : List Call) (s s' : State) (d d' : Disk) (h' : History) → PlansKeep → IsKept s d →
        IsDurable base opening s d → IsRun s d calls s' d' → d'.history ≡ Some h' → s'.down ≡ None → is_drained d'.depth s' ≡ true →
        StandsFor (last h'.start h'.log) (replay opening (accepted s'.book.entries)) }
    ensures clean { (base : ℕ) (opening : Objects) (calls : List Call) (s s' : State) (d d' : Disk) (h' : History) → PlansKeep → IsKept s d →
        IsDurable base opening s d → IsRun s d calls s' d' → d'.history ≡ Some h' → s'.down ≡ None → is_drained d'.depth s' ≡ true →
        (unit : ℕ) → IsClean h'.log unit }
    ensures exact { (base : ℕ) (opening : Objects) (calls : List Call) (s s' : State) (d d' : Disk) (h' : History) → PlansKeep → IsKept s d →
        IsDurable base opening s d → IsRun s d calls s' d' → d'.history ≡ Some h' → s'.down ≡ None → is_drained d'.depth s' ≡ true →
        StaysExact (contents_at base h') (last h'.start h'.log) }
{}

/// A kernel keeps its device durable over each of its calls: from the start that lies behind as many events as the kernel has counted,
/// whatever the objects were then. The kernel's type says this of every kernel.
#[tactic(auto, using(crate::proofs::Keeping::call_keeps))]
pub fn a_call_keeps_durability()
    ensures { (call : Call) (s s' : State) (d d' : Disk) → PlansKeep → IsKept s d → IsSound d' → KeepsDurable s d → Calls call s d s' d' →
        KeepsDurable s' d' }
{}

/// A kernel that is opened on a mounted store keeps it from the start: over a device where nothing is in flight, and where the store is as
/// a mount leaves it if the device tells its log and the mount began at a start.
#[tactic(auto, using(crate::proofs::Keeping::mounted_keeps))]
pub fn a_mounted_store_keeps_durability()
    ensures { (f : Found) (space : Space) (next events : ℕ) (d : Disk) → d.flights ≡ [] →
        ((h : History) (base : ℕ) (opening : Objects) → d.history ≡ Some h → length h.log ≡ base + events → IsStart base h opening →
        IsMounted base opening f events h) → KeepsDurable (opened f space next events) d }
{}

/// So whoever has a kernel, over a device that tells its log, has prefix durability: whatever a crash at any cut since the start leaves
/// stands for the objects after the first commits of the kernel's book, among which is each one acknowledged by then, unless something torn
/// is valid by chance.
pub fn a_kernel_is_durable()
    ensures { (base : ℕ) (opening : Objects) (s : State) (d : Disk) (h : History) → KeepsDurable s d → d.history ≡ Some h →
        length h.log ≡ base + s.events → IsStart base h opening → EachCutStands base h opening s.book }
{}
