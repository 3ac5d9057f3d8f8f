//! What a run of scripts on a store comes to, whatever the seed is and whatever the device answers. Each function has a law for its
//! contract and does nothing.
ghost use Rattle.std.specs.Prelude.{◌≡◌, ◌⊎◌, ◌↔◌, ◌≤◌, ℕ, List, map, Option, false};
ghost use Rattle.block_device.specs.Prelude.{Disk, Rose};
ghost use Rattle.object_model.specs.declared.book.Book.{Book};
ghost use Rattle.script_text.specs.declared.line.Line.{Line};
ghost use Rattle.store_steps.specs.Prelude.{State, free_count, Call, IsRun};
ghost use Rattle.book_facts.specs.Prelude.{any_no_space};
ghost use Rattle.run_texts.specs.declared.work_end.WorkEnd.{WorkEnd};
ghost use Rattle.end_points.specs.Bay.{BayView};
ghost use Rattle.client_runs.specs.Choice.{asks_of, at_position};
ghost use Rattle.client_runs.specs.Running.{RunsUpTo, HasDrainedAfterRead};
ghost use Rattle.client_runs.specs.declared.run_fail.RunFail.{RunFail};
ghost use Rattle.bstore_top.specs.Keeping.{LeavesAll};
ghost use Rattle.bstore_top.specs.StepRun.{RanStep, RunsScripts, RunsAndKeeps, Seen, scripts_demand};
ghost use Rattle.bstore_top.specs.DumpRun.{RanDump, Dumped};
ghost use Rattle.bstore_top.specs.FsckRun.{RanFsck, TellsBad};
ghost use Rattle.run_texts.specs.Prelude.{Output};
ghost use Rattle.bstore_top.specs.Finished.{Succeeded};
ghost use Rattle.bstore_top.specs.GoodStart.{IsGoodStart, IsGoodStore, IsExactStore, HasNoFault};
ghost use Rattle.bstore_top.specs.Told.{ToldOkIsThere};

/// The run of clients is a run of the kernel, also where a read was lost on the way.
pub fn a_run_of_scripts_is_a_run()
    ensures { (fail : Option RunFail) (x : ℕ) (scripts : List (List Line)) (s : State) (d : Disk) (s' : State) (d' : Disk) →
        RunsUpTo fail x scripts s d s' d' → (calls : List Call) × IsRun s d calls s' d' }
{}

/// A run of `step` that returns 0 has made all commands of all scripts, none was answered by a bad unit, and each transaction that was
/// accepted is committed and acknowledged. Where the bay tells what stands under its names, and that stands for some objects, the device
/// stands for what they are after all accepted transactions.
pub fn a_run_that_returns_0_has_succeeded()
    ensures { (dev : List ℕ) (files : List (List ℕ)) (seed : ℕ) (seen : Seen) (bay_old bay_new : BayView) (before now : ℕ) (old new : Output) →
        RanStep dev files seed 0 seen bay_old bay_new before now old new → Succeeded dev files seed seen bay_old old new }
{}

/// A run of `step` that nothing stands against ends well, or for want of memory. The scripts have lines; the device holds a store that
/// stands for some objects, of this version, with numbers far from their end; and no count of faults rose.
pub fn a_good_start_ends_well()
    ensures { (dev : List ℕ) (files : List (List ℕ)) (seed status : ℕ) (seen : Seen) (bay_old bay_new : BayView) (before now : ℕ) (old new : Output) →
        RanStep dev files seed status seen bay_old bay_new before now old new → IsGoodStart dev files bay_old →
        HasNoFault seen before now old new → (status ≡ 0) ⊎ (status ≡ 5) }
{}

/// A run of scripts that together ask for no more units than are free when the store is opened refuses no transaction for want of units,
/// whatever the seed is: in a book that such a run leaves there is no `NoSpace`.
pub fn scripts_within_the_free_units_have_no_want_of_them()
    ensures { (seed : ℕ) (scripts : List (List Line)) (given : Disk) (end : WorkEnd) (book : Book) (disk : Disk) →
        (ran : RunsScripts seed scripts given end book disk) → scripts_demand scripts ≤ free_count ran.first.space → any_no_space book.entries ≡ false }
{}

/// A run of `dump` that returns 0 has printed each collection and each object that there is. Where the bay tells what stands under its names,
/// and that stands for some objects, it has printed just these, with their sizes and the checksums of their bytes.
pub fn a_dump_that_returns_0_shows_all()
    ensures { (dev : List ℕ) (seen : Seen) (bay_old bay_new : BayView) (before now : ℕ) (old new : Output) →
        RanDump dev 0 seen bay_old bay_new before now old new → Dumped dev seen bay_old old new }
{}

/// A run of `dump` that nothing stands against ends well, or for want of memory.
pub fn a_good_dump_ends_well()
    ensures { (dev : List ℕ) (status : ℕ) (seen : Seen) (bay_old bay_new : BayView) (before now : ℕ) (old new : Output) →
        RanDump dev status seen bay_old bay_new before now old new → IsGoodStore dev bay_old →
        HasNoFault seen before now old new → (status ≡ 0) ⊎ (status ≡ 5) }
{}

/// A run that lost a read, and then drew steps until none was ready, has committed and acknowledged each transaction that was accepted, and a device
/// that tells what it holds stands for just what they made.
pub fn a_run_drained_after_a_lost_read_keeps_all()
    ensures { (seed : ℕ) (scripts : List (List Line)) (given : Disk) (end : WorkEnd) (book : Book) (disk : Disk) →
        (all : RunsAndKeeps seed scripts given end book disk) →
        HasDrainedAfterRead (at_position seed (map asks_of scripts) all.ran.first all.ran.start) all.ran.fail all.ran.ran.reached all.ran.ran.last
        all.ran.ran.ended →
        LeavesAll given (free_count all.ran.last.space) book disk }
{}

/// What a client was told `ok` is there, whatever crash comes after it: of an entry whose reply is `ok` the commit is among the first ones of which
/// every image that a crash behind the whole log may leave has the objects, unless something torn is valid by chance.
pub fn what_was_told_ok_is_there()
    ensures { ToldOkIsThere }
{}

/// A run of `fsck` whose output didn't fail returns 4 exactly where it found something, or the device holds no store.
pub fn a_fsck_returns_4_where_something_is_wrong()
    ensures { (dev : List ℕ) (status : ℕ) (seen : Seen) (bay_old bay_new : BayView) (before now : ℕ) (old new : Output) →
        (ran : RanFsck dev status seen bay_old bay_new before now old new) → ¬ Rose old.faults new.faults → (status ≡ 4) ↔ TellsBad ran.ended }
{}

/// A run of `fsck` that nothing stands against, on a store without leaked units, ends well, or for want of memory.
pub fn a_good_fsck_ends_well()
    ensures { (dev : List ℕ) (status : ℕ) (seen : Seen) (bay_old bay_new : BayView) (before now : ℕ) (old new : Output) →
        RanFsck dev status seen bay_old bay_new before now old new → IsExactStore dev bay_old →
        HasNoFault seen before now old new → (status ≡ 0) ⊎ (status ≡ 5) }
{}
