//! Mounting a store and unmounting it.
ghost use Rattle.std.specs.Prelude.{◌≡◌, ◌≢◌, ◌≤◌, ℕ, List, [], true, false, IfOk, IfErr, IsErrOf, MatchResult};
ghost use Rattle.block_device.specs.Prelude.{IsSound, Rose};
ghost use Rattle.meta_log.specs.Prelude.{other_unit};
ghost use Rattle.unit_allocator.specs.Prelude.{Space};
ghost use Rattle.store_steps.specs.declared.step.Step.TheVariants.{Reap};
ghost use Rattle.store_steps.specs.Prelude.{State, Found, is_ready, Calls, stepping};
ghost use Rattle.run_facts.specs.Prelude.{IsKept};
ghost use Rattle.crash_facts.specs.Store.{KeepsDurable};
ghost use Rattle.log_replay.specs.Prelude.{Told, IsLater, FailsMount, SubmitsNothing, IsNextBlob, IsFoundOn, IsJudged, AreStaleOf, AreRunsOn, IsLogCleared, ClearsLog, as_found};
ghost use Rattle.mount_replay.specs.Mounting.{IsOpenedOn, BeganToClear, LeftUnopened, MountStaysDurable, IsReapedTo, with_stale};

use block_device::{Device, Failed};
use log_replay::{FoundStore, MountFail, clear_behind, failed, find_store, judge, next_blob, other_runs};
use meta_log::UnitRun;
use meta_rows::RowTable;
use meta_store::MetaStore;
use object_model::Book;
use std::alloc::Global;
use store_kernel::{Kernel, StepFail};
use store_steps::Step;
use unit_allocator::Allocator;

/// Clears what is behind the records of the log. Says in how many events.
fn clear_log<D: Device>(alloc: Global, dev: &mut D, found: &FoundStore) -> Result<u64, Failed>
    requires idle { (D.disk dev.old).flights ≡ [] }
    requires found { IsFoundOn (D.disk dev.old) found.now }
    ensures later { IsLater (D.disk dev.old) (D.disk dev.new) }
    ensures cleared { IfOk result (λ events. (half : List ℕ) → AreStaleOf half found.now →
        Told (IsLogCleared found.now half events) (D.disk dev.old).history (D.disk dev.new).history) }
    ensures few { IfOk result (λ events. events ≤ 4194308) }
    ensures only { (half : List ℕ) → AreStaleOf half found.now → Told (ClearsLog found.now half) (D.disk dev.old).history (D.disk dev.new).history }
    ensures faults { D.faults dev.old ≤ D.faults dev.new }
    ensures cause { IsErrOf result Failed.Fault → Rose (D.faults dev.old) (D.faults dev.new) }
{
    let active = found.sup.active_unit();
    clear_behind(
        alloc,
        dev,
        active + found.log.tail,
        active + found.sup.half,
        &found.stale,
    )
}

/// Clears what is behind the records, and opens the kernel. `stale` are the runs of units of the other half that aren't zero, and `submitted` is
/// a copy of the rows.
fn open_on<D: Device>(
    alloc: Global,
    dev: D,
    found: FoundStore,
    stale: Vec<UnitRun>,
    submitted: RowTable,
    space: Allocator,
    next_sbid: u64,
) -> Result<Kernel<D>, (MountFail, D)>
    requires sound { IsSound (D.disk dev) }
    requires idle { (D.disk dev).flights ≡ [] }
    requires found { IsFoundOn (D.disk dev) found }
    requires stale { AreRunsOn (D.disk dev) (other_unit found.sup) found.sup.half stale.items }
    requires submitted { submitted.rows ≡ found.log.rows.rows }
    requires judged { IsJudged (as_found found) space }
    requires next { IsNextBlob found.log.rows.rows next_sbid }
    ensures ok { IfOk result (λ k. IsOpenedOn (D.disk dev) (with_stale found stale.items) space (D.disk k.device) k.state) }
    ensures fails { IfErr result (λ e. FailsMount e.0 (D.disk dev) (D.faults dev) (D.faults e.1)) }
    ensures began { IfErr result (λ e. ¬ SubmitsNothing e.0) }
    ensures writes { IfErr result (λ e. BeganToClear (D.disk dev) (D.disk e.1)) }
    ensures back { IfErr result (λ e. IsLater (D.disk dev) (D.disk e.1)) }
    ensures faults { MatchResult result (λ k. D.faults dev ≤ D.faults k.device) (λ e. D.faults dev ≤ D.faults e.1) }
    ensures durable { MatchResult result (λ k. MountStaysDurable (D.disk dev) (D.disk k.device)) (λ e. MountStaysDurable (D.disk dev) (D.disk e.1)) }
    ensures kept { IfOk result (λ k. IsKept k.state (D.disk k.device)) }
    ensures keeps { IfOk result (λ k. KeepsDurable k.state (D.disk k.device)) }
{
    let mut dev = dev;
    let events = match clear_log(alloc, &mut dev, &found) {
        Ok(events) => events,
        Err(why) => return Err((failed(why), dev)),
    };
    let FoundStore { sup, log, stale: _ } = found;
    let meta = MetaStore::open(&sup, log.rows, log.tail, log.number, stale);
    let kernel = Kernel::open(alloc, dev, meta, submitted, space, next_sbid, events);
    kernel.facts();
    Ok(kernel)
}

/// Opens the store on the device: the superblock of greatest epoch tells where its log is, and the log's records make the rows. It reads
/// both superblock slots and both halves of the log, and of the half that isn't in use keeps which units aren't zero. If the rows are good and
/// the bitmap is exact, but for leaked units, it clears what is behind the records: first the unit behind the last one, then the others that
/// hold something, each part followed by a flush. A crash on the way leaves the same objects. The device comes back where no store was opened.
pub fn mount<D: Device>(alloc: Global, dev: D) -> Result<Kernel<D>, (MountFail, D)>
    requires idle { (D.disk dev).flights ≡ [] }
    ensures ok { IfOk result (λ k. (f : Found) × ((space : Space) × IsOpenedOn (D.disk dev) f space (D.disk k.device) k.state)) }
    ensures fails { IfErr result (λ e. FailsMount e.0 (D.disk dev) (D.faults dev) (D.faults e.1)) }
    ensures same { IfErr result (λ e. SubmitsNothing e.0 → D.disk e.1 ≡ D.disk dev) }
    ensures writes { IfErr result (λ e. LeftUnopened (D.disk dev) (D.disk e.1)) }
    ensures back { IfErr result (λ e. IsLater (D.disk dev) (D.disk e.1)) }
    ensures later { MatchResult result (λ k. D.faults dev ≤ D.faults k.device) (λ e. D.faults dev ≤ D.faults e.1) }
    ensures durable { MatchResult result (λ k. MountStaysDurable (D.disk dev) (D.disk k.device)) (λ e. MountStaysDurable (D.disk dev) (D.disk e.1)) }
    ensures kept { IfOk result (λ k. IsKept k.state (D.disk k.device)) }
    ensures keeps { IfOk result (λ k. KeepsDurable k.state (D.disk k.device)) }
{
    let mut dev = dev;
    let found = match find_store(alloc, &mut dev) {
        Ok(found) => found,
        Err(fail) => return Err((fail, dev)),
    };
    let space = match judge(alloc, &found) {
        Ok(space) => space,
        Err(fail) => return Err((fail, dev)),
    };
    let Ok(submitted) = found.log.rows.copy(alloc) else {
        return Err((MountFail::Memory, dev));
    };
    let stale = match other_runs(alloc, &mut dev, &found.sup) {
        Ok(stale) => stale,
        Err(why) => return Err((failed(why), dev)),
    };
    let next_sbid = next_blob(&found);
    open_on(alloc, dev, found, stale, submitted, space, next_sbid)
}

/// Whether something is in flight.
fn is_flying<D: Device>(kernel: &Kernel<D>) -> bool
    ensures ready { result ≡ is_ready Reap (D.disk kernel.now.device).depth kernel.now.state }
    ensures sound { IsSound (D.disk kernel.now.device) }
    ensures flies { result ≡ true → (D.disk kernel.now.device).flights ≢ [] }
    ensures idle { result ≡ false → (D.disk kernel.now.device).flights ≡ [] }
{
    kernel.facts();
    kernel.ready(Step::Reap)
}

/// Takes the end of a submission, where one is ready. A bad end is passed over.
fn reap<D: Device>(alloc: Global, kernel: &mut Kernel<D>)
    requires { is_ready Reap (D.disk kernel.old.device).depth kernel.old.state ≡ true }
    ensures call { Calls (stepping Reap) kernel.old.state (D.disk kernel.old.device) kernel.new.state (D.disk kernel.new.device) }
    ensures sound { IsSound (D.disk kernel.new.device) }
    ensures faults { D.faults kernel.old.device ≤ D.faults kernel.new.device }
{
    match kernel.step(alloc, Step::Reap) {
        Ok(()) => {}
        Err(StepFail::Fault) => {}
        Err(StepFail::Memory) => unreachable!(),
    }
}

/// Takes the ends of all that is in flight.
fn reap_all<D: Device>(alloc: Global, kernel: &mut Kernel<D>)
    ensures reaped { IsReapedTo kernel.old.state (D.disk kernel.old.device) kernel.new.state (D.disk kernel.new.device) }
    ensures book { kernel.new.state.book ≡ kernel.old.state.book }
    ensures later { IsLater (D.disk kernel.old.device) (D.disk kernel.new.device) }
    ensures faults { D.faults kernel.old.device ≤ D.faults kernel.new.device }
{
    'reaping: while is_flying(kernel) {
        reap(alloc, kernel);
    }
}

/// Unmounts the store, at any time: the ends of what is in flight are taken, whether they are good or bad, and nothing more is
/// submitted. Gives the device and the book of the mount. The allocator goes to the kernel's call, and nothing is allocated.
pub fn unmount<D: Device>(alloc: Global, kernel: Kernel<D>) -> (D, Book)
    ensures reaped { (s : State) × (IsReapedTo kernel.state (D.disk kernel.device) s (D.disk result.0) × (result.1 ≡ s.book)) }
    ensures book { result.1 ≡ kernel.state.book }
    ensures same { IsLater (D.disk kernel.device) (D.disk result.0) }
    ensures later { D.faults kernel.device ≤ D.faults result.0 }
{
    let mut kernel = kernel;
    reap_all(alloc, &mut kernel);
    kernel.close()
}
