//! The work of the command `step`.
ghost use Rattle.std.specs.Prelude.{◌≡◌, ◌<◌, ◌≤◌, ◌+◌, ◌^◌, [], None, map, length};
ghost use Rattle.std.specs.List.{AllByRecursion};
ghost use Rattle.std.specs.Option.{option_map};
ghost use Rattle.std.specs.Result.{result_err};
ghost use Rattle.command_words.specs.declared.command_line.CommandLine.TheVariants.{Step};
ghost use Rattle.block_device.specs.Prelude.{IsSound, IsFresh};
ghost use Rattle.client_runs.specs.Choice.{asks_of};
ghost use Rattle.client_runs.specs.Running.{FitsLine, command_sum};
ghost use Rattle.bstore_top.specs.Keeping.{KeepsStore};
ghost use Rattle.bstore_top.specs.StepRun.{WorksOn, IsStepDone, seen, end_of_scripts, end_of_bay, end_of_mount, end_of_run};
ghost use Rattle.log_replay.specs.Prelude.{IsLater};
ghost use Rattle.bstore_top.specs.Run.{ComesBack};

use block_device::{Device, Failed};
use client_runs::{RunFail, run_scripts};
use command_words::{FileName, FileNames};
use end_points::{Bay, How};
use mount_replay::{MountFail, mount, unmount};
use object_model::Book;
use run_texts::WorkEnd;
use script_reading::{Unread, read_scripts};
use script_text::Line;
use std::alloc::Global;

/// How the work of `step` ended, before anything of it was printed, and what it leaves.
pub struct StepWork<D, S> {
    pub end: WorkEnd,
    /// The device, where the bay gave it.
    pub dev: Option<D>,
    /// The sources of the scripts that the bay opened, in order.
    pub sources: Vec<S>,
    /// Empty where nothing was mounted.
    pub book: Book,
}

/// How a run ends whose scripts weren't read.
fn unread(fail: Unread) -> WorkEnd
    ensures { result ≡ end_of_scripts fail }
{
    match fail {
        Unread::Memory => WorkEnd::OutOfMemory,
        Unread::Line { script, n } => WorkEnd::BadLine { script, n },
        Unread::Fault => WorkEnd::BayFault,
    }
}

/// Mounts the store on the device, runs the scripts on it, and unmounts it.
fn work_on<D: Device>(
    alloc: Global,
    dev: D,
    seed: u32,
    scripts: Vec<Vec<Line>>,
) -> (WorkEnd, D, Book)
    requires idle { (D.disk dev).flights ≡ [] }
    requires few { length scripts.items ≤ 64 }
    requires fits { AllByRecursion (AllByRecursion FitsLine) (map (λ s. s.items) scripts.items) }
    requires room { command_sum (map asks_of (map (λ s. s.items) scripts.items)) ≤ 1048576 }
    ensures works { WorksOn seed (map (λ s. s.items) scripts.items) (D.disk dev) (D.faults dev) result.0 result.2 (D.disk result.1) (D.faults result.1) }
    ensures keeps { IsSound (D.disk dev) → IsFresh (D.disk dev) → KeepsStore (D.disk dev) result.0 result.2 (D.disk result.1) }
    ensures later { IsLater (D.disk dev) (D.disk result.1) }
{
    let mut kernel = match mount(alloc, dev) {
        Ok(kernel) => kernel,
        Err((fail, dev)) => return (unmounted(fail), dev, Book::new(alloc)),
    };
    let ran = run_scripts(alloc, &mut kernel, seed, scripts);
    let end = ended(ran, kernel.free_units());
    let (dev, book) = unmount(alloc, kernel);
    (end, dev, book)
}

/// How a run ends that ran the scripts, with so many units free.
fn ended(ran: Result<(), RunFail>, free: u32) -> WorkEnd
    ensures { result ≡ end_of_run (result_err ran) free }
{
    match ran {
        Ok(()) => WorkEnd::Done { free },
        Err(RunFail::Memory) => WorkEnd::OutOfMemory,
        Err(RunFail::Fault | RunFail::DeviceRead) => WorkEnd::DeviceFault,
    }
}

/// How a run ends that mounted nothing.
pub fn unmounted(fail: MountFail) -> WorkEnd
    ensures { result ≡ end_of_mount fail }
{
    match fail {
        MountFail::Memory => WorkEnd::OutOfMemory,
        MountFail::NoSuper => WorkEnd::NoSuper,
        MountFail::BadRow { key } => WorkEnd::BadRow { key },
        MountFail::NotExact { unit } => WorkEnd::NotExact { unit },
        MountFail::WornOut { .. } => WorkEnd::WornOut,
        MountFail::Fault => WorkEnd::DeviceFault,
    }
}

/// Reads the scripts of these names, opens the device of another, and runs the scripts on the store there.
pub fn run_store<B: Bay>(
    alloc: Global,
    dev: &FileName<'_>,
    seed: u32,
    scripts: &FileNames<'_>,
    bay: &mut B,
) -> StepWork<B::Dev, B::Src>
    requires { (B.bay bay.old).given + 1 < 2 ^ 32 }
    ensures course { IsStepDone dev.now scripts.now seed result.end
        (seen (option_map B.Dev.disk result.dev) (option_map B.Dev.faults result.dev) (map B.Src.faults result.sources.items) result.book)
        (B.bay bay.old) (B.bay bay.new) (B.faults bay.old) (B.faults bay.new) }
    ensures device { ComesBack (Step dev.now seed scripts.now) (B.bay bay.old) (option_map B.Dev.disk result.dev) (B.bay bay.new) }
{
    let mut sources = Vec::new(alloc);
    let _ = scripts.len();
    let scripts = match read_scripts(alloc, scripts, bay, &mut sources) {
        Ok(scripts) => scripts,
        Err(fail) => return StepWork {
            end: unread(fail),
            dev: None,
            sources,
            book: Book::new(alloc),
        },
    };
    let device = match bay.device(dev.as_str(), How::Plain) {
        Ok(device) => device,
        Err(fail) => return StepWork {
            end: unopened(fail),
            dev: None,
            sources,
            book: Book::new(alloc),
        },
    };
    let _ = device.units();
    let (end, device, book) = work_on(alloc, device, seed, scripts);
    StepWork {
        end,
        dev: Some(device),
        sources,
        book,
    }
}

/// How a run ends for which the bay gave no device.
pub fn unopened(fail: Failed) -> WorkEnd
    ensures { result ≡ end_of_bay fail }
{
    match fail {
        Failed::Memory => WorkEnd::OutOfMemory,
        Failed::Fault => WorkEnd::BayFault,
    }
}
