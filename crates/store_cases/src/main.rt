//! Cases in text: each argument names a file of cases, and what each case comes to is printed. The folder that a file lies in says
//! what its cases are. What must come is in the file `stdout`, written by hand from what the commands promise.
//!
//! Proved: nothing but that it is total: it is safe and returns, and what its cases print is compared with what was written by hand.
#![tactic(auto)]

use block_device::MemoryDevice;
use bstore_top::{Outcome, top};
use case_text::{look_up, run_file};
use crash_lines::Sweep;
use end_points::{Bay, MemoryBay, MemorySink, MemorySource, OpenGate};
use kernel_lines::KernelLines;
use object_lines::ObjectLines;
use run_lines::{Case, Commands, Ran};
use std::alloc::Global;
use std::{env, io};

/// What the cases of a file are.
#[derive(Clone, Copy)]
enum CaseKind {
    /// Operations and reads of the reference store.
    Objects,
    /// Runs of commands.
    Commands,
    /// Calls of the kernel.
    Kernel,
    /// Crashes of runs.
    Crashes,
}

/// The folders of their files.
static CASE_KINDS: [(&str, CaseKind); 4] = [
    ("objects", CaseKind::Objects),
    ("commands", CaseKind::Commands),
    ("kernel", CaseKind::Kernel),
    ("crashes", CaseKind::Crashes),
];

/// What the cases of the file at this path are.
fn kind_of_file(path: &str) -> Option<CaseKind> {
    let (folders, _name) = path.rsplit_once('/')?;
    look_up(&CASE_KINDS, folders.rsplit('/').next()?)
}

/// What a run of the program's one call leaves of it.
fn ran(left: Outcome<MemoryDevice, MemorySource>) -> Ran {
    let Outcome {
        status,
        dev,
        sources,
        book,
        turns,
    } = left;
    let scripts = sources.len();
    drop(sources);
    drop(turns);
    Ran {
        status,
        dev,
        scripts,
        book,
    }
}

/// Runs command lines by the program's one call.
#[derive(Drop)]
struct Top;

impl Commands for Top {
    fn new() -> Top {
        Top
    }

    fn run(
        &self,
        alloc: Global,
        words: &Vec<String>,
        bay: &mut MemoryBay,
        sink: &mut MemorySink,
    ) -> Option<Ran> {
        if bay.given() != 0 {
            return None;
        }
        Some(ran(top(alloc, words, bay, sink, &OpenGate)))
    }
}

/// Prints what the cases of a file come to.
fn follow_file(rt: &HostRuntime, path: &str) -> io::Result<()> {
    match kind_of_file(path) {
        Some(CaseKind::Objects) => run_file::<ObjectLines, HostRuntime>(rt, path),
        Some(CaseKind::Commands) => run_file::<Case<Top>, HostRuntime>(rt, path),
        Some(CaseKind::Kernel) => run_file::<KernelLines, HostRuntime>(rt, path),
        Some(CaseKind::Crashes) => run_file::<Sweep<Top>, HostRuntime>(rt, path),
        None => Err(io::Error::from(io::ErrorKind::InvalidInput)),
    }
}

fn main(rt: HostRuntime) -> io::Result<()> {
    let mut words = env::args(&rt)?;
    let _program = words.next();
    for path in words {
        follow_file(&rt, path.as_str())?;
    }
    Ok(())
}
