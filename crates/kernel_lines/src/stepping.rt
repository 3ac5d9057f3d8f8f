//! The steps of the kernel, by name.

use block_device::MemoryDevice;
use case_text::{CaseError, Text, Words, look_up, small};
use std::alloc::Global;
use store_kernel::{Kernel, StepFail};
use store_steps::{ALL_STEPS, Step};

/// The most steps of one `drain`.
const MOST_STEPS: u32 = 1000;

/// The most steps of one `settle`, also where each submission waits for 63 reaps.
const MOST_UNSHOWN: u32 = 100_000;

/// Their names.
static STEP_NAMES: [(&str, Step); 14] = [
    ("Data", Step::Data),
    ("Reap", Step::Reap),
    ("Take", Step::Take),
    ("Flush", Step::Flush),
    ("Seal", Step::Seal),
    ("Record", Step::Record),
    ("Sync", Step::Sync),
    ("Commit", Step::Commit),
    ("Finish", Step::Finish),
    ("CheckWrite", Step::CheckWrite),
    ("CheckFlush", Step::CheckFlush),
    ("SlotWrite", Step::SlotWrite),
    ("SlotFlush", Step::SlotFlush),
    ("Switch", Step::Switch),
];

/// Shows a step, and whether it failed.
fn show_step(did: Result<(), StepFail>, step: Step, out: &mut Text) {
    match did {
        Ok(()) => out.print(format_args!(" {step:?}")),
        Err(StepFail::Fault) => out.print(format_args!(" {step:?}=failed")),
        Err(StepFail::Memory) => out.print(" out of memory"),
    }
}

/// Does a step, if it is ready.
pub fn step_if_ready(
    alloc: Global,
    kernel: &mut Kernel<MemoryDevice>,
    step: Step,
) -> Option<Result<(), StepFail>> {
    if !kernel.ready(step) {
        return None;
    }
    Some(kernel.step(alloc, step))
}

/// Does the first ready step in the order of the table, and shows it; false where none is ready.
fn step_first(alloc: Global, kernel: &mut Kernel<MemoryDevice>, out: &mut Text) -> bool {
    for step in ALL_STEPS {
        if let Some(did) = step_if_ready(alloc, kernel, step) {
            show_step(did, step, out);
            return true;
        }
    }
    false
}

/// Follows `drain`: does the first ready step until none is ready.
pub fn drain(
    alloc: Global,
    kernel: &mut Kernel<MemoryDevice>,
    out: &mut Text,
) -> Result<(), CaseError> {
    out.print("steps");
    for _ in 0..MOST_STEPS {
        if !step_first(alloc, kernel, out) {
            out.print("\n");
            return Ok(());
        }
    }
    Err(CaseError::Line("it isn't drained"))
}

/// Which of the ready steps is done: the first one in the order of the table, or one that goes before all others or behind them.
#[derive(Clone, Copy)]
enum Choice {
    InOrder,
    First(Step),
    Last(Step),
}

/// The choice of these words: none, `first STEP` or `last STEP`.
fn choice_of(mut words: Words<'_>) -> Result<Choice, CaseError> {
    if words.is_empty() {
        return Ok(Choice::InOrder);
    }
    let which = words.next()?;
    let Some(step) = look_up(&STEP_NAMES, words.last()?) else {
        return Err(CaseError::Line("no such step"));
    };
    match which {
        "first" => Ok(Choice::First(step)),
        "last" => Ok(Choice::Last(step)),
        _ => Err(CaseError::Line("no such choice")),
    }
}

/// Does the first ready step in the order of the table that isn't this one.
fn step_other(
    alloc: Global,
    kernel: &mut Kernel<MemoryDevice>,
    not: Option<Step>,
) -> Option<Result<(), StepFail>> {
    for step in ALL_STEPS {
        if not != Some(step)
            && let Some(did) = step_if_ready(alloc, kernel, step)
        {
            return Some(did);
        }
    }
    None
}

/// Does the ready step of this choice.
fn step_chosen(
    alloc: Global,
    kernel: &mut Kernel<MemoryDevice>,
    choice: Choice,
) -> Option<Result<(), StepFail>> {
    match choice {
        Choice::InOrder => step_other(alloc, kernel, None),
        Choice::First(step) => match step_if_ready(alloc, kernel, step) {
            Some(did) => Some(did),
            None => step_other(alloc, kernel, None),
        },
        Choice::Last(step) => match step_other(alloc, kernel, Some(step)) {
            Some(did) => Some(did),
            None => step_if_ready(alloc, kernel, step),
        },
    }
}

/// Does steps of this choice until none is ready, whether they fail or not.
fn settled(
    alloc: Global,
    kernel: &mut Kernel<MemoryDevice>,
    choice: Choice,
) -> Result<(), CaseError> {
    for _ in 0..MOST_UNSHOWN {
        if step_chosen(alloc, kernel, choice).is_none() {
            return Ok(());
        }
    }
    Err(CaseError::Line("it isn't drained"))
}

/// Does the first ready step until none is ready.
pub fn settle_in_order(alloc: Global, kernel: &mut Kernel<MemoryDevice>) -> Result<(), CaseError> {
    settled(alloc, kernel, Choice::InOrder)
}

/// Follows `settle`, `settle first STEP` and `settle last STEP`, from its second word on.
pub fn settle(
    alloc: Global,
    kernel: &mut Kernel<MemoryDevice>,
    words: Words<'_>,
) -> Result<(), CaseError> {
    settled(alloc, kernel, choice_of(words)?)
}

/// Follows `ready`.
pub fn print_ready(kernel: &Kernel<MemoryDevice>, out: &mut Text) {
    out.print("ready");
    for step in ALL_STEPS {
        if kernel.ready(step) {
            out.print(format_args!(" {step:?}"));
        }
    }
    out.print("\n");
}

/// Follows `state`.
pub fn print_state(kernel: &Kernel<MemoryDevice>, out: &mut Text) {
    match kernel.down() {
        Some(ticket) => out.print(format_args!("down by {}", ticket.place)),
        None => out.print("up"),
    }
    let drained = kernel.drained();
    let free = kernel.free_units();
    let entries = kernel.entries().len();
    let commits = kernel.commits().len();
    out.println(format_args!(" drained={drained} free={free} entries={entries} commits={commits}"));
}

/// Does a step of this name, if it is ready, and shows it.
fn step_of(
    alloc: Global,
    kernel: &mut Kernel<MemoryDevice>,
    name: &str,
    out: &mut Text,
) -> Result<(), CaseError> {
    let Some(step) = look_up(&STEP_NAMES, name) else {
        return Err(CaseError::Line("no such step"));
    };
    match step_if_ready(alloc, kernel, step) {
        Some(did) => show_step(did, step, out),
        None => out.print(format_args!(" {step:?}=not-ready")),
    }
    Ok(())
}

/// Follows `step NAME ..`, from its second word on: does each of them that is ready.
pub fn step(
    alloc: Global,
    kernel: &mut Kernel<MemoryDevice>,
    words: Words<'_>,
    out: &mut Text,
) -> Result<(), CaseError> {
    out.print("steps");
    for name in words.list(alloc)? {
        step_of(alloc, kernel, name, out)?;
    }
    out.print("\n");
    Ok(())
}

/// Follows `commits`: shows the places of the commits in their order, each with the number of events at which it was acknowledged.
pub fn print_commits(kernel: &Kernel<MemoryDevice>, out: &mut Text) {
    out.print("commits");
    for commit in kernel.commits() {
        match commit.acked_at {
            Some(at) => out.print(format_args!(" {}@{at}", commit.place)),
            None => out.print(format_args!(" {}@never", commit.place)),
        }
    }
    out.print("\n");
}

/// Follows `acked PLACE`, from its second word on.
pub fn print_acked(
    kernel: &Kernel<MemoryDevice>,
    words: Words<'_>,
    out: &mut Text,
) -> Result<(), CaseError> {
    let place = small(words.last()?)?;
    let acked = kernel.commits().iter().any(|commit| commit.place == place
        && commit.acked_at.is_some());
    out.println(acked);
    Ok(())
}
