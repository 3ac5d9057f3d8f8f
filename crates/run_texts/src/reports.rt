//! Reports: what came of a run is printed, and its status is told.
ghost use Rattle.std.specs.Prelude.{◌≡◌, ◌+◌, ◌*◌, ◌≤◌, [], ◌++◌, List, ℕ, None};
ghost use Rattle.run_texts.specs.Status.{number, end_number};
ghost use Rattle.run_texts.specs.Texts.{mkfs_text};
ghost use Rattle.run_texts.specs.Printed.{Output, output, Printed};
ghost use Rattle.run_texts.specs.Printing.{AddsText, PrintedSoFar};
ghost use Rattle.run_texts.specs.StepTexts.{end_status};
ghost use Rattle.run_texts.specs.FsckTexts.{fsck_text, fsck_number};
ghost use Rattle.run_texts.specs.Reports.{ReportsMkfs, ReportsStep, ReportsFsck, ReportsStop, ShowedUsage};

use crate::fsck_texts::{push_count, push_findings};
use crate::printer::Printer;
use crate::replies::has_csum;
use crate::step_texts::{push_fail, push_step};
use crate::texts::{push_made, push_stopped, push_too_small};
use crate::{Status, Stop, WorkEnd};
use byte_maps::Items;
use end_points::{Fault, Sink};
use findings::Finding;
use object_model::Book;
use std::alloc::Global;

/// How a run has ended whose work was done, or stopped for this.
fn status_of(stop: Option<Stop>) -> Status
    ensures { number result ≡ end_number stop }
{
    match stop {
        None => Status::Done,
        Some(stop) => Status::Stopped(stop),
    }
}

/// Prints what still waits of a text, and says how the run has ended that has this status otherwise.
pub fn print_rest<K: Sink>(text: Printer, out: &mut K, status: Status) -> Status
    ensures { (start : Output) (printed : List ℕ) → PrintedSoFar text.failed start printed text.bytes (output (K.written out.old) (K.faults out.old)) →
        Printed (number status) printed (number result) start (output (K.written out.new) (K.faults out.new)) }
{
    match text.finish(out) {
        Ok(()) => status,
        Err(Fault) => Status::SinkFault,
    }
}

/// Adds the text of a run of `mkfs`.
fn push_mkfs<K: Sink>(text: &mut Printer, out: &mut K, half: u32, units: u32, stop: Option<Stop>)
    requires half { half ≤ 65536 }
    requires units { stop ≡ None → 2 * half + 3 ≤ units }
    ensures { AddsText (mkfs_text half units stop) text.old text.new
        (output (K.written out.old) (K.faults out.old)) (output (K.written out.new) (K.faults out.new)) }
{
    match stop {
        None => push_made(text, out, half, units),
        Some(Stop::Refused) => push_too_small(text, out, half, units),
        Some(stop) => push_stopped(text, out, stop),
    }
}

/// Prints what came of the work of `mkfs`, which was done or stopped for this, and says how the run has ended.
pub fn report_mkfs<K: Sink>(half: u32, units: u32, stop: Option<Stop>, out: &mut K) -> Status
    requires half { half ≤ 65536 }
    requires units { stop ≡ None → 2 * half + 3 ≤ units }
    ensures { ReportsMkfs half units stop (number result)
        (output (K.written out.old) (K.faults out.old)) (output (K.written out.new) (K.faults out.new)) }
{
    let mut text = Printer::new();
    push_mkfs(&mut text, out, half, units, stop);
    print_rest(text, out, status_of(stop))
}

/// How a run has ended that has met a bad unit, or not.
pub fn run_status(bad: bool, end: &WorkEnd) -> Status
    ensures { number result ≡ end_status bad end.now }
{
    if bad {
        Status::Stopped(Stop::Refused)
    } else {
        end.status()
    }
}

/// Prints what came of a run of `step`, and says how the run has ended. Memory is taken for speed alone: where there is none,
/// the same is printed.
pub fn report_step<K: Sink>(alloc: Global, book: &Book, end: &WorkEnd, out: &mut K) -> Status
    ensures { ReportsStep book.now end.now (number result)
        (output (K.written out.old) (K.faults out.old)) (output (K.written out.new) (K.faults out.new)) }
{
    let mut text = Printer::new();
    push_step(alloc, &mut text, out, book, end);
    let status = run_status(has_csum(book.entries.as_slice()), end);
    print_rest(text, out, status)
}

/// Prints that a run stopped for this, and nothing else.
pub fn report_stop<K: Sink>(stop: Stop, out: &mut K) -> Status
    ensures { ReportsStop stop (number result) (output (K.written out.old) (K.faults out.old)) (output (K.written out.new) (K.faults out.new)) }
{
    let mut text = Printer::new();
    push_stopped(&mut text, out, stop);
    print_rest(text, out, Status::Stopped(stop))
}

/// Adds the text of a run of `fsck`.
fn push_fsck<K: Sink>(text: &mut Printer, out: &mut K, ended: &Result<Items<Finding>, WorkEnd>)
    ensures { AddsText (fsck_text ended.now) text.old text.new
        (output (K.written out.old) (K.faults out.old)) (output (K.written out.new) (K.faults out.new)) }
{
    match ended {
        Ok(found) => {
            push_findings(text, out, found.as_slice());
            push_count(text, out, found.len() as u64)
        }
        Err(end) => push_fail(text, out, false, end),
    }
}

/// How a run of `fsck` has ended.
fn fsck_status(ended: &Result<Items<Finding>, WorkEnd>) -> Status
    ensures { number result ≡ fsck_number ended.now }
{
    match ended {
        Ok(found) if found.is_empty() => Status::Done,
        Ok(_) => Status::Stopped(Stop::Refused),
        Err(end) => run_status(false, end),
    }
}

/// Prints what a run of `fsck` found, or why it looked through no store, and says how the run has ended.
pub fn report_fsck<K: Sink>(ended: &Result<Items<Finding>, WorkEnd>, out: &mut K) -> Status
    ensures { ReportsFsck ended.now (number result)
        (output (K.written out.old) (K.faults out.old)) (output (K.written out.new) (K.faults out.new)) }
{
    let mut text = Printer::new();
    push_fsck(&mut text, out, ended);
    print_rest(text, out, fsck_status(ended))
}

/// Prints why words are no command line: what is wrong with them, or the help that was asked for.
pub fn show_usage<K: Sink>(told: &str, out: &mut K) -> Status
    ensures { ShowedUsage (number result) (output (K.written out.old) (K.faults out.old)) (output (K.written out.new) (K.faults out.new)) }
{
    let line = told.strip_suffix("\n").unwrap_or(told);
    let mut text = Printer::new();
    text.push_str(out, line);
    text.push_str(out, "\n");
    print_rest(text, out, Status::NotACommandLine)
}
