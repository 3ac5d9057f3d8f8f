//! Runs, from the words to the outcome.
ghost use Rattle.std.specs.Prelude.{◌≡◌, ◌<◌, ◌≤◌, [], map, IsSomeAnd};
ghost use Rattle.std.specs.Option.{option_map};
ghost use Rattle.command_words.specs.declared.command_line.CommandLine.TheVariants.{Mkfs, Step, Dump, Fsck};
ghost use Rattle.command_words.specs.CommandLine.{words_of, IsInRange, IsHalf, IsUnitCount, IsNoCommandLine};
ghost use Rattle.run_texts.specs.Prelude.{number, output};
ghost use Rattle.bstore_top.specs.StepRun.{seen, RanStep};
ghost use Rattle.bstore_top.specs.DumpRun.{RanDump};
ghost use Rattle.bstore_top.specs.FsckRun.{RanFsck};
ghost use Rattle.bstore_top.specs.Run.{Ran, RanMkfs, ForLine, ComesBack, CameBack, EachCrashLeavesPrefix, HasStore, SpellsNone, IsUnstarted, IsBareUnlessStep, LeavesBook};

use crate::Outcome;
use crate::dump_work::{DumpWork, dump_store};
use crate::fsck_work::{FsckWork, fsck_store};
use crate::making::{Work, make_store};
use crate::script_work::{StepWork, run_store};
use command_words::{CommandLine, FileName, FileNames, NoLine, read_words};
use end_points::{Bay, Gate, Sink};
use object_model::Book;
use run_texts::{
    DumpPrinter, Status, Stop, report_fsck, report_mkfs, report_step, report_stop, show_usage,
};
use std::alloc::Global;

/// An outcome of a run that opens no script and has no book.
fn bare<D, S>(alloc: Global, status: Status, dev: Option<D>) -> Outcome<D, S>
    ensures status { result.status ≡ number status }
    ensures dev { result.dev ≡ dev }
    ensures rest { IsUnstarted result.sources.items result.book }
    ensures turns { result.turns.items ≡ [] }
{
    Outcome {
        status: status.number(),
        dev,
        sources: Vec::new(alloc),
        book: Book::new(alloc),
        turns: Vec::new(alloc),
    }
}

/// Runs `mkfs`.
fn run_mkfs<B: Bay, K: Sink>(
    alloc: Global,
    dev: &FileName<'_>,
    half: u32,
    units: u32,
    prefer: u32,
    bay: &mut B,
    out: &mut K,
) -> Outcome<B::Dev, B::Src>
    requires half { IsHalf half }
    requires units { IsUnitCount units }
    requires prefer { prefer ≤ 1048576 }
    requires given { (B.bay bay.old).given < 4294967294 }
    ensures run { RanMkfs dev.now half units result.status
        (seen (option_map B.Dev.disk result.dev) (option_map B.Dev.faults result.dev) (map B.Src.faults result.sources.items) result.book)
        (B.bay bay.old) (B.bay bay.new) (B.faults bay.old) (B.faults bay.new)
        (output (K.written out.old) (K.faults out.old)) (output (K.written out.new) (K.faults out.new)) }
    ensures device { ComesBack (Mkfs dev.now half units prefer) (B.bay bay.old) (option_map B.Dev.disk result.dev) (B.bay bay.new) }
    ensures store { result.status ≡ 0 → IsSomeAnd (option_map B.Dev.disk result.dev) (HasStore (Mkfs dev.now half units prefer)) }
    ensures rest { IsUnstarted result.sources.items result.book }
    ensures turns { result.turns.items ≡ [] }
{
    let Work { stop, dev } = make_store(alloc, dev, half, units, prefer, bay);
    let status = report_mkfs(half, units, stop, out);
    bare(alloc, status, dev)
}

/// Runs `step`.
fn run_step<B: Bay, K: Sink>(
    alloc: Global,
    dev: &FileName<'_>,
    seed: u32,
    scripts: &FileNames<'_>,
    bay: &mut B,
    out: &mut K,
) -> Outcome<B::Dev, B::Src>
    requires given { (B.bay bay.old).given < 4294967294 }
    ensures run { RanStep dev.now scripts.now seed result.status
        (seen (option_map B.Dev.disk result.dev) (option_map B.Dev.faults result.dev) (map B.Src.faults result.sources.items) result.book)
        (B.bay bay.old) (B.bay bay.new) (B.faults bay.old) (B.faults bay.new)
        (output (K.written out.old) (K.faults out.old)) (output (K.written out.new) (K.faults out.new)) }
    ensures device { ComesBack (Step dev.now seed scripts.now) (B.bay bay.old) (option_map B.Dev.disk result.dev) (B.bay bay.new) }
    ensures durable { EachCrashLeavesPrefix (Step dev.now seed scripts.now) (B.bay bay.old) (option_map B.Dev.disk result.dev) result.book }
    ensures turns { result.turns.items ≡ [] }
{
    let StepWork {
        end,
        dev,
        sources,
        book,
    } = run_store(alloc, dev, seed, scripts, bay);
    let status = report_step(alloc, &book, &end, out);
    Outcome {
        status: status.number(),
        dev,
        sources,
        book,
        turns: Vec::new(alloc),
    }
}

/// Runs `dump`.
fn run_dump<B: Bay, K: Sink>(
    alloc: Global,
    dev: &FileName<'_>,
    bay: &mut B,
    out: &mut K,
) -> Outcome<B::Dev, B::Src>
    requires given { (B.bay bay.old).given < 4294967294 }
    ensures run { RanDump dev.now result.status
        (seen (option_map B.Dev.disk result.dev) (option_map B.Dev.faults result.dev) (map B.Src.faults result.sources.items) result.book)
        (B.bay bay.old) (B.bay bay.new) (B.faults bay.old) (B.faults bay.new)
        (output (K.written out.old) (K.faults out.old)) (output (K.written out.new) (K.faults out.new)) }
    ensures device { ComesBack (Dump dev.now) (B.bay bay.old) (option_map B.Dev.disk result.dev) (B.bay bay.new) }
    ensures durable { EachCrashLeavesPrefix (Dump dev.now) (B.bay bay.old) (option_map B.Dev.disk result.dev) result.book }
    ensures rest { IsUnstarted result.sources.items result.book }
    ensures turns { result.turns.items ≡ [] }
{
    let mut text = DumpPrinter::new();
    let DumpWork { end, dev } = dump_store(alloc, dev, bay, &mut text, out);
    let status = text.report(&end, out);
    bare(alloc, status, dev)
}

/// Runs `fsck`.
fn run_fsck<B: Bay, K: Sink>(
    alloc: Global,
    dev: &FileName<'_>,
    bay: &mut B,
    out: &mut K,
) -> Outcome<B::Dev, B::Src>
    requires given { (B.bay bay.old).given < 4294967294 }
    ensures run { RanFsck dev.now result.status
        (seen (option_map B.Dev.disk result.dev) (option_map B.Dev.faults result.dev) (map B.Src.faults result.sources.items) result.book)
        (B.bay bay.old) (B.bay bay.new) (B.faults bay.old) (B.faults bay.new)
        (output (K.written out.old) (K.faults out.old)) (output (K.written out.new) (K.faults out.new)) }
    ensures device { ComesBack (Fsck dev.now) (B.bay bay.old) (option_map B.Dev.disk result.dev) (B.bay bay.new) }
    ensures rest { IsUnstarted result.sources.items result.book }
    ensures turns { result.turns.items ≡ [] }
{
    let FsckWork { ended, dev } = fsck_store(alloc, dev, bay);
    let status = report_fsck(&ended, out);
    bare(alloc, status, dev)
}

fn run<B: Bay, K: Sink>(
    alloc: Global,
    line: &CommandLine<'_>,
    bay: &mut B,
    out: &mut K,
) -> Outcome<B::Dev, B::Src>
    requires range { IsInRange line.now }
    requires given { (B.bay bay.old).given < 4294967294 }
    ensures run { Ran line.now result.status
        (seen (option_map B.Dev.disk result.dev) (option_map B.Dev.faults result.dev) (map B.Src.faults result.sources.items) result.book)
        (B.bay bay.old) (B.bay bay.new) (B.faults bay.old) (B.faults bay.new)
        (output (K.written out.old) (K.faults out.old)) (output (K.written out.new) (K.faults out.new)) }
    ensures device { ComesBack line.now (B.bay bay.old) (option_map B.Dev.disk result.dev) (B.bay bay.new) }
    ensures durable { EachCrashLeavesPrefix line.now (B.bay bay.old) (option_map B.Dev.disk result.dev) result.book }
    ensures store { result.status ≡ 0 → IsSomeAnd (option_map B.Dev.disk result.dev) (HasStore line.now) }
    ensures rest { LeavesBook line.now result.sources.items result.book }
    ensures turns { result.turns.items ≡ [] }
{
    match line {
        CommandLine::Mkfs {
            dev,
            half,
            units,
            prefer,
        } => run_mkfs(alloc, dev, *half, *units, *prefer, bay, out),
        CommandLine::Step { dev, seed, scripts } => run_step(alloc, dev, *seed, scripts, bay, out),
        CommandLine::Dump { dev } => run_dump(alloc, dev, bay, out),
        CommandLine::Fsck { dev } => run_fsck(alloc, dev, bay, out),
    }
}

/// Runs any command but those that start threads: reads the words, of which the first is the program's name, does the work,
/// and prints what came of it. All text goes to `out`. It returns on whatever a device, a bay and a sink answer, and gives the
/// device back that the bay gave.
pub fn solo<B: Bay, K: Sink>(
    alloc: Global,
    words: &Vec<String>,
    bay: &mut B,
    out: &mut K,
) -> Outcome<B::Dev, B::Src>
    requires { (B.bay bay.old).given < 4294967294 }
    ensures usage { IsNoCommandLine (words_of words.now) →
        SpellsNone result.status (output (K.written out.old) (K.faults out.old)) (output (K.written out.new) (K.faults out.new)) }
    ensures run { ForLine (words_of words.now) (λ line. Ran line result.status
        (seen (option_map B.Dev.disk result.dev) (option_map B.Dev.faults result.dev) (map B.Src.faults result.sources.items) result.book)
        (B.bay bay.old) (B.bay bay.new) (B.faults bay.old) (B.faults bay.new)
        (output (K.written out.old) (K.faults out.old)) (output (K.written out.new) (K.faults out.new))) }
    ensures device { CameBack (words_of words.now) (B.bay bay.old) (option_map B.Dev.disk result.dev) (B.bay bay.new) }
    ensures durable { ForLine (words_of words.now) (λ line. EachCrashLeavesPrefix line (B.bay bay.old) (option_map B.Dev.disk result.dev) result.book) }
    ensures store { result.status ≡ 0 → ForLine (words_of words.now) (λ line. IsSomeAnd (option_map B.Dev.disk result.dev) (HasStore line)) }
    ensures rest { IsBareUnlessStep (words_of words.now) result.sources.items result.book }
    ensures turns { result.turns.items ≡ [] }
{
    match read_words(alloc, words) {
        Ok(line) => run(alloc, &line, bay, out),
        Err(NoLine::Told { text }) => bare(alloc, show_usage(text.as_str(), out), None),
        Err(NoLine::Memory) => bare(alloc, report_stop(Stop::OutOfMemory, out), None),
    }
}

/// Runs the command that the words spell, with the words, the clauses and the effects of `solo`; the gate is asked by the
/// commands that start threads.
pub fn top<B: Bay, K: Sink, G: Gate>(
    alloc: Global,
    words: &Vec<String>,
    bay: &mut B,
    out: &mut K,
    gate: &G,
) -> Outcome<B::Dev, B::Src>
    requires { (B.bay bay.old).given < 4294967294 }
    ensures usage { IsNoCommandLine (words_of words.now) →
        SpellsNone result.status (output (K.written out.old) (K.faults out.old)) (output (K.written out.new) (K.faults out.new)) }
    ensures run { ForLine (words_of words.now) (λ line. Ran line result.status
        (seen (option_map B.Dev.disk result.dev) (option_map B.Dev.faults result.dev) (map B.Src.faults result.sources.items) result.book)
        (B.bay bay.old) (B.bay bay.new) (B.faults bay.old) (B.faults bay.new)
        (output (K.written out.old) (K.faults out.old)) (output (K.written out.new) (K.faults out.new))) }
    ensures device { CameBack (words_of words.now) (B.bay bay.old) (option_map B.Dev.disk result.dev) (B.bay bay.new) }
    ensures durable { ForLine (words_of words.now) (λ line. EachCrashLeavesPrefix line (B.bay bay.old) (option_map B.Dev.disk result.dev) result.book) }
    ensures store { result.status ≡ 0 → ForLine (words_of words.now) (λ line. IsSomeAnd (option_map B.Dev.disk result.dev) (HasStore line)) }
    ensures rest { IsBareUnlessStep (words_of words.now) result.sources.items result.book }
    ensures turns { result.turns.items ≡ [] }
{
    let _ = gate;
    solo(alloc, words, bay, out)
}
