//! The text of `step`, and the last lines that `step` and `dump` share.
ghost use Rattle.std.specs.Prelude.{◌≡◌, ◌∷◌, [], codes};
ghost use Rattle.run_texts.specs.declared.status.Stop.TheVariants.{Refused, BadScript};
ghost use Rattle.run_texts.specs.Printed.{output};
ghost use Rattle.run_texts.specs.Printing.{AddsText};
ghost use Rattle.run_texts.specs.Texts.{as_text, stopped_line};
ghost use Rattle.run_texts.specs.StepTexts.{script_line, bad_row_line, not_exact_line, first_cause, fail_lines, end_lines, step_text};

use crate::hex::push_hex;
use crate::printer::Printer;
use crate::replies::{has_csum, push_done, push_replies};
use crate::texts::push_stopped;
use crate::{Stop, WorkEnd};
use end_points::Sink;
use object_model::Book;
use std::alloc::Global;

/// What a run stopped for that has met a bad unit, or not: a bad unit that was met comes before what ended the run.
fn first_cause(bad: bool, why: Stop) -> Stop
    ensures { result ≡ first_cause bad why }
{
    if bad { Stop::Refused } else { why }
}

/// Adds the lines of a run in which the script of this number has a bad line, the first of this number.
fn push_bad_line<K: Sink>(text: &mut Printer, out: &mut K, script: u32, line: u32)
    ensures { AddsText (as_text (script_line script line ∷ stopped_line BadScript ∷ [])) text.old text.new
        (output (K.written out.old) (K.faults out.old)) (output (K.written out.new) (K.faults out.new)) }
{
    text.push_str(out, "script ");
    text.push_number(out, script as u64);
    text.push_str(out, " line ");
    text.push_number(out, line as u64);
    text.push_str(out, "\n");
    push_stopped(text, out, Stop::BadScript)
}

/// Adds the lines of a run that found no store it could open, for this.
fn push_no_store<K: Sink>(text: &mut Printer, out: &mut K, why: &str)
    ensures { AddsText (as_text (why.now ∷ stopped_line Refused ∷ [])) text.old text.new
        (output (K.written out.old) (K.faults out.old)) (output (K.written out.new) (K.faults out.new)) }
{
    text.push_str(out, why);
    text.push_str(out, "\n");
    push_stopped(text, out, Stop::Refused)
}

/// Adds the lines of a run that found a bad row under this key.
fn push_bad_row<K: Sink>(text: &mut Printer, out: &mut K, key: &[u8])
    ensures { AddsText (as_text (bad_row_line key.now ∷ stopped_line Refused ∷ [])) text.old text.new
        (output (K.written out.old) (K.faults out.old)) (output (K.written out.new) (K.faults out.new)) }
{
    text.push_str(out, "mount BadRow ");
    push_hex(text, out, key);
    text.push_str(out, "\n");
    push_stopped(text, out, Stop::Refused)
}

/// Adds the lines of a run that found this unit without one owner and a mark.
fn push_not_exact<K: Sink>(text: &mut Printer, out: &mut K, unit: u32)
    ensures { AddsText (as_text (not_exact_line unit ∷ stopped_line Refused ∷ [])) text.old text.new
        (output (K.written out.old) (K.faults out.old)) (output (K.written out.new) (K.faults out.new)) }
{
    text.push_str(out, "mount NotExact unit=");
    text.push_number(out, unit as u64);
    text.push_str(out, "\n");
    push_stopped(text, out, Stop::Refused)
}

/// Adds the last lines of a run that stopped before its work was done, and that has met a bad unit, or not: nothing, if it
/// was done or the sink has failed.
pub fn push_fail<K: Sink>(text: &mut Printer, out: &mut K, bad: bool, end: &WorkEnd)
    ensures { AddsText (as_text (fail_lines bad end.now)) text.old text.new
        (output (K.written out.old) (K.faults out.old)) (output (K.written out.new) (K.faults out.new)) }
{
    match end {
        WorkEnd::Done { .. } => text.push_str(out, ""),
        WorkEnd::BadLine { script, n } => push_bad_line(text, out, *script, *n),
        WorkEnd::NoSuper => push_no_store(text, out, "mount NoSuper"),
        WorkEnd::BadRow { key } => push_bad_row(text, out, key.as_slice()),
        WorkEnd::NotExact { unit } => push_not_exact(text, out, *unit),
        WorkEnd::WornOut => push_no_store(text, out, "mount WornOut"),
        WorkEnd::DeviceFault => push_stopped(text, out, first_cause(bad, Stop::DeviceFault)),
        WorkEnd::OutOfMemory => push_stopped(text, out, first_cause(bad, Stop::OutOfMemory)),
        WorkEnd::BayFault => push_stopped(text, out, first_cause(bad, Stop::BayFault)),
        WorkEnd::SinkFault => text.push_str(out, ""),
    }
}

/// Adds the lines behind the replies.
fn push_end<K: Sink>(text: &mut Printer, out: &mut K, book: &Book, end: &WorkEnd)
    ensures { AddsText (as_text (end_lines book.now end.now)) text.old text.new
        (output (K.written out.old) (K.faults out.old)) (output (K.written out.new) (K.faults out.new)) }
{
    match end {
        WorkEnd::Done { free } => push_done(text, out, book, *free),
        _ => push_fail(text, out, has_csum(book.entries.as_slice()), end),
    }
}

/// Adds what a run prints that has this book and this end: a line for each entry, and then how it ended.
pub fn push_step<K: Sink>(
    alloc: Global,
    text: &mut Printer,
    out: &mut K,
    book: &Book,
    end: &WorkEnd,
)
    ensures { AddsText (step_text book.now end.now) text.old text.new
        (output (K.written out.old) (K.faults out.old)) (output (K.written out.new) (K.faults out.new)) }
{
    push_replies(alloc, text, out, book);
    push_end(text, out, book, end)
}
