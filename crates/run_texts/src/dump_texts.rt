//! The text of `dump`.
ghost use Rattle.std.specs.Prelude.{◌≡◌, [], ◌∷◌, ◌++◌, codes};
ghost use Rattle.script_text.specs.Prelude.{escaped};
ghost use Rattle.run_texts.specs.Printed.{output};
ghost use Rattle.run_texts.specs.Printing.{AddsText};
ghost use Rattle.run_texts.specs.Texts.{as_text};
ghost use Rattle.run_texts.specs.DumpTexts.{sum_text, view_line, value_line, value_lines, header_lines, object_lines, coll_lines, is_bad, last_lines};
ghost use Rattle.run_texts.specs.Hex.{hex_sum};

use crate::WorkEnd;
use crate::hex::{push_hex, push_hex_or_dash, push_hex_sum};
use crate::names::push_name;
use crate::printer::Printer;
use crate::replies::push_csum;
use crate::step_texts::push_fail;
use end_points::Sink;
use read_facts::{BadSum, ObjectView, ValueView};
use unit_fields::CollName;

/// Adds the checksum of an object's bytes.
fn push_crc<K: Sink>(text: &mut Printer, out: &mut K, crc: u32)
    ensures { AddsText (codes "crc " ++ hex_sum crc) text.old text.new
        (output (K.written out.old) (K.faults out.old)) (output (K.written out.new) (K.faults out.new)) }
{
    text.push_str(out, "crc ");
    push_hex_sum(text, out, crc)
}

/// Adds the checksum of an object's bytes, or its first bad unit.
fn push_sum<K: Sink>(text: &mut Printer, out: &mut K, sum: &Result<u32, BadSum>)
    ensures { AddsText (sum_text sum.now) text.old text.new
        (output (K.written out.old) (K.faults out.old)) (output (K.written out.new) (K.faults out.new)) }
{
    match sum {
        Ok(crc) => push_crc(text, out, *crc),
        Err(bad) => push_csum(text, out, bad.unit, bad.kept, bad.found),
    }
}

/// Adds the line of an object's name, size and checksum.
fn push_view<K: Sink>(text: &mut Printer, out: &mut K, view: &ObjectView)
    ensures { AddsText (view_line view.now ++ 10 ∷ []) text.old text.new
        (output (K.written out.old) (K.faults out.old)) (output (K.written out.new) (K.faults out.new)) }
{
    text.push_str(out, "object ");
    push_name(text, out, view.name.as_slice());
    text.push_str(out, " size ");
    text.push_number(out, view.size);
    text.push_str(out, " ");
    push_sum(text, out, &view.sum);
    text.push_str(out, "\n")
}

/// Adds the line of a value of an object, behind a word for its kind.
fn push_value<K: Sink>(text: &mut Printer, out: &mut K, word: &str, view: &ValueView)
    ensures { AddsText (value_line word.now view.now ++ 10 ∷ []) text.old text.new
        (output (K.written out.old) (K.faults out.old)) (output (K.written out.new) (K.faults out.new)) }
{
    text.push_str(out, word);
    push_name(text, out, view.name.as_slice());
    text.push_str(out, " ");
    push_hex_or_dash(text, out, view.value.as_slice());
    text.push_str(out, "\n")
}

/// Adds the lines of an object's values of one kind.
fn push_values<K: Sink>(text: &mut Printer, out: &mut K, word: &str, values: &[ValueView])
    ensures { AddsText (as_text (value_lines word.now values.now)) text.old text.new
        (output (K.written out.old) (K.faults out.old)) (output (K.written out.new) (K.faults out.new)) }
{
    for value in values {
        push_value(text, out, word, value);
    }
}

/// Adds the line of an omap's header, unless it is empty.
fn push_header<K: Sink>(text: &mut Printer, out: &mut K, header: &[u8])
    ensures { AddsText (as_text (header_lines header.now)) text.old text.new
        (output (K.written out.old) (K.faults out.old)) (output (K.written out.new) (K.faults out.new)) }
{
    if header.is_empty() {
        return;
    }
    text.push_str(out, "header ");
    push_hex(text, out, header);
    text.push_str(out, "\n")
}

/// Adds the lines of an object: its own, and those of its values.
pub fn push_object<K: Sink>(text: &mut Printer, out: &mut K, view: &ObjectView)
    ensures { AddsText (as_text (object_lines view.now)) text.old text.new
        (output (K.written out.old) (K.faults out.old)) (output (K.written out.new) (K.faults out.new)) }
{
    push_view(text, out, view);
    push_values(text, out, "attr ", view.attrs.as_slice());
    push_header(text, out, view.header.as_slice());
    push_values(text, out, "omap ", view.omap.as_slice())
}

/// Adds the line of a collection.
pub fn push_coll<K: Sink>(text: &mut Printer, out: &mut K, coll: &CollName)
    ensures { AddsText (as_text (coll_lines (record { coll = coll.now; objects = [] }))) text.old text.new
        (output (K.written out.old) (K.faults out.old)) (output (K.written out.new) (K.faults out.new)) }
{
    text.push_str(out, "coll ");
    push_name(text, out, coll.as_slice());
    text.push_str(out, "\n")
}

/// Whether an object has a bad unit: the run then has the status of a store that isn't mounted, whatever ends it.
pub fn is_bad(sum: &Result<u32, BadSum>) -> bool
    ensures { result ≡ is_bad sum.now }
{
    sum.is_err()
}

/// Adds the lines behind those of objects, for a run that has met a bad unit, or not.
pub fn push_last<K: Sink>(text: &mut Printer, out: &mut K, bad: bool, end: &WorkEnd)
    ensures { AddsText (as_text (last_lines bad end.now)) text.old text.new
        (output (K.written out.old) (K.faults out.old)) (output (K.written out.new) (K.faults out.new)) }
{
    match end {
        WorkEnd::Done { .. } => text.push_str(out, "end\n"),
        _ => push_fail(text, out, bad, end),
    }
}
