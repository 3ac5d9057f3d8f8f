//! The text of `fsck`.
ghost use Rattle.std.specs.Prelude.{◌≡◌, ◌∷◌, ◌++◌, [], codes, decimal};
ghost use Rattle.run_texts.specs.Printed.{output};
ghost use Rattle.run_texts.specs.Printing.{AddsText};
ghost use Rattle.run_texts.specs.Texts.{as_text};
ghost use Rattle.run_texts.specs.Hex.{hex_text, hex_sum};
ghost use Rattle.run_texts.specs.FsckTexts.{finding_line, finding_lines, count_line};

use crate::hex::{push_hex, push_hex_sum};
use crate::printer::Printer;
use end_points::Sink;
use findings::Finding;

/// Adds the key of a bad row.
fn push_key<K: Sink>(text: &mut Printer, out: &mut K, key: &[u8])
    ensures { AddsText (codes "BadRow key=" ++ hex_text key.now) text.old text.new
        (output (K.written out.old) (K.faults out.old)) (output (K.written out.new) (K.faults out.new)) }
{
    text.push_str(out, "BadRow key=");
    push_hex(text, out, key)
}

/// Adds a unit with the checksum that is kept for a page on it, and that of its bytes.
fn push_sums<K: Sink>(text: &mut Printer, out: &mut K, unit: u32, kept: u32, found: u32)
    ensures { AddsText (codes "BadSum unit=" ++ decimal unit ++ codes " kept=" ++ hex_sum kept ++ codes " found=" ++ hex_sum found) text.old text.new
        (output (K.written out.old) (K.faults out.old)) (output (K.written out.new) (K.faults out.new)) }
{
    text.push_str(out, "BadSum unit=");
    text.push_number(out, unit as u64);
    text.push_str(out, " kept=");
    push_hex_sum(text, out, kept);
    text.push_str(out, " found=");
    push_hex_sum(text, out, found)
}

/// Adds the unit of a slot with the count that is kept for it, and how many pages name it.
fn push_counts<K: Sink>(text: &mut Printer, out: &mut K, unit: u32, kept: u32, counted: u64)
    ensures { AddsText (codes "WrongCount unit=" ++ decimal unit ++ codes " kept=" ++ decimal kept ++ codes " counted=" ++ decimal counted) text.old text.new
        (output (K.written out.old) (K.faults out.old)) (output (K.written out.new) (K.faults out.new)) }
{
    text.push_str(out, "WrongCount unit=");
    text.push_number(out, unit as u64);
    text.push_str(out, " kept=");
    text.push_number(out, kept as u64);
    text.push_str(out, " counted=");
    text.push_number(out, counted)
}

/// Adds a unit behind words for what is wrong with it.
fn push_unit<K: Sink>(text: &mut Printer, out: &mut K, words: &str, unit: u32)
    ensures { AddsText (words.now ++ decimal unit) text.old text.new
        (output (K.written out.old) (K.faults out.old)) (output (K.written out.new) (K.faults out.new)) }
{
    text.push_str(out, words);
    text.push_number(out, unit as u64)
}

/// Adds what a finding says.
fn push_words<K: Sink>(text: &mut Printer, out: &mut K, finding: &Finding)
    ensures { AddsText (finding_line finding.now) text.old text.new
        (output (K.written out.old) (K.faults out.old)) (output (K.written out.new) (K.faults out.new)) }
{
    match finding {
        Finding::BadRow { key } => push_key(text, out, key.as_slice()),
        Finding::BadSum { unit, kept, found } => push_sums(text, out, *unit, *kept, *found),
        Finding::Leaked { unit } => push_unit(text, out, "Leaked unit=", *unit),
        Finding::Unmarked { unit } => push_unit(text, out, "Unmarked unit=", *unit),
        Finding::Doubled { unit } => push_unit(text, out, "Doubled unit=", *unit),
        Finding::WrongCount {
            unit,
            kept,
            counted,
        } => push_counts(text, out, *unit, *kept, *counted),
    }
}

/// Adds the line of a finding.
fn push_finding<K: Sink>(text: &mut Printer, out: &mut K, finding: &Finding)
    ensures { AddsText (finding_line finding.now ++ 10 ∷ []) text.old text.new
        (output (K.written out.old) (K.faults out.old)) (output (K.written out.new) (K.faults out.new)) }
{
    push_words(text, out, finding);
    text.push_str(out, "\n")
}

/// Adds the lines of findings.
pub fn push_findings<K: Sink>(text: &mut Printer, out: &mut K, found: &[Finding])
    ensures { AddsText (as_text (finding_lines found.now)) text.old text.new
        (output (K.written out.old) (K.faults out.old)) (output (K.written out.new) (K.faults out.new)) }
{
    for finding in found {
        push_finding(text, out, finding);
    }
}

/// Adds how many findings there are.
pub fn push_count<K: Sink>(text: &mut Printer, out: &mut K, count: u64)
    ensures { AddsText (as_text (count_line count ∷ [])) text.old text.new
        (output (K.written out.old) (K.faults out.old)) (output (K.written out.new) (K.faults out.new)) }
{
    text.push_str(out, "findings ");
    text.push_number(out, count);
    text.push_str(out, "\n")
}
