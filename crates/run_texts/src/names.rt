//! Names as scripts spell them.
ghost use Rattle.script_text.specs.Prelude.{escaped};
ghost use Rattle.run_texts.specs.Printed.{output};
ghost use Rattle.run_texts.specs.Printing.{AddsText};

use crate::printer::Printer;
use end_points::Sink;
use script_text::spell_byte;

/// Adds a name, spelled as scripts spell it.
pub fn push_name<K: Sink>(text: &mut Printer, out: &mut K, name: &[u8])
    ensures { AddsText (escaped name.now) text.old text.new
        (output (K.written out.old) (K.faults out.old)) (output (K.written out.new) (K.faults out.new)) }
{
    for byte in name {
        text.push(out, spell_byte(*byte).as_slice());
    }
}
