//! The texts of `mkfs`, and the last line of a run that stopped.
ghost use Rattle.std.specs.Prelude.{◌≡◌, ◌+◌, ◌*◌, ◌≤◌, ◌∷◌, []};
ghost use Rattle.run_texts.specs.Printed.{output};
ghost use Rattle.run_texts.specs.Printing.{AddsText};
ghost use Rattle.run_texts.specs.Texts.{as_text, made_line, too_small_line, stopped_line};
ghost use Rattle.run_texts.specs.declared.status.Stop.TheVariants.{Refused};

use crate::Stop;
use crate::printer::Printer;
use end_points::Sink;

/// Adds what a run prints that has made a store.
pub fn push_made<K: Sink>(text: &mut Printer, out: &mut K, half: u32, units: u32)
    requires half { half ≤ 65536 }
    requires room { 2 * half + 3 ≤ units }
    ensures { AddsText (as_text (made_line half units ∷ [])) text.old text.new
        (output (K.written out.old) (K.faults out.old)) (output (K.written out.new) (K.faults out.new)) }
{
    text.push_str(out, "mkfs units=");
    text.push_number(out, units as u64);
    text.push_str(out, " half=");
    text.push_number(out, half as u64);
    text.push_str(out, " data=");
    text.push_number(out, (units - 2 * half - 2) as u64);
    text.push_str(out, "\n")
}

/// Adds what a run prints where the device has too few units.
pub fn push_too_small<K: Sink>(text: &mut Printer, out: &mut K, half: u32, units: u32)
    requires { half ≤ 65536 }
    ensures { AddsText (as_text (too_small_line half units ∷ stopped_line Refused ∷ [])) text.old text.new
        (output (K.written out.old) (K.faults out.old)) (output (K.written out.new) (K.faults out.new)) }
{
    text.push_str(out, "mkfs TooSmall units=");
    text.push_number(out, units as u64);
    text.push_str(out, " need=");
    text.push_number(out, (2 * half + 3) as u64);
    text.push_str(out, "\n");
    push_stopped(text, out, Stop::Refused)
}

/// The last line of a run that stopped.
fn stopped_text(stop: Stop) -> &'static str
    ensures { result.now ≡ as_text (stopped_line stop ∷ []) }
{
    match stop {
        Stop::BadScript => "stopped 2\n",
        Stop::DeviceFault => "stopped 3\n",
        Stop::Refused => "stopped 4\n",
        Stop::OutOfMemory => "stopped 5\n",
        Stop::BayFault => "stopped 7\n",
    }
}

/// Adds the last line of a run that stopped.
pub fn push_stopped<K: Sink>(text: &mut Printer, out: &mut K, stop: Stop)
    ensures { AddsText (as_text (stopped_line stop ∷ [])) text.old text.new
        (output (K.written out.old) (K.faults out.old)) (output (K.written out.new) (K.faults out.new)) }
{
    text.push_str(out, stopped_text(stop))
}
