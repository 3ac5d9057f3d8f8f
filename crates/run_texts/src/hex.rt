//! Bytes as text in hexadecimal.
ghost use Rattle.std.specs.Prelude.{◌≡◌, ◌*◌, ◌<◌, ◌≤◌, length};
ghost use Rattle.run_texts.specs.Hex.{hex_digit, hex_text, hex_or_dash, hex_sum};
ghost use Rattle.run_texts.specs.Printed.{output};
ghost use Rattle.run_texts.specs.Printing.{AddsText};

use crate::printer::Printer;
use end_points::Sink;

// How many bytes are made into digits at once.
const PIECE: usize = 256;

// A digit of sixteen, lower case. It is reckoned and not looked up, so that many digits can be made at once.
fn digit(value: u8) -> u8
    requires { value < 16 }
    ensures { result ≡ hex_digit value }
{
    if value < 10 {
        0x30 + value
    } else {
        0x57 + value
    }
}

// Writes two digits for each byte over all that stood there.
fn write_digits(digits: &mut [u8], bytes: &[u8])
    requires { length digits.old ≡ 2 * length bytes.now }
    ensures { digits.new ≡ hex_text bytes.now }
{
    'bytes: for i in 0..bytes.len() {
        let byte = bytes[i];
        digits[2 * i] = digit(byte / 16);
        digits[2 * i + 1] = digit(byte % 16);
    }
}

// Adds two digits for each of at most 256 bytes. They are written into this room first, whatever stands there.
fn push_piece<K: Sink>(text: &mut Printer, out: &mut K, piece: &[u8], room: &mut [u8; 2 * PIECE])
    requires { length piece.now ≤ 256 }
    ensures { AddsText (hex_text piece.now) text.old text.new (output (K.written out.old) (K.faults out.old)) (output (K.written out.new) (K.faults out.new)) }
{
    let digits = &mut room[..2 * piece.len()];
    write_digits(digits, piece);
    text.push(out, digits);
}

/// Adds two digits for each byte, lower case.
pub fn push_hex<K: Sink>(text: &mut Printer, out: &mut K, bytes: &[u8])
    ensures { AddsText (hex_text bytes.now) text.old text.new (output (K.written out.old) (K.faults out.old)) (output (K.written out.new) (K.faults out.new)) }
{
    let mut left = bytes;
    let mut room = [0; 2 * PIECE];
    'pieces: while !left.is_empty() {
        let (piece, rest) = left.split_at(left.len().min(PIECE));
        push_piece(text, out, piece, &mut room);
        left = rest;
    }
}

/// Adds two digits for each byte, or a dash where there is none.
pub fn push_hex_or_dash<K: Sink>(text: &mut Printer, out: &mut K, bytes: &[u8])
    ensures { AddsText (hex_or_dash bytes.now) text.old text.new (output (K.written out.old) (K.faults out.old))
        (output (K.written out.new) (K.faults out.new)) }
{
    if bytes.is_empty() {
        return text.push_str(out, "-");
    }
    push_hex(text, out, bytes)
}

/// Adds a checksum of 32 bits as eight digits, the highest first.
#[tactic(auto, unfolding(crate::specs::Hex::hex_sum))]
pub fn push_hex_sum<K: Sink>(text: &mut Printer, out: &mut K, sum: u32)
    ensures { AddsText (hex_sum sum) text.old text.new (output (K.written out.old) (K.faults out.old)) (output (K.written out.new) (K.faults out.new)) }
{
    push_hex(text, out, &sum.to_be_bytes())
}
