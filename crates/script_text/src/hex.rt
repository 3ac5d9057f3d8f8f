//! Bytes as pairs of hexadecimal digits.
ghost use Rattle.std.specs.Prelude.{◌≡◌, ◌≢◌, ◌++◌, ◌<◌, ◌≤◌, ℕ, List, MatchOption};
ghost use Rattle.script_text.specs.Grammar.{EachIsByte, hex_digit_from, hex_pair, spelled_by};
ghost use Rattle.script_text.specs.Reading.{Finds};

use crate::data::Data;
use crate::fail::WordFail;
use crate::split::split_first;
use byte_maps::Bytes;
use std::alloc::Global;

/// The value of a hexadecimal digit, where the letter for ten is `A` or `a`.
fn digit_of(ten: u8, byte: u8) -> Option<u8>
    requires { 0x41 ≤ ten }
    ensures { MatchOption result ((d : ℕ) → d < 16 → byte ≢ hex_digit_from ten d) (λ d. (d < 16) × (byte ≡ hex_digit_from ten d)) }
{
    if byte.is_ascii_digit() {
        Some(byte - b'0')
    } else if ten <= byte && byte - ten < 6 {
        Some(byte - ten + 10)
    } else {
        None
    }
}

/// The byte that two hexadecimal digits spell, at the front of a text, and what stands behind them.
pub fn split_pair(ten: u8, text: &[u8]) -> Option<(u8, &[u8])>
    requires { 0x41 ≤ ten }
    ensures { MatchOption result ((b : ℕ) (rest : List ℕ) → b < 256 → text.now ≢ hex_pair ten b ++ rest)
        (λ x. (x.0 < 256) × (text.now ≡ hex_pair ten x.0 ++ x.1.now)) }
{
    let Some((high, rest)) = split_first(text) else {
        return None;
    };
    let Some((low, rest)) = split_first(rest) else {
        return None;
    };
    let Some(high) = digit_of(ten, high) else {
        return None;
    };
    let Some(low) = digit_of(ten, low) else {
        return None;
    };
    Some((16 * high + low, rest))
}

/// The data that pairs of digits with small letters spell.
pub fn read_hex(alloc: Global, digits: &[u8]) -> Result<Data, WordFail>
    ensures { Finds (λ bytes. EachIsByte bytes × (digits.now ≡ spelled_by (hex_pair 0x61) bytes)) result }
{
    let mut bytes = Vec::with_capacity(alloc, digits.len() / 2)?;
    let mut rest = digits;
    'bytes: while let Some((byte, behind)) = split_pair(b'a', rest) {
        bytes.push(byte)?;
        rest = behind;
    }
    if !rest.is_empty() {
        return Err(WordFail::NotSpelled);
    }
    Ok(Data::hex(Bytes::from_vec(bytes)))
}
