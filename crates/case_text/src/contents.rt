//! What a device holds, byte by byte: slots and records are spelled here from their formats, apart from the code by which the
//! store writes them.

use crate::CaseError;
use crate::spelling::Spelling;
use crate::words::{Words, byte, push_digits, small};
use crc32c_csum::{Digest, crc32c};
use std::alloc::Global;

/// How a line changes what a device holds.
#[derive(Clone, Copy)]
pub enum Change {
    /// `bytes NAME AT DIGITS`: lays bytes from a place on.
    Bytes,
    /// `fill NAME AT COUNT BYTE`: lays so many bytes of one value.
    Fill,
    /// `turn NAME AT DIGITS`: the exclusive-or with bytes.
    Turn,
    /// `slot NAME UNIT HALF UNITS EPOCH FIRST`: a slot over unit 0 or 1; FIRST is the number of the first record.
    Slot,
    /// `record NAME UNIT NUMBER OPERATION ..`: a record from a unit on.
    Record,
}

impl Change {
    /// The place of bytes in a device, by the number in the line.
    pub fn place(self, number: u64) -> usize {
        match self {
            Change::Bytes | Change::Fill | Change::Turn => number as usize,
            Change::Slot | Change::Record => number.saturating_mul(4096) as usize,
        }
    }

    /// Changes contents by bytes that are laid from a place on.
    pub fn make(self, contents: &mut [u8], at: usize, bytes: &[u8]) -> Result<(), CaseError> {
        let end = at.saturating_add(bytes.len());
        match contents.get_mut(at..end) {
            Some(place) => lay(place, bytes, matches!(self, Change::Turn)),
            None => return Err(CaseError::Line("outside the device")),
        }
        Ok(())
    }

    /// Spells the bytes of a line, by what stands behind their place.
    pub fn spell(self, alloc: Global, words: Words<'_>) -> Result<Vec<u8>, CaseError> {
        let mut out = Spelling::new(alloc);
        match self {
            Change::Bytes | Change::Turn => push_digits(&mut out, words.text()),
            Change::Fill => push_filled(&mut out, words),
            Change::Slot => {
                let says = out.read_or(words.numbers(), [0; 4]);
                push_slot(&mut out, says);
            }
            Change::Record => push_record(alloc, &mut out, words),
        }
        out.finish()
    }
}

/// Lays bytes over others, or turns those by them.
fn lay(place: &mut [u8], bytes: &[u8], turns: bool) {
    for (old, new) in place.iter_mut().zip(bytes) {
        *old = if turns { *old ^ *new } else { *new };
    }
}

/// Adds so many bytes of one value.
fn push_filled(out: &mut Spelling, mut words: Words<'_>) {
    let count = out.read_or(words.number(), 0);
    let value = out.read_or(words.last().and_then(byte), 0);
    out.resize(count, value);
}

/// Adds a superblock slot, one unit: half, units, epoch, and the number of the first record. It is of version 1, and writes of fewer than
/// 32768 bytes are deferred.
pub fn push_slot(out: &mut Spelling, [half, units, epoch, first]: [u64; 4]) {
    out.push(b"BSTORE01");
    out.number(1, 4);
    out.number(units, 4);
    out.number(half, 4);
    out.number(32768, 4);
    out.number(epoch, 8);
    out.number(first, 8);
    out.fill_up(4);
    let sum = crc32c(out.as_slice());
    out.number(u64::from(sum), 4);
}

/// Adds bytes in digits of base 16, their number of so many bytes in front.
fn push_counted(out: &mut Spelling, digits: &str, width: usize) {
    out.number(digits.len() as u64 / 2, width);
    push_digits(out, digits);
}

/// Adds the operation that sets a row: `KEY:VALUE` in digits of base 16.
fn push_set(out: &mut Spelling, pair: &str) {
    let (key, value) = pair.split_once(':').unwrap_or((pair, ""));
    out.number(1, 1);
    push_counted(out, key, 2);
    push_counted(out, value, 4);
}

/// Adds the operation that turns the bit of a unit in its row of the bitmap.
fn push_turned(out: &mut Spelling, unit: u32) {
    let [a, b, c, d] = (unit / 128).to_be_bytes();
    let mut mask = [0u8; 16];
    mask[(unit % 128 / 8) as usize] = 1 << (unit % 8);
    out.push(&[3, 5, 0, b'b', a, b, c, d]);
    out.number(16, 4);
    out.push(&mask);
}

/// Adds an operation in words: `set:KEY:VALUE` in digits of base 16, and `turn:UNIT` for the bit of a unit in the bitmap.
fn push_op(out: &mut Spelling, word: &str) {
    let (what, on) = word.split_once(':').unwrap_or((word, ""));
    if what == "set" {
        push_set(out, on);
    } else if what == "turn" {
        let unit = out.read_or(small(on), 0);
        push_turned(out, unit);
    } else {
        out.fail(CaseError::Line("no such operation"));
    }
}

/// Adds all operations, and tells how many they are.
fn push_ops(out: &mut Spelling, words: &str) -> u64 {
    let mut count = 0u64;
    for word in words.split_terminator(' ') {
        push_op(out, word);
        count = count.wrapping_add(1);
    }
    count
}

/// The checksum of a record: of what stands before it, and of the body.
fn sum_of(head: &[u8], body: &[u8]) -> u32 {
    let mut digest = Digest::new();
    digest.update(head);
    digest.update(body);
    digest.finish()
}

/// Adds a record of so many operations, which are the body; whole units.
fn push_framed(out: &mut Spelling, own: u64, count: u64, body: &Spelling) {
    out.push(b"BREC");
    out.number(body.as_slice().len() as u64, 4);
    out.number(own, 8);
    out.number(count, 4);
    let sum = sum_of(out.as_slice(), body.as_slice());
    out.number(u64::from(sum), 4);
    out.append(body);
    out.fill_up(0);
}

/// Adds the record of a number and operations.
fn push_record(alloc: Global, out: &mut Spelling, mut words: Words<'_>) {
    let own = out.read_or(words.number(), 0);
    let mut ops = Spelling::new(alloc);
    let count = push_ops(&mut ops, words.text());
    push_framed(out, own, count, &ops);
}
