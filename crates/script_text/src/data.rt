//! Data as it is spelled.
ghost use Rattle.std.specs.Prelude.{◌≡◌, ℕ, List, replicate, IfOk, MatchOption};
ghost use Rattle.script_text.specs.Grammar.{IsDataWord, IsFill};
ghost use Rattle.script_text.specs.Reading.{Finds};

use crate::fail::WordFail;
use crate::hex::{read_hex, split_pair};
use crate::number::read_number;
use crate::split::{split_first, split_front};
use byte_maps::Bytes;
use std::alloc::{AllocError, Global};
use std::marker::Model;

/// The most bytes that a fill has.
const FILL_LIMIT: u64 = 2097152;

/// Bytes in memory in proportion to the word that spells them: those of a `fill` are its byte and their count.
#[derive(Drop)]
pub struct Data {
    spelled: Spelled,
}

/// How data are spelled.
#[derive(Drop)]
enum Spelled {
    Hex(Bytes),
    Fill { byte: u8, count: u64 },
}

impl Model for Data {
    ghost use Rattle.std.specs.Prelude.{ℕ, List};

    ghost Value = { List ℕ };

    ghost use Rattle.script_text.specs.Kept.{spelled_bytes};

    ghost view = { λ a. spelled_bytes a.spelled };
}

impl Data {
    /// The bytes that digits spell.
    pub fn hex(bytes: Bytes) -> Data
        ensures { result ≡ bytes }
    {
        Data {
            spelled: Spelled::Hex(bytes),
        }
    }

    /// So many times this byte.
    fn fill(byte: u8, count: u64) -> Data
        ensures { result ≡ replicate count byte }
    {
        Data {
            spelled: Spelled::Fill { byte, count },
        }
    }

    /// The bytes, written out: those of a `fill` take their memory here.
    pub fn into_bytes(self, alloc: Global) -> Result<Bytes, AllocError>
        ensures { IfOk result (λ bytes. bytes ≡ self) }
    {
        match self.spelled {
            Spelled::Hex(bytes) => Ok(bytes),
            Spelled::Fill { byte, count } => {
                let bytes = vec![in alloc; byte; count as usize]?;
                Ok(Bytes::from_vec(bytes))
            }
        }
    }
}

/// The byte and the count of a fill, `XX:NUM`.
fn read_fill(text: &[u8]) -> Option<(u8, u64)>
    ensures { MatchOption result ((byte count : ℕ) → ¬ (IsFill text.now byte count)) (λ x. IsFill text.now x.0 x.1) }
{
    let Some((byte, rest)) = split_pair(b'a', text) else {
        return None;
    };
    let Some((colon, number)) = split_first(rest) else {
        return None;
    };
    if colon != b':' {
        return None;
    }
    let Some(count) = read_number(number) else {
        return None;
    };
    if FILL_LIMIT < count {
        return None;
    }
    Some((byte, count))
}

/// The data that a word spells.
pub fn read_data(alloc: Global, word: &[u8]) -> Result<Data, WordFail>
    ensures { Finds (IsDataWord word.now) result }
{
    if let Some(digits) = split_front(word, b"hex:") {
        return read_hex(alloc, digits);
    }
    let Some(text) = split_front(word, b"fill:") else {
        return Err(WordFail::NotSpelled);
    };
    let Some((byte, count)) = read_fill(text) else {
        return Err(WordFail::NotSpelled);
    };
    Ok(Data::fill(byte, count))
}
