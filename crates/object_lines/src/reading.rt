//! The names and the bytes that words spell.

use byte_maps::{Bytes, Items};
use case_text::{CaseError, Words, byte, number};
use object_model::Pair;
use plain_reader::name_of;
use std::alloc::Global;
use unit_fields::Name;

/// The name that the next word is.
pub fn next_name(alloc: Global, words: &mut Words<'_>) -> Result<Name, CaseError> {
    name_of(alloc, words.next()?.as_bytes())
}

/// The name that the last word is.
pub fn last_name(alloc: Global, words: Words<'_>) -> Result<Name, CaseError> {
    name_of(alloc, words.last()?.as_bytes())
}

/// The names that the last two words are.
pub fn two_names(alloc: Global, words: Words<'_>) -> Result<(Name, Name), CaseError> {
    let (first, second) = words.last_two()?;
    let first = name_of(alloc, first.as_bytes())?;
    let second = name_of(alloc, second.as_bytes())?;
    Ok((first, second))
}

/// The most bytes that a word fills.
const MOST_FILLED: u64 = 1 << 24;

/// So many bytes of one value.
fn filled(alloc: Global, count: u64, value: u8) -> Result<Bytes, CaseError> {
    if count > MOST_FILLED {
        return Err(CaseError::Line("too many bytes"));
    }
    Ok(Bytes::from_vec(vec![in alloc; value; count as usize]?))
}

/// The bytes of a word: none for `-`, so many zeros for `fill:COUNT`, so many bytes of one value for `fill:COUNT:BYTE`, else the word's own.
fn bytes(alloc: Global, word: &str) -> Result<Bytes, CaseError> {
    if word == "-" {
        return Ok(Bytes::new(alloc));
    }
    match word.strip_prefix("fill:") {
        Some(text) => {
            let (count, value) = text.split_once(':').unwrap_or((text, "00"));
            filled(alloc, number(count)?, byte(value)?)
        }
        None => Bytes::from_slice(alloc, word.as_bytes()).map_err(CaseError::from),
    }
}

/// The bytes of the last word.
pub fn last_bytes(alloc: Global, words: Words<'_>) -> Result<Bytes, CaseError> {
    bytes(alloc, words.last()?)
}

fn pair(alloc: Global, key: &str, value: &str) -> Result<Pair, CaseError> {
    let key = name_of(alloc, key.as_bytes())?;
    let value = bytes(alloc, value)?;
    Ok(Pair { key, value })
}

fn push_pairs(alloc: Global, pairs: &mut Items<Pair>, words: &[&str]) -> Result<(), CaseError> {
    for two in words.chunks(2) {
        let [key, value] = two else {
            return Err(CaseError::Line("a key without a value"));
        };
        pairs.push(pair(alloc, key, value)?)?;
    }
    Ok(())
}

/// Keys and values, one behind the other.
pub fn pairs(alloc: Global, words: Words<'_>) -> Result<Items<Pair>, CaseError> {
    let words = words.list(alloc)?;
    let mut pairs = Items::new(alloc);
    push_pairs(alloc, &mut pairs, &words)?;
    Ok(pairs)
}

fn push_keys(alloc: Global, keys: &mut Items<Name>, words: &[&str]) -> Result<(), CaseError> {
    for word in words {
        keys.push(name_of(alloc, word.as_bytes())?)?;
    }
    Ok(())
}

/// The keys of all words.
pub fn keys(alloc: Global, words: Words<'_>) -> Result<Items<Name>, CaseError> {
    let words = words.list(alloc)?;
    let mut keys = Items::new(alloc);
    push_keys(alloc, &mut keys, &words)?;
    Ok(keys)
}
