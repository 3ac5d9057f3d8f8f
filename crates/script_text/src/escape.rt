//! Names as they are spelled.
ghost use Rattle.std.specs.Prelude.{◌≡◌, ◌≢◌, ◌↔◌, ◌++◌, ◌<◌, ℕ, List, MatchOption, MatchResult, true, IsTrue};
ghost use Rattle.std.specs.List.{AllByRecursion};
ghost use Rattle.unit_fields.specs.Prelude.{IsName};
ghost use Rattle.script_text.specs.Grammar.{EachIsByte, IsNameWord, is_plain, hex_digit_from, escape, escaped};
ghost use Rattle.script_text.specs.Reading.{Finds};
ghost use Rattle.script_text.specs.declared.fail.WordFail.TheVariants.{NotSpelled};

use crate::fail::WordFail;
use crate::hex::split_pair;
use crate::split::split_first;
use arrayvec::ArrayVec;
use std::alloc::{AllocError, Global};
use unit_fields::Name;
use unit_fields::limits::NAME_LIMIT;

/// The most bytes of a name as a word.
const WORD_LIMIT: usize = 3 * NAME_LIMIT;

/// Whether a byte of a name stands for itself.
fn is_plain_byte(byte: u8) -> bool
    ensures { result ≡ is_plain byte }
{
    matches!(byte, b'0'..=b'9' | b'A'..=b'Z' | b'a'..=b'z' | b'.' | b'_' | b'-')
}

/// The byte of a name that stands at the front of a text, and what stands behind it.
fn split_byte(text: &[u8]) -> Option<(u8, &[u8])>
    ensures { MatchOption result ((b : ℕ) (rest : List ℕ) → b < 256 → text.now ≢ escape b ++ rest)
        (λ x. (x.0 < 256) × (text.now ≡ escape x.0 ++ x.1.now)) }
{
    let Some((first, rest)) = split_first(text) else {
        return None;
    };
    if is_plain_byte(first) {
        return Some((first, rest));
    }
    if first != b'%' {
        return None;
    }
    let Some((byte, rest)) = split_pair(b'A', rest) else {
        return None;
    };
    if is_plain_byte(byte) {
        return None;
    }
    Some((byte, rest))
}

/// The bytes that a word spells.
fn unescaped(alloc: Global, word: &[u8]) -> Result<Vec<u8>, WordFail>
    ensures { MatchResult result (λ bytes. EachIsByte bytes.items × (word.now ≡ escaped bytes.items))
        (λ why. why ≡ NotSpelled → (bytes : List ℕ) → EachIsByte bytes → word.now ≢ escaped bytes) }
{
    let mut bytes = Vec::new(alloc);
    let mut rest = word;
    'bytes: while let Some((byte, behind)) = split_byte(rest) {
        bytes.push(byte)?;
        rest = behind;
    }
    if !rest.is_empty() {
        return Err(WordFail::NotSpelled);
    }
    Ok(bytes)
}

/// Whether each byte of a word stands for itself.
fn is_plain_word(word: &[u8]) -> bool
    ensures { IsTrue result ↔ AllByRecursion (λ b. is_plain b ≡ true) word.now }
{
    word.iter().all(|byte| is_plain_byte(*byte))
}

/// The name with these bytes.
fn name_of(alloc: Global, bytes: &[u8]) -> Result<Name, WordFail>
    ensures { Finds (λ name. (name ≡ bytes.now) × IsName bytes.now) result }
{
    match Name::read(alloc, bytes) {
        Ok(Some(name)) => Ok(name),
        Ok(None) => Err(WordFail::NotSpelled),
        Err(AllocError) => Err(WordFail::Memory),
    }
}

/// The name that a word spells. Where each byte stands for itself the word is the name, and isn't written out first.
pub fn read_name(alloc: Global, word: &[u8]) -> Result<Name, WordFail>
    ensures { Finds (IsNameWord word.now) result }
{
    if WORD_LIMIT < word.len() {
        return Err(WordFail::NotSpelled);
    }
    if is_plain_word(word) {
        return name_of(alloc, word);
    }
    let bytes = unescaped(alloc, word)?;
    name_of(alloc, bytes.as_slice())
}

/// A digit of sixteen, where those from ten on are capital letters.
fn capital_digit(value: u8) -> u8
    requires { value < 16 }
    ensures { result ≡ hex_digit_from 0x41 value }
{
    if value < 10 {
        b'0' + value
    } else {
        b'A' + (value - 10)
    }
}

/// A byte of a name as scripts spell it: a letter, a digit, `.`, `_` or `-` stands for itself, and every other byte is `%`
/// and two hexadecimal digits with capital letters. Names are printed so, and `read_name` reads such a word back.
pub fn spell_byte(byte: u8) -> ArrayVec<u8, 3>
    ensures { result.items ≡ escape byte }
{
    let mut spelling = ArrayVec::new();
    if is_plain_byte(byte) {
        spelling.push(byte);
    } else {
        spelling.push(b'%');
        spelling.push(capital_digit(byte / 16));
        spelling.push(capital_digit(byte % 16));
    }
    spelling
}
