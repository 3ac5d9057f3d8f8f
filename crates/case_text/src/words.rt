//! The words of a line, taken one after another, and the numbers and bytes that they spell.

use crate::CaseError;
use crate::spelling::Spelling;
use std::alloc::Global;

/// The words of a line that aren't taken yet, with one space between two. The word `''` is the empty one.
#[derive(Clone, Copy)]
pub struct Words<'a> {
    rest: &'a str,
}

/// The first word of a text, and what stands behind the space that ends it.
fn cut(text: &str) -> (&str, &str) {
    text.split_once(' ').unwrap_or((text, ""))
}

/// A word, where `''` is the empty one.
pub fn unquoted(word: &str) -> &str {
    if word == "''" { "" } else { word }
}

impl<'a> Words<'a> {
    /// All words of a line.
    pub fn new(line: &'a str) -> Words<'a> {
        Words { rest: line }
    }

    /// The next word.
    pub fn next(&mut self) -> Result<&'a str, CaseError> {
        if self.rest.is_empty() {
            return Err(CaseError::Line("words are missing"));
        }
        let (word, rest) = cut(self.rest);
        self.rest = rest;
        Ok(unquoted(word))
    }

    /// The last word.
    pub fn last(self) -> Result<&'a str, CaseError> {
        let (word, rest) = cut(self.rest);
        if self.rest.is_empty() {
            return Err(CaseError::Line("words are missing"));
        }
        if rest.is_empty() {
            Ok(unquoted(word))
        } else {
            Err(CaseError::Line("words are left"))
        }
    }

    /// The last two words.
    pub fn last_two(self) -> Result<(&'a str, &'a str), CaseError> {
        let (first, rest) = cut(self.rest);
        match (Words { rest }).last() {
            Ok(last) => Ok((unquoted(first), last)),
            Err(wrong) => Err(wrong),
        }
    }

    /// The words that are left, as so many numbers in decimal.
    pub fn numbers<const N: usize>(mut self) -> Result<[u64; N], CaseError> {
        let mut numbers = [0; N];
        for number in numbers.iter_mut() {
            *number = self.number()?;
        }
        match self.end() {
            Ok(()) => Ok(numbers),
            Err(wrong) => Err(wrong),
        }
    }

    /// An error, unless all words are taken.
    pub fn end(&self) -> Result<(), CaseError> {
        if self.rest.is_empty() {
            Ok(())
        } else {
            Err(CaseError::Line("words are left"))
        }
    }

    /// Whether all words are taken.
    pub fn is_empty(&self) -> bool {
        self.rest.is_empty()
    }

    /// What is left of the line, as it stands there.
    pub fn text(&self) -> &'a str {
        self.rest
    }

    /// The text that is left, between two quotation marks.
    pub fn quoted(&self) -> Result<&'a str, CaseError> {
        self.rest
            .strip_prefix('"')
            .and_then(|text| text.strip_suffix('"'))
            .ok_or(CaseError::Line("no end of the text"))
    }

    /// The words that are left.
    pub fn list(&self, alloc: Global) -> Result<Vec<&'a str>, CaseError> {
        let mut words = Vec::new(alloc);
        for word in self.rest.split_terminator(' ') {
            words.push(unquoted(word))?;
        }
        Ok(words)
    }

    /// The next word, as a number in decimal.
    pub fn number(&mut self) -> Result<u64, CaseError> {
        self.next().and_then(number)
    }

    /// The next word, as a number of 32 bits in decimal.
    pub fn small(&mut self) -> Result<u32, CaseError> {
        self.next().and_then(small)
    }

    /// The next word, as a byte of two digits of base 16.
    pub fn byte(&mut self) -> Result<u8, CaseError> {
        self.next().and_then(byte)
    }
}

/// What a table has beside a word.
pub fn look_up<K: Copy>(table: &[(&str, K)], word: &str) -> Option<K> {
    for (name, kind) in table {
        if *name == word {
            return Some(*kind);
        }
    }
    None
}

/// What a table has beside the first word of a line, and the words behind that.
pub fn kind_of<'a, K: Copy>(table: &[(&str, K)], line: &'a str) -> Option<(K, Words<'a>)> {
    let (word, rest) = cut(line);
    match look_up(table, word) {
        Some(kind) => Some((kind, Words { rest })),
        None => None,
    }
}

/// A number in decimal.
pub fn number(word: &str) -> Result<u64, CaseError> {
    word.parse::<u64>().ok().ok_or(CaseError::Line("no number"))
}

/// A number of 32 bits in decimal.
pub fn small(word: &str) -> Result<u32, CaseError> {
    word.parse::<u32>()
        .ok()
        .ok_or(CaseError::Line("no small number"))
}

/// A byte of two digits of base 16.
pub fn byte(word: &str) -> Result<u8, CaseError> {
    byte_of(word.as_bytes()).ok_or(CaseError::Line("no byte"))
}

/// The number that a digit of base 16 is.
fn digit(byte: u8) -> Option<u8> {
    match byte {
        b'0'..=b'9' => Some(byte - b'0'),
        b'a'..=b'f' => Some(byte - b'a' + 10),
        _ => None,
    }
}

/// The byte of two digits.
fn byte_of(digits: &[u8]) -> Option<u8> {
    let [high, low] = digits else {
        return None;
    };
    match (digit(*high), digit(*low)) {
        (Some(high), Some(low)) => Some(high.wrapping_mul(16) | low),
        _ => None,
    }
}

/// Adds bytes that stand as digits of base 16, two for each; `-` is none.
pub fn push_digits(out: &mut Spelling, digits: &str) {
    if digits.is_empty() {
        out.fail(CaseError::Line("words are missing"));
    }
    let digits = if digits == "-" { "" } else { digits };
    for pair in digits.as_bytes().chunks(2) {
        match byte_of(pair) {
            Some(byte) => out.push(&[byte]),
            None => out.fail(CaseError::Line("no digits of bytes")),
        }
    }
}

/// Bytes as digits of base 16, two for each; `-` is none.
pub fn read_hex(alloc: Global, word: &str) -> Result<Vec<u8>, CaseError> {
    let mut bytes = Spelling::new(alloc);
    push_digits(&mut bytes, word);
    bytes.finish()
}
