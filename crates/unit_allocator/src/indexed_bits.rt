//! Bits of words with a summary above them, so that the next one is found without a look at each word.
ghost use Rattle.std.specs.Prelude.{◌≡◌, ◌≢◌, ℕ, ◌*◌, ◌<◌, ◌^◌, true, false, length, IfOk, IsTrue, MatchOption};
ghost use Rattle.unit_allocator.specs.Words.{bit, HasNoBitFrom, IsFirstBitFrom, IsSummary};

use crate::bits::{clear, lowest_bit, next, next_in_word, no_bits, set, test};
use std::alloc::{AllocError, Global};
use std::marker::Model;

/// Bits, seen as the list of their words of 64. Above them is a bit for each word that isn't zero: a search looks at the rest of one
/// word, and then at one word for each 4096 bits.
#[derive(Drop)]
pub struct IndexedBits {
    words: Vec<u64>,
    summary: Vec<u64>,
}

impl Model for IndexedBits {
    ghost use Rattle.std.specs.Prelude.{List, ℕ};
    ghost use Rattle.unit_allocator.specs.Words.{IsSummary};

    ghost Value = { List ℕ };

    ghost view = { λ a. a.words.items };

    ghost invariant = { λ a. IsSummary a.words.items a.summary.items };
}

// A bit for each word that isn't zero.
fn summary_of(alloc: Global, words: &[u64]) -> Result<Vec<u64>, AllocError>
    requires { length words.now < 2 ^ 32 }
    ensures { IfOk result (λ summary. IsSummary words.now summary.items) }
{
    let mut summary = no_bits(alloc, words.len() / 64 + 1)?;
    for w in 0..words.len() {
        if words[w] != 0 {
            set(&mut summary, w);
        }
    }
    Ok(summary)
}

impl IndexedBits {
    /// The bits of these words.
    pub fn new(alloc: Global, words: Vec<u64>) -> Result<IndexedBits, AllocError>
        requires { length words.items < 2 ^ 32 }
        ensures { IfOk result (λ bits. bits ≡ words.items) }
    {
        let summary = summary_of(alloc, &words)?;
        Ok(IndexedBits { words, summary })
    }

    /// The bit of a number.
    pub fn test(&self, i: usize) -> bool
        ensures { result ≡ bit self.now i }
    {
        test(&self.words, i)
    }

    /// Sets the bit of a number.
    pub fn set(&mut self, i: usize)
        requires { i < 64 * length self.old }
        ensures here { bit self.new i ≡ true }
        ensures elsewhere { (q : ℕ) → q ≢ i → bit self.new q ≡ bit self.old q }
        ensures len { length self.new ≡ length self.old }
    {
        set(&mut self.words, i);
        set(&mut self.summary, i / 64);
    }

    /// Clears the bit of a number, which is set.
    pub fn clear(&mut self, i: usize)
        requires within { i < 64 * length self.old }
        requires set { IsTrue (bit self.old i) }
        ensures here { bit self.new i ≡ false }
        ensures elsewhere { (q : ℕ) → q ≢ i → bit self.new q ≡ bit self.old q }
        ensures len { length self.new ≡ length self.old }
    {
        clear(&mut self.words, i);
        if self.words[i / 64] == 0 {
            clear(&mut self.summary, i / 64);
        }
    }

    // The first bit that is set from a word on.
    fn next_from_word(&self, first: usize) -> Option<usize>
        ensures { MatchOption result (HasNoBitFrom self.now (64 * first)) (IsFirstBitFrom self.now (64 * first)) }
    {
        let w = next(&self.summary, first)?;
        Some(64 * w + lowest_bit(self.words[w]))
    }

    /// The first bit that is set from a number on.
    pub fn next(&self, from: usize) -> Option<usize>
        ensures { MatchOption result (HasNoBitFrom self.now from) (IsFirstBitFrom self.now from) }
    {
        if from / 64 >= self.words.len() {
            return None;
        }
        match next_in_word(&self.words, from) {
            Some(at) => Some(at),
            None => self.next_from_word(from / 64 + 1),
        }
    }
}
