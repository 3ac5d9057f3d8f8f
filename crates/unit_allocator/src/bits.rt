//! Bits of words: tested, set, cleared, and the next one found.
ghost use Rattle.std.specs.Prelude.{◌≡◌, ◌≢◌, ℕ, ◌+◌, ◌-◌, ◌*◌, ◌/◌, ◌<◌, ◌^◌, true, false, length, slice_index, nat_lt, replicate, IfOk, MatchOption};
ghost use Rattle.std.specs.Int.{trailing_zeros, w64};
ghost use Rattle.unit_allocator.specs.Words.{bit, HasNoBitBetween, HasNoBitFrom, IsFirstBitFrom};

use std::alloc::{AllocError, Global};

// Words without a bit.
pub fn no_bits(alloc: Global, count: usize) -> Result<Vec<u64>, AllocError>
    ensures { IfOk result (λ v. v.items ≡ replicate count 0) }
{
    vec![in alloc; 0u64; count]
}

// Words in which the bits below a number are set, and no others.
pub fn low_bits(alloc: Global, count: usize) -> Result<Vec<u64>, AllocError>
    ensures len { IfOk result (λ v. length v.items ≡ count / 64 + 1) }
    ensures bits { IfOk result (λ v. (i : ℕ) → bit v.items i ≡ nat_lt i count) }
{
    let mut words = all_bits(alloc, count / 64 + 1)?;
    words[count / 64] = (1 << (count % 64)) - 1;
    Ok(words)
}

// Words whose bits are all set.
fn all_bits(alloc: Global, count: usize) -> Result<Vec<u64>, AllocError>
    ensures { IfOk result (λ v. v.items ≡ replicate count (2 ^ 64 - 1)) }
{
    vec![in alloc; u64::MAX; count]
}

// The bit of a number.
pub fn test(words: &[u64], i: usize) -> bool
    ensures { result ≡ bit words.now i }
{
    match words.get(i / 64) {
        Some(word) => (*word >> (i % 64)) & 1 == 1,
        None => false,
    }
}

// Sets the bit of a number.
pub fn set(words: &mut Vec<u64>, i: usize)
    requires { i < 64 * length words.old.items }
    ensures here { bit words.new.items i ≡ true }
    ensures elsewhere { (q : ℕ) → q ≢ i → bit words.new.items q ≡ bit words.old.items q }
    ensures len { length words.new.items ≡ length words.old.items }
    ensures others { (w : ℕ) → w ≢ i / 64 → slice_index words.new.items w ≡ slice_index words.old.items w }
{
    words[i / 64] |= 1 << (i % 64);
}

// Clears the bit of a number.
pub fn clear(words: &mut Vec<u64>, i: usize)
    requires { i < 64 * length words.old.items }
    ensures here { bit words.new.items i ≡ false }
    ensures elsewhere { (q : ℕ) → q ≢ i → bit words.new.items q ≡ bit words.old.items q }
    ensures len { length words.new.items ≡ length words.old.items }
    ensures others { (w : ℕ) → w ≢ i / 64 → slice_index words.new.items w ≡ slice_index words.old.items w }
{
    words[i / 64] &= !(1 << (i % 64));
}

// The place of the lowest bit of a word that is set.
pub fn lowest_bit(word: u64) -> usize
    requires { 0 < word }
    ensures { result ≡ trailing_zeros w64 word }
{
    word.trailing_zeros() as usize
}

// The first bit that is set from a number on, as far as that number's word goes.
pub fn next_in_word(words: &[u64], from: usize) -> Option<usize>
    requires within { from < 64 * length words.now }
    requires few { length words.now < 2 ^ 32 }
    ensures { MatchOption result (HasNoBitBetween words.now from (64 * (from / 64 + 1))) (IsFirstBitFrom words.now from) }
{
    let rest = words[from / 64] >> (from % 64);
    if rest == 0 {
        return None;
    }
    Some(from + lowest_bit(rest))
}

// The first bit that is set from a word on.
fn next_in_words(words: &[u64], first: usize) -> Option<usize>
    requires { length words.now < 2 ^ 32 }
    ensures { MatchOption result (HasNoBitFrom words.now (64 * first)) (IsFirstBitFrom words.now (64 * first)) }
{
    for w in first..words.len() {
        let word = words[w];
        if word != 0 {
            return Some(64 * w + lowest_bit(word));
        }
    }
    None
}

// The first bit that is set from a number on.
pub fn next(words: &[u64], from: usize) -> Option<usize>
    requires { length words.now < 2 ^ 32 }
    ensures { MatchOption result (HasNoBitFrom words.now from) (IsFirstBitFrom words.now from) }
{
    if from / 64 >= words.len() {
        return None;
    }
    match next_in_word(words, from) {
        Some(at) => Some(at),
        None => next_in_words(words, from / 64 + 1),
    }
}
