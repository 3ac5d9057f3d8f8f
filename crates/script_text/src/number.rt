//! Numbers as they are spelled.
ghost use Rattle.std.specs.Prelude.{ℕ, ◌↔◌, IsTrue, MatchOption};
ghost use Rattle.script_text.specs.Grammar.{IsNumber};
ghost use Rattle.script_text.specs.Reading.{IsPlainNumber};

/// Whether the first digit is as in a printed number: no sign, and no zero before others.
fn is_plain_number(word: &[u8]) -> bool
    ensures { IsTrue result ↔ IsPlainNumber word.now }
{
    matches!(word, b"0" | [b'1'..=b'9', ..])
}

/// The number that a word spells: decimal, without a sign or a leading zero.
pub fn read_number(word: &[u8]) -> Option<u64>
    ensures { MatchOption result ((n : ℕ) → ¬ (IsNumber word.now n)) (IsNumber word.now) }
{
    if !is_plain_number(word) {
        return None;
    }
    let text = std::str::from_utf8(word).ok()?;
    text.parse::<u64>().ok()
}
