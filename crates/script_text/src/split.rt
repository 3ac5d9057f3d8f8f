//! Texts cut in parts: at a byte, behind a front, in words.
ghost use Rattle.std.specs.Prelude.{◌≡◌, ◌≢◌, ◌↔◌, ◌<◌, ◌++◌, ◌∷◌, [], ℕ, List, length, slice_index, MatchOption, IfSome, IfNone, IsTrue};
ghost use Rattle.script_text.specs.Grammar.{HasNo, AreWords, in_words};
ghost use Rattle.script_text.specs.Reading.{StandBefore};

/// The first byte, and those behind it.
pub fn split_first(text: &[u8]) -> Option<(u8, &[u8])>
    ensures { MatchOption result (text.now ≡ []) (λ x. (x.0 < 256) × (text.now ≡ x.0 ∷ x.1.now)) }
{
    match text {
        [first, rest @ ..] => Some((*first, rest)),
        [] => None,
    }
}

/// What stands behind this front.
pub fn split_front<'a>(text: &'a [u8], front: &[u8]) -> Option<&'a [u8]>
    ensures { MatchOption result ((rest : List ℕ) → text.now ≢ front.now ++ rest) (λ rest. text.now ≡ front.now ++ rest.now) }
{
    text.strip_prefix(front)
}

/// Where this byte stands first.
fn place_of(text: &[u8], at: u8) -> Option<usize>
    ensures none { IfNone result (HasNo at text.now) }
    ensures found { IfSome result (λ i. (i < length text.now) × (slice_index text.now i ≡ at)) }
    ensures before { IfSome result (λ i. (k : ℕ) → k < i → slice_index text.now k ≢ at) }
{
    text.iter().position(|byte| *byte == at)
}

/// What stands before the first such byte, and what behind it.
pub fn split_once(text: &[u8], at: u8) -> Option<(&[u8], &[u8])>
    ensures { MatchOption result (HasNo at text.now) (λ x. HasNo at x.0.now × (text.now ≡ x.0.now ++ (at ∷ x.1.now))) }
{
    let Some(place) = place_of(text, at) else {
        return None;
    };
    Some((&text[..place], &text[place + 1..]))
}

/// Whether a text is this one.
pub fn is_text(text: &[u8], other: &[u8]) -> bool
    ensures { IsTrue result ↔ (text.now ≡ other.now) }
{
    text == other
}

/// Whether a text is one word.
fn is_word(text: &[u8]) -> bool
    ensures { IsTrue result ↔ HasNo 0x20 text.now }
{
    split_once(text, b' ').is_none()
}

/// The words of a text of two.
pub fn two_words(text: &[u8]) -> Option<(&[u8], &[u8])>
    ensures { MatchOption result ((a b : List ℕ) → AreWords (a ∷ b ∷ []) → text.now ≢ in_words (a ∷ b ∷ []))
        (λ x. AreWords (x.0.now ∷ x.1.now ∷ []) × (text.now ≡ in_words (x.0.now ∷ x.1.now ∷ []))) }
{
    let Some((first, rest)) = split_once(text, b' ') else {
        return None;
    };
    if !is_word(rest) {
        return None;
    }
    Some((first, rest))
}

/// The words of a text of three.
pub fn three_words(text: &[u8]) -> Option<(&[u8], &[u8], &[u8])>
    ensures { MatchOption result ((a b c : List ℕ) → AreWords (a ∷ b ∷ c ∷ []) → text.now ≢ in_words (a ∷ b ∷ c ∷ []))
        (λ x. AreWords (x.0.now ∷ x.1.now ∷ x.2.now ∷ []) × (text.now ≡ in_words (x.0.now ∷ x.1.now ∷ x.2.now ∷ []))) }
{
    let Some((first, rest)) = split_once(text, b' ') else {
        return None;
    };
    let Some((second, third)) = two_words(rest) else {
        return None;
    };
    Some((first, second, third))
}

/// The words of a text of four.
pub fn four_words(text: &[u8]) -> Option<(&[u8], &[u8], &[u8], &[u8])>
    ensures { MatchOption result ((a b c d : List ℕ) → AreWords (a ∷ b ∷ c ∷ d ∷ []) → text.now ≢ in_words (a ∷ b ∷ c ∷ d ∷ []))
        (λ x. AreWords (x.0.now ∷ x.1.now ∷ x.2.now ∷ x.3.now ∷ []) × (text.now ≡ in_words (x.0.now ∷ x.1.now ∷ x.2.now ∷ x.3.now ∷ []))) }
{
    let Some((first, rest)) = split_once(text, b' ') else {
        return None;
    };
    let Some((second, third, fourth)) = three_words(rest) else {
        return None;
    };
    Some((first, second, third, fourth))
}

/// The first two words of a text, and what stands behind them.
pub fn words_before(text: &[u8]) -> Option<(&[u8], &[u8], &[u8])>
    ensures { MatchOption result ((a b rest : List ℕ) → ¬ (StandBefore text.now a b rest)) (λ x. StandBefore text.now x.0.now x.1.now x.2.now) }
{
    let Some((first, rest)) = split_once(text, b' ') else {
        return None;
    };
    let Some((second, rest)) = split_once(rest, b' ') else {
        return None;
    };
    Some((first, second, rest))
}
