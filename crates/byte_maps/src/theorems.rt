//! Laws of the definitions that contracts cite. Their bodies are empty: a caller has what they ensure.
ghost use Rattle.std.specs.Prelude.{◌≡◌, ◌<◌, ℕ, List, None, cond, not};
ghost use Rattle.std.specs.FinMap as map;
ghost use Rattle.byte_maps.specs.ByteMap.{in_range};
ghost use Rattle.byte_maps.specs.Units.{unit_at, IsUnits};

use crate::byte_map::ByteMap;

/// Maps that answer alike at each key are equal.
pub fn equal_where_alike<V>(one: &ByteMap<V>, other: &ByteMap<V>)
    ensures { ((key : List ℕ) → map.get one.now key ≡ map.get other.now key) → one.now ≡ other.now }
{}

/// Without a range a map answers nothing at the keys of the range, and at each other key as before.
pub fn answers_without_range<V>(held: &ByteMap<V>, first: &[u8], last: &[u8])
    ensures { let kept = map.retain_keys held.now (λ k. not (in_range first.now last.now k)) in
        (key : List ℕ) → map.get kept key ≡ cond (in_range first.now last.now key) None (map.get held.now key) }
{}

/// Bytes of equally many whole units are equal where each unit is.
pub fn equal_unit_by_unit(one: &[u8], other: &[u8], count: u32)
    requires ones { IsUnits count one.now }
    requires others { IsUnits count other.now }
    ensures { ((k : ℕ) → k < count → unit_at k one.now ≡ unit_at k other.now) → one.now ≡ other.now }
{}
