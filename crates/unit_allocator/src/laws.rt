//! What the definitions of free units come to. Each function does nothing: its contract is the law.
ghost use Rattle.std.specs.Prelude.{◌≡◌, ◌≢◌, ◌↔◌, ◌⊎◌, ℕ, ◌+◌, ◌<◌, ◌≤◌, not, true, false, List, [], ◌∷◌, length, replicate, Contains};
ghost use Rattle.std.specs.List.{range_with_len};
ghost use Rattle.std.specs.FinSet as set;
ghost use Rattle.std.specs.Ordering.{nat_cmp};
ghost use Rattle.unit_fields.specs.Prelude.{Ascends};
ghost use Rattle.unit_allocator.specs.Units.{Space, free_units, is_free, is_idle, holds_of, IsWithin, taken_one, given_one, taken, held, unheld};
ghost use Rattle.unit_allocator.specs.Units.{no_idle_units, freed_from, IsLowestFree, OthersStay};

/// The free units ascend, so each is listed once.
pub fn free_units_ascend()
    ensures { (s : Space) → Ascends (free_units s) }
{}

/// A unit of the range is listed exactly where it is free.
pub fn free_is_listed()
    ensures { (s : Space) (u : ℕ) → IsWithin s u → (is_free s u ≡ true) ↔ Contains (free_units s) u }
{}

/// Only units of the range are listed.
pub fn listed_is_within()
    ensures { (s : Space) (u : ℕ) → Contains (free_units s) u → IsWithin s u }
{}

/// The first unit of the list is the lowest free one.
pub fn lowest_is_free()
    ensures { (s : Space) (u : ℕ) (rest : List ℕ) → free_units s ≡ u ∷ rest → IsLowestFree s u }
{}

/// A unit that was taken isn't free, and the others are as free as before.
pub fn taken_is_not_free()
    ensures { (s : Space) (u : ℕ) → IsWithin s u → (is_free (taken_one s u) u ≡ false) × OthersStay s (taken_one s u) u }
{}

/// A unit that nobody holds is free once it was given back, and the others are as free as before.
pub fn given_is_free()
    ensures { (s : Space) (u : ℕ) → IsWithin s u → holds_of s u ≡ 0 → (is_free (given_one s u) u ≡ true) × OthersStay s (given_one s u) u }
{}

/// A unit that is given back while somebody holds it isn't free.
pub fn given_while_held()
    ensures { (s : Space) (u : ℕ) → IsWithin s u → 0 < holds_of s u → is_free (given_one s u) u ≡ false }
{}

/// A held unit isn't free, and the others are as free as before.
pub fn held_is_not_free()
    ensures { (s : Space) (u : ℕ) → IsWithin s u → length s.holds ≡ length s.idle → (is_free (held s u) u ≡ false) × OthersStay s (held s u) u }
{}

/// A unit whose last hold ends is free exactly where it is idle, and the others are as free as before.
pub fn last_hold_ends()
    ensures { (s : Space) (u : ℕ) → IsWithin s u → length s.holds ≡ length s.idle → holds_of s u ≡ 1 →
        (is_free (unheld s u) u ≡ is_idle s u) × OthersStay s (unheld s u) u }
{}

/// The range stays: each unit of it is one of it after each change.
pub fn range_stays()
    ensures { (s : Space) (u v : ℕ) → IsWithin s v →
        IsWithin (taken_one s u) v × IsWithin (given_one s u) v × IsWithin (held s u) v × IsWithin (unheld s u) v }
{}

/// After a unit was taken those that were free are listed, but not that one.
pub fn free_after_taking()
    ensures { (s : Space) (u v : ℕ) → IsWithin s u → Contains (free_units (taken_one s u)) v ↔ (Contains (free_units s) v × (v ≢ u)) }
{}

/// After a unit that nobody holds was given back those that were free are listed, and that one.
pub fn free_after_giving()
    ensures { (s : Space) (u v : ℕ) → IsWithin s u → holds_of s u ≡ 0 →
        Contains (free_units (given_one s u)) v ↔ (Contains (free_units s) v ⊎ (v ≡ u)) }
{}

/// A free unit that is taken leaves one fewer free.
pub fn one_less_is_free()
    ensures { (s : Space) (u : ℕ) → IsWithin s u → is_free s u ≡ true → length (free_units s) ≡ length (free_units (taken_one s u)) + 1 }
{}

/// A unit that isn't free, and that nobody holds, makes one more free once it is given back.
pub fn one_more_is_free()
    ensures { (s : Space) (u : ℕ) → IsWithin s u → is_free s u ≡ false → holds_of s u ≡ 0 →
        length (free_units (given_one s u)) ≡ length (free_units s) + 1 }
{}

/// To take a list of one unit is to take that unit.
pub fn taken_of_one()
    ensures { (s : Space) (u : ℕ) → taken s (u ∷ []) ≡ taken_one s u }
{}

/// Of a new allocator's units those are free that aren't busy.
pub fn new_is_free()
    ensures { (first count : ℕ) (busy : set.FinSet nat_cmp) (u : ℕ) → first ≤ u → u < first + count →
        is_free (freed_from (no_idle_units first count) busy (range_with_len first count)) u ≡ not (set.contains busy u) }
{}

/// A new allocator's units are those from `first` on, as many as it was made for.
pub fn new_is_within()
    ensures { (first count : ℕ) (busy : set.FinSet nat_cmp) (u : ℕ) → first ≤ u → u < first + count →
        IsWithin (freed_from (no_idle_units first count) busy (range_with_len first count)) u }
{}

/// Nobody holds a unit of a new allocator.
pub fn new_is_unheld()
    ensures { (first count : ℕ) (busy : set.FinSet nat_cmp) →
        (freed_from (no_idle_units first count) busy (range_with_len first count)).holds ≡ replicate count 0 }
{}
