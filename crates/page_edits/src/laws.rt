//! What edits make of an object's pages and of its bytes, and what planned writes come to. Each function does nothing: its contract is the law.
ghost use Rattle.std.specs.Prelude.{◌≡◌, ◌⊎◌, ◌↔◌, ℕ, ◌+◌, ◌<◌, ◌≤◌, ◌++◌, true, false, List, Some, None, length, map, Contains};
ghost use Rattle.std.specs.List.{AllByRecursion};
ghost use Rattle.std.specs.Ordering.{nat_cmp};
ghost use Rattle.std.specs.FinMap as finite;
ghost use Rattle.std.specs.FinMap.Entries.{where_key};
ghost use Rattle.object_model.specs.declared.op.Op.{Op};
ghost use Rattle.object_model.specs.Prelude.{object_limit, payload_of, payload_limit};
ghost use Rattle.row_format.specs.Prelude.{Place};
ghost use Rattle.store_image.specs.Prelude.{PageUnit, pages_of};
ghost use Rattle.plan_drafts.specs.declared.draft.Draft.{Draft};
ghost use Rattle.plan_rows.specs.declared.plan.ReadUnit.{ReadUnit};
ghost use Rattle.plan_drafts.specs.Edits.{Edit, edit_of, is_touched, pages_taking, places_read, drafted, Held, writes_of, with_writes, EndsBelow, HoldBytes, bytes_after, IsInLimits};
ghost use Rattle.plan_drafts.specs.Plans.{most_units_of};
ghost use Rattle.page_edits.specs.declared.writes.PageWrite.{PageWrite};
ghost use Rattle.page_edits.specs.Takings.{IsNumbered, IsKeptOrPut, PutsWholePages, WereRead};
ghost use Rattle.page_edits.specs.Writes.{op_at, made_by, after_writes, IsWriteBy, CanBeMade};

/// An operation takes at most so many units as are counted for it, and those of the whole of an object at most; and one with as many
/// payload bytes as a transaction may have at most 258.
pub fn an_edit_takes_few_units()
    ensures few { (op : Op) (size : ℕ) (d : Draft) → length (pages_taking (edit_of op size) d) ≤ most_units_of op }
    ensures most { (op : Op) → IsInLimits op → most_units_of op ≤ 32768 }
    ensures small { (op : Op) → payload_of op ≤ payload_limit → most_units_of op ≤ 258 }
{}

/// No page stands past the object's end, which is within the limit of an object. A page stays where it stood exactly if the edit doesn't touch
/// it; and each page that was put was so before or has one of the takings that the edit takes, each of which puts one page.
pub fn an_edit_moves_pages()
    ensures long { (op : Op) (size : ℕ) → IsInLimits op → size ≤ object_limit → (edit_of op size).size ≤ object_limit }
    ensures ends { (op : Op) (n : ℕ) (d : Draft) → IsInLimits op → d.size ≤ object_limit → EndsBelow d (pages_of d.size)
        → EndsBelow (drafted (edit_of op d.size) n d) (pages_of (edit_of op d.size).size) }
    ensures leaves { (e : Edit) (n : ℕ) (d : Draft) (page : ℕ) → is_touched e page ≡ true → finite.get (drafted e n d).kept page ≡ None }
    ensures stays { (e : Edit) (n : ℕ) (d : Draft) (page : ℕ) → is_touched e page ≡ false
        → finite.get (drafted e n d).kept page ≡ finite.get d.kept page }
    ensures left { (e : Edit) (d : Draft) (page : ℕ) (place : Place) → Contains (where_key nat_cmp (is_touched e) (finite.entries d.kept)) (page, place)
        ↔ ((finite.get d.kept page ≡ Some place) × (is_touched e page ≡ true)) }
    ensures kept { (e : Edit) (n : ℕ) (d : Draft) (page : ℕ) (place : Place) → finite.get (drafted e n d).kept page ≡ Some place
        → finite.get d.kept page ≡ Some place }
    ensures put { (e : Edit) (n : ℕ) (d : Draft) (page taking : ℕ) → finite.get (drafted e n d).puts page ≡ Some taking
        → (finite.get d.puts page ≡ Some taking) ⊎ ((n ≤ taking) × (taking < n + length (pages_taking e d))) }
    ensures numbered { (e : Edit) (n : ℕ) (d : Draft) → IsNumbered n d → IsNumbered (n + length (pages_taking e d)) (drafted e n d) }
    ensures apart { (e : Edit) (n : ℕ) (d : Draft) → IsKeptOrPut d → IsKeptOrPut (drafted e n d) }
{}

/// The object has the size that the edit says, and its pages hold its new bytes where they held the old ones and those were read that it
/// needs, whatever units places are on. What is put is whole pages, and the units of other takings are to hold what they were to hold.
pub fn an_edit_makes_bytes()
    ensures long { (op : Op) (old : List ℕ) → IsInLimits op → length old ≤ object_limit
        → length (bytes_after op old) ≡ (edit_of op (length old)).size }
    ensures bytes { (on : Place → PageUnit) (at : ℕ → List ℕ) (held : Held) (op : Op) (old : List ℕ) (read : List ReadUnit) (n : ℕ) (d : Draft)
        → IsInLimits op → length old ≤ object_limit → d.size ≡ length old → HoldBytes on at held d old → IsNumbered n d
        → WereRead at (places_read on (edit_of op d.size) d) read
        → HoldBytes on at (with_writes (writes_of on (edit_of op d.size) read held n d) held) (drafted (edit_of op d.size) n d)
        (bytes_after op old) }
    ensures whole { (on : Place → PageUnit) (e : Edit) (read : List ReadUnit) (held : Held) (n : ℕ) (d : Draft)
        → AllByRecursion (λ r. length r.bytes ≡ 4096) read → PutsWholePages held d
        → PutsWholePages (with_writes (writes_of on e read held n d) held) (drafted e n d) }
    ensures others { (on : Place → PageUnit) (e : Edit) (read : List ReadUnit) (held : Held) (n : ℕ) (d : Draft) (taking : ℕ) → taking < n
        → ((page : ℕ) → ¬ (finite.get d.puts page ≡ Some taking)) → with_writes (writes_of on e read held n d) held taking ≡ held taking }
{}

/// The writes of an operation make what its edit says the units are to hold. Writes can be made one operation after the other, and where they
/// can be made for so many takings they can for more.
pub fn writes_make_contents()
    ensures one { (on : Place → PageUnit) (ops : List Op) (at : ℕ) (op : Op) (read : List ReadUnit) (held : Held) (n : ℕ) (d : Draft)
        (writes : List PageWrite) → op_at ops at ≡ op → AllByRecursion (IsWriteBy at) writes → IsNumbered n d
        → map (made_by op read held) writes ≡ writes_of on (edit_of op d.size) read held n d
        → after_writes ops read writes held ≡ with_writes (writes_of on (edit_of op d.size) read held n d) held }
    ensures more { (ops : List Op) (read : List ReadUnit) (held : Held) (writes later : List PageWrite)
        → after_writes ops read (writes ++ later) held ≡ after_writes ops read later (after_writes ops read writes held) }
    ensures can { (ops : List Op) (takings more : ℕ) (writes : List PageWrite) → takings ≤ more
        → AllByRecursion (CanBeMade ops takings) writes → AllByRecursion (CanBeMade ops more) writes }
    ensures both { (ops : List Op) (takings : ℕ) (writes later : List PageWrite) → AllByRecursion (CanBeMade ops takings) writes
        → AllByRecursion (CanBeMade ops takings) later → AllByRecursion (CanBeMade ops takings) (writes ++ later) }
{}
