//! What the definitions come to.

ghost use Rattle.unit_fields.specs.declared.width.Width.{Width};
ghost use Rattle.std.specs.Prelude.{◌≡◌, ◌↔◌, ℕ, List, [], length};
ghost use Rattle.byte_maps.specs.Units.{IsUnits};
ghost use Rattle.block_device.specs.Prelude.{last, IsCrashImage, History};
ghost use Rattle.block_device.specs.declared.event.Event.{Event};
ghost use Rattle.meta_rows.specs.Prelude.{Rows};
ghost use Rattle.object_model.specs.Prelude.{Objects};
ghost use Rattle.meta_log.specs.declared.slot.Super.{Super};
ghost use Rattle.meta_log.specs.Prelude.{IsActiveSlot, width_of, AreRowsOf};
ghost use Rattle.row_format.specs.Prelude.{Place};
ghost use Rattle.store_image.specs.Pages.{IsPageAt, PageUnit, StandsOn, IsPageOn, HasPage};
ghost use Rattle.store_image.specs.BadRows.{IsBadRow, NoBadRow};
ghost use Rattle.store_image.specs.Owners.{IsOwned, IsLeaked, IsExactAs, IsInexact, PageName, IsCounted, CountsAreExact};
ghost use Rattle.store_image.specs.Sharing.{BecomeSlots};
ghost use Rattle.store_image.specs.Naming.{NamesOneMore, NamesOneLess};
ghost use Rattle.store_image.specs.Exact.{IsExactImageBut, IsExactImage, IsLeakedIn, StaysExact};
ghost use Rattle.store_image.specs.Chance.{NoChanceMatch, NoTornMatch};
ghost use Rattle.store_image.specs.Durability.{IsStart, EachCutStands};
ghost use Rattle.store_image.specs.Stands.{IsSeen, AreObjectBytes, ObjectsStand, StandsFor};

/// An image stands for at most one Objects.
pub fn stands_for_one()
    ensures { (image : List ℕ) (a b : Objects) → StandsFor image a → StandsFor image b → a ≡ b }
{}

/// What rows and units stand for depends on the rows and on the units on which pages stand, and on no other unit.
pub fn only_units_with_pages_matter()
    ensures { (w : Width) (at at' : ℕ → List ℕ) (rows : Rows) (objects : Objects) →
        ((unit : ℕ) → HasPage w rows unit → at unit ≡ at' unit) → ObjectsStand w at rows objects → ObjectsStand w at' rows objects }
{}

/// Where counts are exact, units on which pages stand have owners, and the others have none.
pub fn units_with_pages_are_owned()
    ensures { (w : Width) (first rows : Rows) (unit : ℕ) → IsExactAs w first rows → HasPage w rows unit ↔ IsOwned w rows unit }
{}

/// A slot has one count.
pub fn one_count_for_a_slot()
    ensures { (w : Width) (rows : Rows) (sbid index n m : ℕ) → IsCounted w rows sbid index n → IsCounted w rows sbid index m → n ≡ m }
{}

/// Where pages that stood on units of their own become slots of a new blob, rows are as exact as before.
pub fn shared_pages_stay_exact()
    ensures { (w : Width) (first rows later : Rows) (c o : List ℕ) (from unit count sbid : ℕ)
        → BecomeSlots w rows later c o from unit count sbid → IsExactAs w first rows → IsExactAs w first later }
{}

/// Counts stay exact where one page more names a slot, whose count is one more then, and where one less does.
pub fn counts_follow_names()
    ensures more { (w : Width) (rows later : Rows) (page : PageName) (sbid index count : ℕ) → NamesOneMore w rows later page sbid index count
        → CountsAreExact w rows → CountsAreExact w later }
    ensures less { (w : Width) (rows later : Rows) (page : PageName) (sbid index count : ℕ) → NamesOneLess w rows later page sbid index count
        → CountsAreExact w rows → CountsAreExact w later }
{}

/// A place is at one unit at most.
pub fn one_unit_for_a_place()
    ensures { (w : Width) (rows : Rows) (place : Place) (a b : PageUnit) → StandsOn w rows place a → StandsOn w rows place b → a ≡ b }
{}

/// On good rows a page that has a place stands on a unit.
pub fn placed_pages_stand()
    ensures { (s : Super) (rows : Rows) → NoBadRow s rows → (c o : List ℕ) (page : ℕ) (place : Place)
        → IsPageAt (width_of s) rows c o page place → (on : PageUnit) × IsPageOn (width_of s) rows c o page on }
{}

/// What the pages of an object stand on decides its bytes.
pub fn pages_decide_bytes()
    ensures { (w : Width) (at : ℕ → List ℕ) (rows later : Rows) (c o d u bytes : List ℕ)
        → ((page : ℕ) (on : PageUnit) → IsPageOn w later d u page on ↔ IsPageOn w rows c o page on)
        → ((unit : ℕ) (b : List ℕ) → IsSeen at rows unit b → IsSeen at later unit b)
        → AreObjectBytes w at rows c o bytes → AreObjectBytes w at later d u bytes }
{}

/// Where no row is bad, a page of an object stands at one place or at none: the page map is a function.
pub fn one_place_for_a_page()
    ensures { (s : Super) (rows : Rows) → NoBadRow s rows → (c o : List ℕ) (page : ℕ) (a b : Place) →
        IsPageAt (width_of s) rows c o page a → IsPageAt (width_of s) rows c o page b → a ≡ b }
{}

/// Good rows have no bad one.
pub fn good_rows_have_no_bad_one()
    ensures { (s : Super) (rows : Rows) → NoBadRow s rows → (key : List ℕ) → ¬ IsBadRow s rows key }
{}

/// Of a crash image it is the same to ask of each record and slot, or of those with a dirty unit alone, that none is valid
/// by chance: what is clean stands as it was last written.
pub fn chance_concerns_torn_units_alone()
    ensures { (start : List ℕ) (log : List Event) (image : List ℕ) → IsCrashImage start log image →
        NoChanceMatch start log image ↔ NoTornMatch start log image }
{}

/// Rows that are exact but for what other rows had leaked are so but for what they have leaked themselves, which the others had leaked too,
/// and none of their units is inexact. It holds from one rows to the next.
pub fn exact_rows()
    ensures itself { (w : Width) (first rows : Rows) → IsExactAs w first rows → IsExactAs w rows rows }
    ensures leaks { (w : Width) (first rows : Rows) (unit : ℕ) → IsExactAs w first rows → IsLeaked w rows unit → IsLeaked w first unit }
    ensures onward { (w : Width) (first rows later : Rows) → IsExactAs w first rows → IsExactAs w rows later → IsExactAs w first later }
    ensures good { (w : Width) (first rows : Rows) → IsExactAs w first rows → (unit : ℕ) → ¬ IsInexact w rows unit }
{}

/// What stays as exact as an exact image is exact. What is leaked in it was leaked before. It stays so from one image to the next, and where
/// the rows stay.
pub fn exact_images()
    ensures exact { (before image : List ℕ) → StaysExact before image → IsExactImage before → IsExactImage image }
    ensures leaks { (before image : List ℕ) (unit : ℕ) → StaysExact before image → IsExactImageBut (IsLeakedIn before) before →
        IsLeakedIn image unit → IsLeakedIn before unit }
    ensures onward { (before image later : List ℕ) → StaysExact before image → StaysExact image later → StaysExact before later }
    ensures by_rows { (before image : List ℕ) (s : Super) (rows : Rows) → IsActiveSlot before s → AreRowsOf before s rows →
        IsActiveSlot image s → AreRowsOf image s rows → StaysExact before image }
    ensures from_rows { (before image : List ℕ) (s : Super) (first rows : Rows) → IsActiveSlot before s → AreRowsOf before s first →
        IsActiveSlot image s → AreRowsOf image s rows → IsExactAs (width_of s) first rows → StaysExact before image }
    ensures leaked { (image : List ℕ) (s : Super) (rows : Rows) (unit : ℕ) → IsActiveSlot image s → AreRowsOf image s rows →
        IsLeakedIn image unit ↔ IsLeaked (width_of s) rows unit }
{}

/// Prefix durability holds where nothing has happened since the start yet, for a book without entries.
pub fn a_start_is_durable()
    ensures { (units : ℕ) (h : History) (objects : Objects) → IsUnits units h.start → IsUnits units (last h.start h.log) →
        IsStart (length h.log) h objects → EachCutStands (length h.log) h objects (record { entries = []; commits = [] }) }
{}
