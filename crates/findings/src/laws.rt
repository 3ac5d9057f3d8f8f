//! What the definitions come to.
ghost use Rattle.std.specs.Prelude.{◌≡◌, ◌⊎◌, ◌≤◌, ℕ, List, [], ◌∷◌, Some};
ghost use Rattle.std.specs.FinMap as map;
ghost use Rattle.std.specs.declared.cmp.Ordering.TheVariants.{Less};
ghost use Rattle.byte_maps.specs.ByteMap.{byte_order};
ghost use Rattle.object_model.specs.Prelude.{Objects};
ghost use Rattle.ordered_lists.specs.Lists.{IsIn};
ghost use Rattle.meta_rows.specs.Prelude.{Rows};
ghost use Rattle.meta_log.specs.declared.slot.Super.{Super};
ghost use Rattle.meta_log.specs.Prelude.{width_of};
ghost use Rattle.store_image.specs.Prelude.{PageUnit, IsPageOn, IsGoodRow, NoBadRow, IsBadRow, IsExact, IsLeastInexact, ObjectsStand};
ghost use Rattle.findings.specs.Findings.{AreFindings, GivesKept, UnitLists, IsTold, AreWrongUnits};
ghost use Rattle.findings.specs.declared.finding.Finding.{Finding};
ghost use Rattle.findings.specs.declared.finding.Finding.TheVariants.{BadRow};

/// Where each unit holds one thing, there is one list of findings at most.
pub fn one_list_of_findings()
    ensures { (s : Super) (at : ℕ → List ℕ) (rows : Rows) (a b : List Finding) →
        AreFindings s (λ unit bytes. bytes ≡ at unit) rows a → AreFindings s (λ unit bytes. bytes ≡ at unit) rows b → a ≡ b }
{}

/// Of a good store that stands for some objects and whose bitmap is exact nothing is found.
pub fn a_good_store_has_no_finding()
    ensures { (s : Super) (at : ℕ → List ℕ) (rows : Rows) (objects : Objects) (found : List Finding) → NoBadRow s rows →
        ObjectsStand (width_of s) at rows objects → IsExact (width_of s) rows →
        AreFindings s (λ unit bytes. bytes ≡ at unit) rows found → found ≡ [] }
{}

/// What a mount refuses a store for is among the findings: the least bad row is the first of them, and where no row is bad the least unit without
/// one owner and a mark, or with a wrong count, is the least one that is told so.
pub fn findings_tell_what_a_mount_tells()
    ensures row { (s : Super) (at : ℕ → List ℕ) (rows : Rows) (key : List ℕ) (found : List Finding) → IsBadRow s rows key →
        ((k value : List ℕ) → byte_order k key ≡ Less → map.get rows k ≡ Some value → IsGoodRow s rows k value) →
        AreFindings s (λ unit bytes. bytes ≡ at unit) rows found → (rest : List Finding) × (found ≡ BadRow key ∷ rest) }
    ensures unit { (s : Super) (rows : Rows) (unit : ℕ) (units : UnitLists) → AreWrongUnits (width_of s) rows units →
        IsLeastInexact (width_of s) rows unit → IsTold units unit }
    ensures least { (s : Super) (rows : Rows) (unit : ℕ) (units : UnitLists) → AreWrongUnits (width_of s) rows units →
        IsLeastInexact (width_of s) rows unit → (other : ℕ) → IsTold units other → unit ≤ other }
{}

/// Where nothing is found, no row is bad, the bitmap is exact, and each page that stands on a unit is good.
pub fn what_no_finding_tells()
    ensures rows { (s : Super) (at : ℕ → List ℕ) (rows : Rows) → AreFindings s (λ unit bytes. bytes ≡ at unit) rows [] → NoBadRow s rows }
    ensures bitmap { (s : Super) (at : ℕ → List ℕ) (rows : Rows) → AreFindings s (λ unit bytes. bytes ≡ at unit) rows [] →
        IsExact (width_of s) rows }
    ensures pages { (s : Super) (at : ℕ → List ℕ) (rows : Rows) → AreFindings s (λ unit bytes. bytes ≡ at unit) rows [] →
        (c o : List ℕ) (page : ℕ) (on : PageUnit) → IsPageOn (width_of s) rows c o page on → GivesKept (λ unit bytes. bytes ≡ at unit) rows on }
{}
