//! What rows say of objects. The function has laws for its contract and does nothing.
ghost use Rattle.std.specs.Prelude.{Option, ℕ, List};
ghost use Rattle.meta_log.specs.declared.slot.Super.{Super};
ghost use Rattle.meta_log.specs.Prelude.{width_of};
ghost use Rattle.meta_rows.specs.Prelude.{Rows};
ghost use Rattle.unit_fields.specs.Prelude.{IsName, IsCollName};
ghost use Rattle.store_image.specs.Prelude.{NoBadRow};
ghost use Rattle.plan_drafts.specs.Prelude.{Layout, HasLayout};

/// Where no row is bad, each object has a layout or is missing, and so all of them together.
pub fn objects_have_layouts()
    ensures one { (s : Super) (rows : Rows) (c o : List ℕ) → NoBadRow s rows → IsCollName c → IsName o
        → (x : Option Layout) × HasLayout (width_of s) rows c o x }
    ensures all { (s : Super) (rows : Rows) (c : List ℕ) → NoBadRow s rows → IsCollName c
        → (layouts : List ℕ → Option Layout) × ((o : List ℕ) → IsName o → HasLayout (width_of s) rows c o (layouts o)) }
{}
