//! What page maps and their extents come to. Each function has laws for its contract and does nothing.
ghost use Rattle.std.specs.Prelude.{Some, ◌≡◌, ◌<◌, ◌≤◌, ◌+◌, ℕ, List};
ghost use Rattle.std.specs.List.{flat_map, AllByRecursion};
ghost use Rattle.std.specs.FinMap as map;
ghost use Rattle.unit_fields.specs.declared.width.Width.{Width};
ghost use Rattle.row_format.specs.Prelude.{Place, place_of, page_count, page_end, ExtentsAscend, FitsExtent};
ghost use Rattle.blob_map.specs.Pages.{PageMap, FitsPage, StandsWithin, IsBodyWithin, extent_pages};
ghost use Rattle.blob_map.specs.Normal.{extents_of, NoneJoins};

/// The extents of a map have exactly its pages, each in its place. They have spellings where the map's numbers fit their fields, they
/// ascend, and no two neighbours could be one extent.
pub fn normal_form()
    ensures back { (ps : List (ℕ × Place)) → flat_map extent_pages (extents_of ps) ≡ ps }
    ensures places { (pages : PageMap) (page : ℕ) → place_of (extents_of (map.entries pages)) page ≡ map.get pages page }
    ensures fit { (w : Width) (ps : List (ℕ × Place)) → AllByRecursion (FitsPage w) ps → AllByRecursion (FitsExtent w) (extents_of ps) }
    ensures ascend { (pages : PageMap) → ExtentsAscend (extents_of (map.entries pages)) }
    ensures longest { (ps : List (ℕ × Place)) → NoneJoins (extents_of ps) }
{}

/// The extents of a map have spellings where its numbers fit their fields, reach no further than its pages, and stand in the range that
/// their units are in.
pub fn bounds_of_extents()
    ensures fit { (w : Width) (pages : PageMap) → ((page : ℕ) (place : Place) → map.get pages page ≡ Some place → FitsPage w (page, place))
        → AllByRecursion (FitsExtent w) (extents_of (map.entries pages)) }
    ensures pages { (pages : PageMap) (limit : ℕ) → ((page : ℕ) (place : Place) → map.get pages page ≡ Some place → page < limit)
        → AllByRecursion (λ e. page_end e ≤ limit) (extents_of (map.entries pages)) }
    ensures units { (pages : PageMap) (low high : ℕ)
        → ((page : ℕ) (place : Place) → map.get pages page ≡ Some place → StandsWithin low high place)
        → AllByRecursion (λ e. IsBodyWithin low high e.body) (extents_of (map.entries pages)) }
{}

/// Maps with the same extents are the same.
pub fn one_map_for_extents()
    ensures { (a b : PageMap) → extents_of (map.entries a) ≡ extents_of (map.entries b) → a ≡ b }
{}
