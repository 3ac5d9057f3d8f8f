//! What look-ups come to: the extents that are read from a spelling are those that it spells, and a page that is found stands there.
ghost use Rattle.std.specs.Prelude.{◌≡◌, ℕ, List};
ghost use Rattle.unit_fields.specs.declared.width.Width.{Width};
ghost use Rattle.row_format.specs.Prelude.{Extent, ExtentsAscend, place_of};
ghost use Rattle.onode_codec.specs.Reading.{SpellExtents};
ghost use Rattle.page_lookup.specs.Bytes.{extents_read};
ghost use Rattle.page_lookup.specs.Found.{place_found};

/// From the spelling of extents these are read.
pub fn spelled_is_read()
    ensures { (w : Width) (bytes : List ℕ) (es : List Extent) → SpellExtents w bytes es → extents_read w bytes ≡ es }
{}

/// Of extents that ascend, the place that is found for a page is its place.
pub fn found_is_the_place()
    ensures { (es : List Extent) (page : ℕ) → ExtentsAscend es → place_found es page ≡ place_of es page }
{}
