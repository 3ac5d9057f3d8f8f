//! What the spellings come to: a value that was written is the only one that is read.

ghost use Rattle.std.specs.Prelude.{◌≡◌, ℕ, List};
ghost use Rattle.unit_fields.specs.declared.width.Width.{Width};
ghost use Rattle.row_format.specs.Prelude.{Extent};
ghost use Rattle.onode_codec.specs.Reading.{SpellsOnode, SpellExtents};

/// Bytes are the spelling of at most one onode.
pub fn one_onode_for_a_spelling()
    ensures { (bytes : List ℕ) (size other : ℕ) → SpellsOnode bytes size → SpellsOnode bytes other → size ≡ other }
{}

/// Bytes are the spelling of at most one list of extents, for checksums of one width.
pub fn one_list_of_extents_for_a_spelling()
    ensures { (w : Width) (bytes : List ℕ) (es fs : List Extent) → SpellExtents w bytes es → SpellExtents w bytes fs → es ≡ fs }
{}
