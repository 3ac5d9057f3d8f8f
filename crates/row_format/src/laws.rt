//! What the formats of rows come to.

ghost use Rattle.std.specs.Prelude.{◌≡◌, ℕ, ◌<◌, ◌^◌, List, Some};
ghost use Rattle.unit_fields.specs.Prelude.{IsName, IsCollName};
ghost use Rattle.unit_fields.specs.declared.width.Width.{Width};
ghost use Rattle.row_format.specs.Keys.{coll_key, onode_key, shard_key, attr_key, header_key, omap_key, deferred_key, shared_key, bitmap_key};
ghost use Rattle.row_format.specs.Row.{Row, row_key, row_value, FitsRow, IsOfSameThing};
ghost use Rattle.row_format.specs.Things.{a_collection, an_onode, a_shard, an_attribute, an_omap_header, an_omap_pair, a_deferred_write};
ghost use Rattle.row_format.specs.Things.{a_shared_blob, a_bitmap_row, thing_of};

/// A key of an object's or a collection's rows is read as what it was spelled for.
pub fn keys_of_objects_are_read()
    ensures collections { (c : List ℕ) → thing_of (coll_key c) ≡ Some (a_collection c) }
    ensures onodes { (c o : List ℕ) → IsCollName c → IsName o → thing_of (onode_key c o) ≡ Some (an_onode c o) }
    ensures shards { (c o : List ℕ) (page : ℕ) → IsCollName c → IsName o → page < 2 ^ 32 →
        thing_of (shard_key c o page) ≡ Some (a_shard c o page) }
    ensures attributes { (c o name : List ℕ) → IsCollName c → IsName o → thing_of (attr_key c o name) ≡ Some (an_attribute c o name) }
    ensures headers { (c o : List ℕ) → IsCollName c → IsName o → thing_of (header_key c o) ≡ Some (an_omap_header c o) }
    ensures pairs { (c o key : List ℕ) → IsCollName c → IsName o → thing_of (omap_key c o key) ≡ Some (an_omap_pair c o key) }
{}

/// A key that has a number alone is read as what it was spelled for.
pub fn keys_of_numbers_are_read()
    ensures deferred { (seq : ℕ) → seq < 2 ^ 64 → thing_of (deferred_key seq) ≡ Some (a_deferred_write seq) }
    ensures shared { (sbid : ℕ) → sbid < 2 ^ 64 → thing_of (shared_key sbid) ≡ Some (a_shared_blob sbid) }
    ensures bitmaps { (r : ℕ) → r < 2 ^ 32 → thing_of (bitmap_key r) ≡ Some (a_bitmap_row r) }
{}

/// A key and a value are the spelling of at most one row, for checksums of one width.
pub fn one_row_for_a_spelling()
    ensures { (w : Width) (a b : Row) → FitsRow w a → FitsRow w b → row_key a ≡ row_key b → row_value w a ≡ row_value w b → a ≡ b }
{}

/// Rows with the same key are of the same kind, and speak of the same collection, object and page.
pub fn different_things_have_different_keys()
    ensures { (w : Width) (a b : Row) → FitsRow w a → FitsRow w b → row_key a ≡ row_key b → IsOfSameThing a b }
{}
