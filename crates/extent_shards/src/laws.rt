//! What splits come to. Each function has laws for its contract and does nothing.
ghost use Rattle.std.specs.Prelude.{◌≡◌, ◌++◌, ◌∷◌, [], None, Some, Option, ℕ, List};
ghost use Rattle.std.specs.List.{flat_map, AllByRecursion};
ghost use Rattle.std.specs.FinMap as map;
ghost use Rattle.unit_fields.specs.declared.width.Width.{Width};
ghost use Rattle.row_format.specs.Prelude.{Extent, BeginsAt};
ghost use Rattle.blob_map.specs.Prelude.{PageMap, extent_pages, with_pages, extents_of};
ghost use Rattle.extent_shards.specs.Shards.{shards_of, first_of, shard_at, IsBounded, joined_extents, joined_map};

/// Whatever the bound, the shards of a map, joined, have its extents in their order, and make this map. To join one more is to put its pages.
pub fn a_split_is_joined()
    ensures extents { (w : Width) (bound : Option ℕ) (es : List Extent) → joined_extents (shards_of w bound es) ≡ es }
    ensures pages { (w : Width) (bound : Option ℕ) (pages : PageMap) → joined_map (shards_of w bound (extents_of (map.entries pages))) ≡ pages }
    ensures more { (shards : List (List Extent)) (shard : List Extent)
        → joined_map (shards ++ shard ∷ []) ≡ with_pages (joined_map shards) (flat_map extent_pages shard) }
{}

/// The shards of a map begin at pages of their own: each is the one that begins at its first page, and has an extent there.
pub fn a_split_rises()
    ensures { (w : Width) (bound : Option ℕ) (pages : PageMap)
        → AllByRecursion (λ shard. BeginsAt (first_of shard) shard
        × (shard_at (shards_of w bound (extents_of (map.entries pages))) (first_of shard) ≡ Some shard))
        (shards_of w bound (extents_of (map.entries pages))) }
{}

/// Each shard's bytes are within the bound, or the shard has one extent alone.
pub fn a_split_is_bounded()
    ensures { (w : Width) (bound : Option ℕ) (es : List Extent) → AllByRecursion (IsBounded w bound) (shards_of w bound es) }
{}

/// Without a bound all extents are in one shard.
pub fn a_split_without_bound()
    ensures { (w : Width) (e : Extent) (es : List Extent) → shards_of w None (e ∷ es) ≡ (e ∷ es) ∷ [] }
{}
