//! What the rows of an object say together. The function has laws for its contract and does nothing.
ghost use Rattle.std.specs.Prelude.{Some, ◌≡◌, ◌≤◌, ◌^◌, ◌↔◌, ℕ, List};
ghost use Rattle.std.specs.List.{AllByRecursion};
ghost use Rattle.meta_log.specs.declared.slot.Super.{Super};
ghost use Rattle.meta_log.specs.Prelude.{width_of};
ghost use Rattle.meta_rows.specs.Prelude.{Rows};
ghost use Rattle.unit_fields.specs.Prelude.{IsName, IsCollName};
ghost use Rattle.unit_fields.specs.declared.width.Width.{Width};
ghost use Rattle.row_format.specs.Prelude.{Extent, Place, place_of, page_end, ExtentsAscend, FitsExtent};
ghost use Rattle.store_image.specs.Prelude.{HasOnode, IsPageAt, pages_of, IsOnData, NoBadRow};
ghost use Rattle.blob_map.specs.Prelude.{HasNumbers};
ghost use Rattle.unit_fields.specs.UnitSet.{Ascends};
ghost use Rattle.object_rows.specs.Shards.{AreShards, AreShardsOf, extents_in, first_pages};

/// The extents of all shards of an object, one shard's behind the other's, ascend and are good. They have the object's pages, each in its
/// place; and the shards' first pages are those that a replacement asks for.
pub fn object_by_shards()
    ensures ascend { (s : Super) (rows : Rows) (c o : List ℕ) (shards : List (ℕ × List Extent))
        → NoBadRow s rows → AreShardsOf (width_of s) rows c o shards → ExtentsAscend (extents_in shards) }
    ensures fit { (w : Width) (rows : Rows) (c o : List ℕ) (shards : List (ℕ × List Extent)) → AreShardsOf w rows c o shards
        → AllByRecursion (FitsExtent w) (extents_in shards) }
    ensures within { (s : Super) (rows : Rows) (c o : List ℕ) (shards : List (ℕ × List Extent)) (size : ℕ)
        → NoBadRow s rows → AreShardsOf (width_of s) rows c o shards → HasOnode rows c o size
        → AllByRecursion (λ e. page_end e ≤ pages_of size) (extents_in shards) }
    ensures on_data { (s : Super) (rows : Rows) (c o : List ℕ) (shards : List (ℕ × List Extent))
        → NoBadRow s rows → AreShardsOf (width_of s) rows c o shards
        → AllByRecursion (λ e. IsOnData s e.body) (extents_in shards) }
    ensures numbers { (s : Super) (rows : Rows) (c o : List ℕ) (shards : List (ℕ × List Extent)) (size : ℕ)
        → NoBadRow s rows → AreShardsOf (width_of s) rows c o shards → HasOnode rows c o size → s.units ≤ 2 ^ 32
        → AllByRecursion HasNumbers (extents_in shards) }
    ensures pages { (s : Super) (rows : Rows) (c o : List ℕ) (shards : List (ℕ × List Extent)) (page : ℕ) (place : Place)
        → NoBadRow s rows → AreShardsOf (width_of s) rows c o shards
        → (place_of (extents_in shards) page ≡ Some place) ↔ IsPageAt (width_of s) rows c o page place }
    ensures present { (s : Super) (rows : Rows) (c o : List ℕ) (shards : List (ℕ × List Extent))
        → NoBadRow s rows → AreShardsOf (width_of s) rows c o shards → IsCollName c → IsName o → AreShards rows c o (first_pages shards) }
    ensures climb { (w : Width) (rows : Rows) (c o : List ℕ) (shards : List (ℕ × List Extent)) → AreShardsOf w rows c o shards
        → Ascends (first_pages shards) }
{}
