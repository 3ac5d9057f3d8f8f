//! What the definitions of rows by their collections come to. Each function does nothing: its contract is the law.
ghost use Rattle.std.specs.Prelude.{◌≡◌, ◌↔◌, ◌⊎◌, ℕ, ◌<◌, ◌^◌, List, Contains};
ghost use Rattle.std.specs.List.{AllByRecursion};
ghost use Rattle.unit_fields.specs.Prelude.{IsCollName};
ghost use Rattle.unit_fields.specs.declared.width.Width.{Width};
ghost use Rattle.meta_rows.specs.Prelude.{Rows, rows_after};
ghost use Rattle.meta_rows.specs.declared.row_op.RowOp.{RowOp};
ghost use Rattle.meta_log.specs.declared.slot.Super.{Super};
ghost use Rattle.meta_log.specs.Prelude.{width_of};
ghost use Rattle.store_image.specs.Prelude.{IsMarked, NoBadRow};
ghost use Rattle.bitmap_freelist.specs.Bitmap.{AreBitmapRows, ExactlyOne};
ghost use Rattle.plan_rows.specs.declared.plan.Plan.{Plan};
ghost use Rattle.plan_rows.specs.Names.{AreAtHome, AgreeOn, AgreeOnBlobs, AreOf, HaveNoneInCommon};
ghost use Rattle.plan_rows.specs.Keeps.{IsGood, PlanKeeps};

/// Where no row is bad, each blob that shards name has a home.
pub fn each_blob_has_a_home()
    ensures { (s : Super) (rows : Rows) → NoBadRow s rows → (home : ℕ → List ℕ) × AreAtHome (width_of s) home rows }
{}

/// Operations on rows of some collections and of the blobs at home there leave those of others and the blobs that operations on those change, and
/// change places with such operations. The rows of the bitmap stay rows of it, and exactly the bits of the units that are taken and of those that
/// are released are turned.
pub fn collections_are_apart()
    ensures kept { (w : Width) (home : ℕ → List ℕ) (names others : List (List ℕ)) (taken released : List ℕ) (rows : Rows) (ops : List RowOp)
        → AreAtHome w home rows → AreOf home names taken released ops → AllByRecursion IsCollName others → HaveNoneInCommon names others
        → AgreeOn w others (rows_after rows ops) rows }
    ensures blobs { (home : ℕ → List ℕ) (names others : List (List ℕ)) (taken released other_taken other_released : List ℕ) (rows : Rows)
        (ops more : List RowOp) → AreOf home names taken released ops → AreOf home others other_taken other_released more
        → HaveNoneInCommon names others → AgreeOnBlobs more (rows_after rows ops) rows }
    ensures order { (home : ℕ → List ℕ) (names others : List (List ℕ)) (taken released other_taken other_released : List ℕ) (rows : Rows)
        (ops more : List RowOp) → AreOf home names taken released ops → AreOf home others other_taken other_released more
        → HaveNoneInCommon names others → AreBitmapRows rows
        → rows_after (rows_after rows ops) more ≡ rows_after (rows_after rows more) ops }
    ensures table { (home : ℕ → List ℕ) (names : List (List ℕ)) (taken released : List ℕ) (rows : Rows) (ops : List RowOp)
        → AreOf home names taken released ops → AreBitmapRows rows → AreBitmapRows (rows_after rows ops) }
    ensures bits { (home : ℕ → List ℕ) (names : List (List ℕ)) (taken released : List ℕ) (rows : Rows) (ops : List RowOp)
        → AreOf home names taken released ops → (unit : ℕ) → unit < 2 ^ 32
        → IsMarked (rows_after rows ops) unit ↔ ExactlyOne (IsMarked rows unit) (Contains taken unit ⊎ Contains released unit) }
{}

/// To agree on collections is an equivalence, and a plan over rows is one over all that agree with them on its collections and on the blobs that it
/// changes.
pub fn agreement()
    ensures itself { (w : Width) (names : List (List ℕ)) (rows : Rows) → AgreeOn w names rows rows }
    ensures back { (w : Width) (names : List (List ℕ)) (rows other : Rows) → AgreeOn w names rows other → AgreeOn w names other rows }
    ensures onward { (w : Width) (names : List (List ℕ)) (rows other later : Rows) → AgreeOn w names rows other → AgreeOn w names other later
        → AgreeOn w names rows later }
    ensures plans { (s : Super) (names : List (List ℕ)) (view other : Rows) (plan : Plan) → AgreeOn (width_of s) names view other
        → AgreeOnBlobs plan.ops view other → PlanKeeps s names view plan → PlanKeeps s names other plan }
{}

/// Of a superblock rows and plans ask for the device's units and the half's alone: what holds by one holds by each of the same.
pub fn the_epoch_is_nothing_to_plans()
    ensures good { (s t : Super) → s.units ≡ t.units → s.half ≡ t.half → (rows : Rows) → IsGood s rows → IsGood t rows }
    ensures plans { (s t : Super) → s.units ≡ t.units → s.half ≡ t.half → (names : List (List ℕ)) (view : Rows) (plan : Plan)
        → PlanKeeps s names view plan → PlanKeeps t names view plan }
{}
