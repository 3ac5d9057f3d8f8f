//! What rows come to. Each function has laws for its contract and does nothing.
ghost use Rattle.std.specs.Prelude.{IsSome, ◌≡◌, ◌↔◌, ◌≤◌, ℕ, List, length, None, Ok, Err};
ghost use Rattle.std.specs.FinMap as map;
ghost use Rattle.meta_log.specs.declared.slot.Super.{Super};
ghost use Rattle.meta_log.specs.Prelude.{unit_count};
ghost use Rattle.meta_rows.specs.Prelude.{Rows, rows_after, ops_bytes, AllFit};
ghost use Rattle.object_model.specs.Prelude.{Objects, transaction_effect, object_under, submitted_effect};
ghost use Rattle.object_model.specs.declared.op.Refusal.TheVariants.{CollectionExists};
ghost use Rattle.row_format.specs.Prelude.{coll_key, onode_key, attr_key, header_key, omap_key, FitsNamed, FitsHeader};
ghost use Rattle.store_image.specs.Prelude.{HasKey, HasObject, IsGoodRow, NoBadRow, IsOwned, IsExact, HasSoleOwner, IsShape, ObjectsStand};
ghost use Rattle.unit_fields.specs.Prelude.{IsName, IsCollName};
ghost use Rattle.row_facts.specs.Operations.{coll_ops, coll_change};
ghost use Rattle.unit_fields.specs.declared.width.Width.{Width};

/// Making a collection leaves no bad row, and rows that stand for the objects with the collection. Nobody gets a unit or loses one, so
/// that a unit that hasn't two owners before has not two after.
#[tactic(auto, using(crate::proofs::CollMade::coll_laws))]
pub fn made_collection()
    ensures good { (s : Super) (rows : Rows) (c : List ℕ) → IsCollName c → NoBadRow s rows → NoBadRow s (rows_after rows (coll_ops c)) }
    ensures stand { (w : Width) (at : ℕ → List ℕ) (rows : Rows) (objects after : Objects) (c : List ℕ) → ObjectsStand w at rows objects
        → transaction_effect (coll_change c) objects ≡ Ok after → ObjectsStand w at (rows_after rows (coll_ops c)) after }
    ensures owned { (w : Width) (rows : Rows) (c : List ℕ) (unit : ℕ) → IsOwned w (rows_after rows (coll_ops c)) unit ↔ IsOwned w rows unit }
    ensures sole { (w : Width) (rows : Rows) (c : List ℕ) (unit : ℕ) → HasSoleOwner w rows unit → HasSoleOwner w (rows_after rows (coll_ops c)) unit }
{}

/// An object is there where the row of its onode is.
#[tactic(auto, using(crate::proofs::ByRow::object_laws))]
pub fn object_by_row()
    ensures absent { (rows : Rows) (objects : Objects) (c o : List ℕ) → IsShape rows objects → IsCollName c → IsName o
        → (object_under objects c o ≡ None) ↔ (map.get rows (onode_key c o) ≡ None) }
    ensures present { (rows : Rows) (objects : Objects) (c o : List ℕ) → IsShape rows objects → IsCollName c → IsName o
        → IsSome (object_under objects c o) ↔ HasKey rows (onode_key c o) }
{}

/// Which reply the making of a collection gets is decided by the collection's row: whatever objects have the shape of the rows, it is
/// this one. The transaction is never too large.
#[tactic(auto, using(crate::proofs::Replies::reply_laws))]
pub fn replies_by_rows()
    ensures absent { (rows : Rows) (objects : Objects) (c : List ℕ) → IsShape rows objects
        → (map.get objects c ≡ None) ↔ (map.get rows (coll_key c) ≡ None) }
    ensures made { (rows : Rows) (objects : Objects) (c : List ℕ) → IsShape rows objects
        → map.get rows (coll_key c) ≡ None → submitted_effect (coll_change c) objects ≡ Ok (map.insert objects c map.empty) }
    ensures exists { (rows : Rows) (objects : Objects) (c : List ℕ) → IsShape rows objects
        → HasKey rows (coll_key c) → submitted_effect (coll_change c) objects ≡ Err CollectionExists }
    ensures coll_submitted { (objects : Objects) (c : List ℕ) →
        submitted_effect (coll_change c) objects ≡ transaction_effect (coll_change c) objects }
{}

/// No rows have no bad row, stand for no objects over any units, own none, and mark none.
#[tactic(auto, using(crate::proofs::NoRows::none_laws))]
pub fn no_rows()
    ensures good { (s : Super) → NoBadRow s map.empty }
    ensures stand { (w : Width) (at : ℕ → List ℕ) → ObjectsStand w at map.empty map.empty }
    ensures owned { (w : Width) (unit : ℕ) → ¬ IsOwned w map.empty unit }
    ensures exact { (w : Width) → IsExact w map.empty }
{}

/// The operation that makes a collection has a spelling, and its record is one unit.
#[tactic(auto, using(crate::proofs::Lengths::length_laws))]
pub fn record_of_a_collection()
    ensures fits { (c : List ℕ) → IsCollName c → AllFit (coll_ops c) }
    ensures short { (c : List ℕ) → IsCollName c → length (ops_bytes (coll_ops c)) ≤ 4072 }
    ensures one_unit { (number : ℕ) (c : List ℕ) → IsCollName c → unit_count number (coll_ops c) ≡ 1 }
{}

/// An attribute, an omap header or a pair is good exactly where its value fits and its object is there, whatever else the rows say. So it stays
/// good where the object stays.
pub fn values_are_good_by_their_objects()
    ensures attributes { (s : Super) (rows : Rows) (c o name value : List ℕ) → IsCollName c → IsName o
        → IsGoodRow s rows (attr_key c o name) value ↔ (FitsNamed c o name value × HasObject rows c o) }
    ensures headers { (s : Super) (rows : Rows) (c o value : List ℕ) → IsCollName c → IsName o
        → IsGoodRow s rows (header_key c o) value ↔ (FitsHeader c o value × HasObject rows c o) }
    ensures pairs { (s : Super) (rows : Rows) (c o key value : List ℕ) → IsCollName c → IsName o
        → IsGoodRow s rows (omap_key c o key) value ↔ (FitsNamed c o key value × HasObject rows c o) }
{}

/// On good rows an object without an onode has no attribute, no omap header and no pair.
pub fn missing_objects_have_no_values()
    ensures attributes { (s : Super) (rows : Rows) (c o name : List ℕ) → NoBadRow s rows → IsCollName c → IsName o
        → map.get rows (onode_key c o) ≡ None → map.get rows (attr_key c o name) ≡ None }
    ensures headers { (s : Super) (rows : Rows) (c o : List ℕ) → NoBadRow s rows → IsCollName c → IsName o
        → map.get rows (onode_key c o) ≡ None → map.get rows (header_key c o) ≡ None }
    ensures pairs { (s : Super) (rows : Rows) (c o key : List ℕ) → NoBadRow s rows → IsCollName c → IsName o
        → map.get rows (onode_key c o) ≡ None → map.get rows (omap_key c o key) ≡ None }
{}
