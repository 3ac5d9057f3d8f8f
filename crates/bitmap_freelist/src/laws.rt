//! What the operations that turn bits come to.

ghost use Rattle.std.specs.Prelude.{◌≡◌, ◌↔◌, ℕ, ◌*◌, ◌^◌, ◌<◌, ◌≤◌, List, length};
ghost use Rattle.std.specs.FinMap as map;
ghost use Rattle.meta_rows.specs.Prelude.{Rows, rows_after, ops_bytes, AllFit};
ghost use Rattle.meta_rows.specs.declared.row_op.RowOp.{RowOp};
ghost use Rattle.meta_log.specs.declared.slot.Super.{Super};
ghost use Rattle.object_model.specs.Prelude.{Objects};
ghost use Rattle.unit_fields.specs.declared.width.Width.{Width};
ghost use Rattle.store_image.specs.Prelude.{NoBadRow, Owner, Owns, IsDataUnit, IsMarked, ObjectsStand};
ghost use Rattle.bitmap_freelist.specs.Bitmap.{
  Units,
  Has,
  AreFlips,
  AreBitmapRows,
  NoneIsZero,
  IsOtherKey,
  AreAlikeButBits,
  ExactlyOne,
};

/// A unit's bit is 1 then where either it was or the unit is one of those that are turned, and not both.
pub fn flips_turn_their_units()
    ensures { (rows : Rows) (units : Units) (ops : List RowOp) → AreFlips units ops → (unit : ℕ) → unit < 2 ^ 32 →
        IsMarked (rows_after rows ops) unit ↔ ExactlyOne (IsMarked rows unit) (Has units unit) }
{}

/// Rows of other keys stay as they are.
pub fn flips_leave_other_rows()
    ensures { (rows : Rows) (units : Units) (ops : List RowOp) → AreFlips units ops → (key : List ℕ) → IsOtherKey key →
        map.get (rows_after rows ops) key ≡ map.get rows key }
{}

/// The rows of the table stay rows of it, and none has zeros alone where none had.
pub fn flips_stay_in_the_table()
    ensures table { (rows : Rows) (units : Units) (ops : List RowOp) → AreFlips units ops → AreBitmapRows rows →
        AreBitmapRows (rows_after rows ops) }
    ensures some { (rows : Rows) (units : Units) (ops : List RowOp) → AreFlips units ops → NoneIsZero rows →
        NoneIsZero (rows_after rows ops) }
{}

/// In whichever order two sets of units are turned, the same rows are left: so transactions on two collections commute here.
pub fn flips_change_order()
    ensures { (rows : Rows) (units others : Units) (ops more : List RowOp) → AreBitmapRows rows →
        AreFlips units ops → AreFlips others more → rows_after (rows_after rows ops) more ≡ rows_after (rows_after rows more) ops }
{}

/// Units that are turned twice are left as they were.
pub fn flips_twice_restore()
    ensures { (rows : Rows) (units : Units) (ops : List RowOp) → AreBitmapRows rows → NoneIsZero rows →
        AreFlips units ops → rows_after (rows_after rows ops) ops ≡ rows }
{}

/// So what the rows say of collections and objects stays: where their pages stand, who owns a unit, and what they stand for.
pub fn flips_leave_objects()
    ensures alike { (rows : Rows) (units : Units) (ops : List RowOp) → AreFlips units ops → AreAlikeButBits rows (rows_after rows ops) }
    ensures owns { (w : Width) (rows other : Rows) (owner : Owner) (unit : ℕ) → AreAlikeButBits rows other
        → Owns w rows owner unit ↔ Owns w other owner unit }
    ensures stand { (w : Width) (at : ℕ → List ℕ) (rows other : Rows) (objects : Objects) → AreAlikeButBits rows other →
        ObjectsStand w at rows objects → ObjectsStand w at other objects }
{}

/// Where no row is bad, the rows under the keys of the table are of it, and none has zeros alone. No row is bad either once bits of data units
/// are turned.
pub fn good_bitmaps()
    ensures table { (s : Super) (rows : Rows) → NoBadRow s rows → AreBitmapRows rows }
    ensures some { (s : Super) (rows : Rows) → NoBadRow s rows → NoneIsZero rows }
    ensures marked { (s : Super) (rows : Rows) (unit : ℕ) → NoBadRow s rows → unit < 2 ^ 32 → IsMarked rows unit → IsDataUnit s unit }
    ensures turned { (s : Super) (rows : Rows) (units : Units) (ops : List RowOp) → AreFlips units ops →
        ((unit : ℕ) → Has units unit → IsDataUnit s unit) → NoBadRow s rows → NoBadRow s (rows_after rows ops) }
{}

/// Each operation has a spelling of 28 bytes, and there are at most as many as rows. (So a record grows by 28 bytes for each row that it
/// turns bits of.)
pub fn record_of_flips()
    ensures fit { (units : Units) (ops : List RowOp) → AreFlips units ops → AllFit ops }
    ensures size { (units : Units) (ops : List RowOp) → AreFlips units ops → length (ops_bytes ops) ≡ 28 * length ops }
    ensures count { (units : Units) (ops : List RowOp) → AreFlips units ops → length ops ≤ 33554432 }
{}
