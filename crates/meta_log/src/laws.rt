//! What the definitions of slots and records come to.

ghost use Rattle.std.specs.Prelude.{◌≡◌, ℕ, ◌-◌, ◌<◌, ◌≤◌, List, [], ◌∷◌, ◌++◌, Some, slice_get};
ghost use Rattle.std.specs.FinMap as map;
ghost use Rattle.meta_rows.specs.Prelude.{Rows, rows_after, rows_of_records};
ghost use Rattle.meta_rows.specs.declared.row_op.RowOp.{RowOp};
ghost use Rattle.meta_log.specs.Slots.{IsValidSlot, IsActiveSlot};
ghost use Rattle.meta_log.specs.Records.{AreRecords, AreRowsOf, active_half, unit_count};
ghost use Rattle.meta_log.specs.Pieces.{piece_count, given_from, piece_first, piece_units, LiesInRecord, IsInPiece};
ghost use Rattle.meta_log.specs.CheckRuns.{AreRunsFrom, check_runs, IsZeroRun};
ghost use Rattle.meta_log.specs.Sealed.{IsSealable};
ghost use Rattle.meta_log.specs.Scanning.{IsLogOf};
ghost use Rattle.meta_log.specs.declared.runs.UnitRun.{UnitRun};
ghost use Rattle.meta_log.specs.declared.scanning.FoundLog.{FoundLog};
ghost use Rattle.meta_log.specs.declared.slot.Super.{Super};

/// A slot of an image says at most one thing.
pub fn one_super_in_a_slot()
    ensures { (image : List ℕ) (at : ℕ) (a b : Super) → IsValidSlot image at a → IsValidSlot image at b → a ≡ b }
{}

/// An image has at most one active slot.
pub fn one_active_slot()
    ensures { (image : List ℕ) (a b : Super) → IsActiveSlot image a → IsActiveSlot image b → a ≡ b }
{}

/// Bytes have at most one list of valid records of consecutive numbers at their front.
pub fn one_list_of_records()
    ensures { (a b : List (List RowOp)) (number : ℕ) (bytes : List ℕ) → AreRecords a number bytes → AreRecords b number bytes → a ≡ b }
{}

/// One more record changes the rows by its operations.
pub fn one_more_record()
    ensures { (rows : Rows) (records : List (List RowOp)) (ops : List RowOp) →
        rows_of_records rows (records ++ ops ∷ []) ≡ rows_after (rows_of_records rows records) ops }
{}

/// The records that were found in the active half of an image make its rows.
pub fn found_records_make_the_rows()
    ensures { (image : List ℕ) (s : Super) (found : FoundLog) → IsLogOf (active_half image s) s.first found →
        AreRowsOf image s (rows_of_records map.empty found.records) }
{}

/// A record takes a unit at least, and no more than its body of fewer than 2^32 bytes asks for.
pub fn units_of_a_record()
    ensures some { (number : ℕ) (ops : List RowOp) → 0 < unit_count number ops }
    ensures most { (number : ℕ) (ops : List RowOp) → IsSealable number ops → unit_count number ops ≤ 1048577 }
{}

/// The pieces of a record lie one before the other, from its end to its first unit.
pub fn pieces_lie_in_a_row()
    ensures each { (units k : ℕ) → k < piece_count units → LiesInRecord units k }
    ensures begin { (units : ℕ) → given_from units 0 ≡ units }
    ensures last { (units : ℕ) → given_from units (piece_count units) ≡ 0 }
{}

/// Each unit of a record is in exactly one of its pieces.
pub fn each_unit_in_one_piece()
    ensures some { (units unit : ℕ) → unit < units → (k : ℕ) × IsInPiece units unit k }
    ensures one { (units unit k l : ℕ) → IsInPiece units unit k → IsInPiece units unit l → k ≡ l }
{}

/// The piece that is written last has the head of the record.
pub fn last_piece_has_the_head()
    ensures { (units : ℕ) → piece_first units (piece_count units - 1) ≡ 0 }
{}

/// The pieces of a checkpoint: the first are those of its record, and the others lie behind it. None is empty or of more than 64 units.
pub fn pieces_of_a_checkpoint()
    ensures first { (units k : ℕ) (stale : List UnitRun) → k < piece_count units →
        slice_get (check_runs units stale) k ≡ Some (record { first = piece_first units k; count = piece_units units k }) }
    ensures others { (units half k : ℕ) (stale : List UnitRun) (r : UnitRun) → AreRunsFrom 0 half stale → piece_count units ≤ k →
        slice_get (check_runs units stale) k ≡ Some r → IsZeroRun units half r }
{}
