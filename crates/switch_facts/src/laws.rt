//! How it goes on from one call to the next, and what it comes to.
ghost use Rattle.std.specs.Prelude.{◌≡◌, ◌⊎◌, false, ℕ, ◌+◌, ◌*◌, ◌<◌, ◌≤◌, ◌∷◌, List, length, take, Option, Some, None};
ghost use Rattle.std.specs.List.{AllByRecursion};
ghost use Rattle.byte_maps.specs.Units.{IsUnits};
ghost use Rattle.block_device.specs.Prelude.{last, History, Flight, EventFits, EachWriteIsAnswered, QuietAt};
ghost use Rattle.block_device.specs.declared.event.Event.{Event};
ghost use Rattle.block_device.specs.declared.event.Event.TheVariants.{Flush};
ghost use Rattle.object_model.specs.Prelude.{Objects, replay, committed, HasAcked};
ghost use Rattle.object_model.specs.declared.book.Book.{Book};
ghost use Rattle.meta_rows.specs.declared.row_op.RowOp.{RowOp};
ghost use Rattle.meta_rows.specs.Prelude.{Rows, rows_after};
ghost use Rattle.meta_log.specs.declared.slot.Super.{Super};
ghost use Rattle.meta_log.specs.declared.runs.UnitRun.{UnitRun};
ghost use Rattle.meta_log.specs.Prelude.{width_of, check_records, in_runs, check_runs};
ghost use Rattle.store_image.specs.Prelude.{IsExactBut, IsLeakedIn, LeavesPrefix};
ghost use Rattle.log_facts.specs.Prelude.{FlushState, not_sent, flushed, ActiveHalfStands, SoundFor};
ghost use Rattle.switch_facts.specs.Prelude.{OtherPart, SlotPhase, written, CheckPart, OtherGoes, OtherIsKnown, IsFitting, with_any, switched_part, LiesInHalf, IsPieceOf, AreApart};

/// Each call keeps what is known of the slots and the other half, whatever it makes of them. While a checkpoint is written the half in use has its
/// records and no more, since no batch is open.
pub fn steps_keep_the_other_half()
    ensures { (h : History) (base : ℕ) (flights : List Flight) (ticket : ℕ) (event : Option Event) (p q : OtherPart) (from : ℕ) (second : FlushState)
        (recs : List (List RowOp)) → QuietAt base h → EachWriteIsAnswered base h flights → IsFitting (length (last h.start h.log)) event →
        4096 * 2 ≤ length (last h.start h.log) →
        ((c : CheckPart) → p.check ≡ Some c → ActiveHalfStands h p.sup p.rows p.tail p.number None from second recs) →
        (event ≡ Some Flush → ticket ≡ length h.log) → OtherGoes flights ticket event p q → OtherIsKnown h p →
        OtherIsKnown (with_any event h) q }
{}

/// Behind a switch the half that is in use has the rows, in the record of the checkpoint.
pub fn a_switch_makes_the_half()
    ensures { (h : History) (p : OtherPart) (c : CheckPart) → p.check ≡ Some c → c.slot ≡ written flushed → OtherIsKnown h p →
        ActiveHalfStands h (switched_part p).sup (switched_part p).rows (switched_part p).tail (switched_part p).number None 0 not_sent (check_records p.rows) }
{}

/// A crash at any moment of a checkpoint and of the switch leaves a front of the commits.
pub fn a_cut_while_halves_switch()
    ensures { (h : History) (p : OtherPart) (from : ℕ) (second : FlushState) (recs : List (List RowOp)) (base : ℕ) (objects : Objects) (book : Book)
        (count : ℕ) → IsUnits p.sup.units h.start → IsUnits p.sup.units (last h.start h.log) → OtherIsKnown h p →
        (c : CheckPart) → p.check ≡ Some c → ActiveHalfStands h p.sup p.rows p.tail p.number None from second recs →
        count ≤ length book.commits → HasAcked base (length h.log) book.commits count →
        SoundFor h p.sup p.rows (replay objects (committed book.entries (take count book.commits))) →
        IsExactBut (width_of p.sup) (IsLeakedIn (last h.start (take base h.log))) p.rows →
        LeavesPrefix base h.start objects book h.log }
{}

/// What no piece of a checkpoint has lies behind its record, and isn't stale. Once a piece is given, what is left is what was left but for its units.
pub fn the_pieces_cover()
    ensures whole { (units : ℕ) (stale : List UnitRun) (k : ℕ) → in_runs (check_runs units stale) k ≡ false →
        (units ≤ k) × (in_runs stale k ≡ false) }
    ensures given { (r : UnitRun) (rs : List UnitRun) (k : ℕ) → in_runs rs k ≡ false →
        (in_runs (r ∷ rs) k ≡ false) ⊎ ((r.first ≤ k) × (k < r.first + r.count)) }
{}

/// A piece of a checkpoint isn't empty, has at most 64 units and lies in the half, where its record and each stale run do. No unit is in two of
/// them, where none is in two stale runs.
pub fn the_pieces_are_apart()
    ensures fit { (half units : ℕ) (stale : List UnitRun) → units ≤ half → AllByRecursion (LiesInHalf half) stale →
        AllByRecursion (IsPieceOf half) (check_runs units stale) }
    ensures apart { (units : ℕ) (stale : List UnitRun) → AreApart stale → AreApart (check_runs units stale) }
{}
