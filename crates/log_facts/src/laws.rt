//! How the facts of slots and log go on from one event to the next, and what they come to.

ghost use Rattle.std.specs.Prelude.{◌≡◌, ◌⊎◌, Bool, nat_lt, false, ℕ, ◌+◌, ◌-◌, ◌*◌, ◌<◌, ◌≤◌, true, List, [], ◌∷◌, ◌++◌, length, take, Option, Some, None};
ghost use Rattle.std.specs.FinMap as map;
ghost use Rattle.byte_maps.specs.Units.{unit_at, units_from, zeros, IsUnits};
ghost use Rattle.block_device.specs.Prelude.{last, WritesUnit, IsClean, IsCrashImage, History, Flight, with_event, last_at, EventFits, EachWriteIsAnswered, QuietAt, IsUntouched};
ghost use Rattle.block_device.specs.declared.event.Event.{Event};
ghost use Rattle.block_device.specs.declared.event.Event.TheVariants.{Write, Flush, Done};
ghost use Rattle.object_model.specs.Prelude.{Objects, replay, committed, HasAcked};
ghost use Rattle.object_model.specs.declared.book.Book.{Book};
ghost use Rattle.meta_rows.specs.declared.row_op.RowOp.{RowOp};
ghost use Rattle.meta_rows.specs.Prelude.{Rows, rows_after, rows_of_records, row_sets};
ghost use Rattle.meta_log.specs.declared.slot.Super.{Super};
ghost use Rattle.meta_log.specs.Prelude.{active_unit, IsSuper, IsActiveSlot, record_units, unit_count, AreRecords, active_half, AreRowsOf, units_of_records, width_of, super_bytes, check_records, check_units, other_slot, other_unit, next_super, records_units, target_unit};
ghost use Rattle.store_image.specs.Prelude.{NoBadRow, IsExactBut, IsLeakedIn, ObjectsStand, StandsFor, NoChanceMatch, LeavesPrefix};
ghost use Rattle.log_facts.specs.Flushing.{FlushState, not_sent, sent, flushed, IsFlushed, WritesNoneOf};
ghost use Rattle.log_facts.specs.SlotFacts.{SlotsStand};
ghost use Rattle.log_facts.specs.HalfFacts.{AreSpellable, IsSpellable, IsSurelyZero, ActiveHalfStands};
ghost use Rattle.log_facts.specs.FoundHalf.{RecordsStand, EndsInZeros};
ghost use Rattle.log_facts.specs.CrashRows.{LeavesRows};
ghost use Rattle.log_facts.specs.Soundness.{SoundFor};
ghost use Rattle.log_facts.specs.Checkpoints.{OtherHalfRests, CheckpointStands, NextSlotStands, LeavesEither};

/// What is known of the slots stays known over an event that writes neither.
pub fn an_event_elsewhere_keeps_the_slots()
    ensures { (h : History) (s : Super) (event : Event) → EventFits (length (last h.start h.log)) event → WritesNoneOf 0 2 event →
        SlotsStand h s → SlotsStand (with_event h event) s }
{}

/// What is known of the active half stays known over an event that writes none of its units.
pub fn an_event_elsewhere_keeps_the_half()
    ensures { (h : History) (s : Super) (rows : Rows) (tail number : ℕ) (begun : Option (List RowOp)) (given_from : ℕ)
        (second : FlushState) (recs : List (List RowOp)) (event : Event) →
        EventFits (length (last h.start h.log)) event → WritesNoneOf (active_unit s) s.half event →
        ActiveHalfStands h s rows tail number begun given_from second recs →
        ActiveHalfStands (with_event h event) s rows tail number begun given_from second recs }
{}

/// On a device without a dirty unit the slots are known by the active one, and of a half that is all zeros it is known that it has
/// no record.
pub fn a_fresh_log()
    ensures slots { (h : History) (s : Super) → ((unit : ℕ) → IsClean h.log unit) → IsActiveSlot (last h.start h.log) s →
        SlotsStand h s }
    ensures half { (h : History) (s : Super) → ((unit : ℕ) → IsClean h.log unit) →
        ((k : ℕ) → k < s.half → last_at h (active_unit s + k) ≡ zeros 4096) →
        ActiveHalfStands h s map.empty 0 s.first None 0 not_sent [] }
{}

/// On a device without a dirty unit the records that are read in the active half stand there.
pub fn a_log_that_is_found()
    ensures { (h : History) (s : Super) (recs : List (List RowOp)) → ((unit : ℕ) → IsClean h.log unit) → IsSuper s →
        IsUnits s.units (last h.start h.log) → AreRecords recs s.first (active_half (last h.start h.log) s) →
        RecordsStand h s (rows_of_records map.empty recs) (units_of_records s.first recs) (s.first + length recs) recs }
{}

/// They stand on over an event that writes none of their units.
pub fn an_event_behind_the_records()
    ensures { (h : History) (s : Super) (rows : Rows) (tail number : ℕ) (recs : List (List RowOp)) (event : Event) →
        EventFits (length (last h.start h.log)) event → WritesNoneOf (active_unit s) tail event →
        RecordsStand h s rows tail number recs → RecordsStand (with_event h event) s rows tail number recs }
{}

/// While the units behind the records are cleared, a crash leaves the super and the rows, once the first of these units was
/// written with zeros: what else is dirty there isn't reached.
pub fn a_crash_leaves_the_records()
    ensures { (h : History) (s : Super) (rows : Rows) (tail number : ℕ) (recs : List (List RowOp)) (image : List ℕ) →
        IsUnits s.units h.start → IsUnits s.units (last h.start h.log) → SlotsStand h s → RecordsStand h s rows tail number recs →
        EndsInZeros h s tail → IsCrashImage h.start h.log image → NoChanceMatch h.start h.log image →
        IsActiveSlot image s × AreRowsOf image s rows }
{}

/// So it leaves the objects that the rows stand for.
pub fn a_crash_then_leaves_the_objects()
    ensures { (h : History) (s : Super) (rows : Rows) (tail number : ℕ) (recs : List (List RowOp)) (objects : Objects) (image : List ℕ) →
        IsUnits s.units h.start → IsUnits s.units (last h.start h.log) → SlotsStand h s → RecordsStand h s rows tail number recs →
        EndsInZeros h s tail → SoundFor h s rows objects → IsCrashImage h.start h.log image →
        NoChanceMatch h.start h.log image → StandsFor image objects }
{}

/// Where each unit behind the records surely is zero, the half stands as a kernel keeps it, with no record begun.
pub fn a_half_that_is_cleared()
    ensures { (h : History) (s : Super) (rows : Rows) (tail number : ℕ) (recs : List (List RowOp)) →
        RecordsStand h s rows tail number recs → ((k : ℕ) → tail ≤ k → k < s.half → IsSurelyZero h s k) →
        ActiveHalfStands h s rows tail number None 0 not_sent recs }
{}

/// A flush covers a unit where no write of it is in flight at the submission, keeps it covered while it is not written again, and
/// has cleaned it at the good end.
pub fn a_flush_of_a_unit()
    ensures elsewhere { (h : History) (event : Event) (state : FlushState) (unit : ℕ) → ¬ WritesUnit unit event →
        IsFlushed h.log state unit → IsFlushed (with_event h event).log state unit }
    ensures submitted { (h : History) (base : ℕ) (flights : List Flight) (unit : ℕ) → QuietAt base h → EachWriteIsAnswered base h flights →
        IsUntouched flights unit → IsFlushed (with_event h Flush).log (sent (length h.log)) unit }
    ensures ended { (h : History) (flush unit : ℕ) → IsFlushed h.log (sent flush) unit →
        IsFlushed (with_event h (Done flush true)).log flushed unit }
{}

/// A record may begin where it has a spelling and room; none of its units is given to the device yet.
pub fn a_record_begins()
    ensures { (h : History) (s : Super) (rows : Rows) (tail number : ℕ) (ops : List RowOp) (recs : List (List RowOp))
        (given_from : ℕ) (second : FlushState) → IsSpellable number ops → tail + unit_count number ops ≤ s.half →
        ActiveHalfStands h s rows tail number None given_from second recs →
        ActiveHalfStands h s rows tail number (Some ops) (unit_count number ops) not_sent recs }
{}

/// The piece before those that were given is given to the device.
pub fn a_piece_is_given()
    ensures { (h : History) (s : Super) (rows : Rows) (tail number : ℕ) (ops : List RowOp) (recs : List (List RowOp))
        (given_from from : ℕ) → from ≤ given_from →
        ActiveHalfStands h s rows tail number (Some ops) given_from not_sent recs →
        (at : ℕ) (piece : List ℕ) → at ≡ active_unit s + tail + from →
        piece ≡ units_from from (given_from - from) (record_units number ops) →
        4096 * at + length piece ≤ length (last h.start h.log) →
        ActiveHalfStands (with_event h (Write at piece)) s rows tail number (Some ops) from not_sent recs }
{}

/// A flush is submitted while no write of the units that were given is in flight: it covers them.
pub fn the_flush_of_a_record()
    ensures { (h : History) (s : Super) (rows : Rows) (tail number : ℕ) (ops : List RowOp) (recs : List (List RowOp))
        (base : ℕ) (flights : List Flight) (given_from : ℕ) → QuietAt base h → EachWriteIsAnswered base h flights →
        ((j : ℕ) → given_from ≤ j → j < unit_count number ops → IsUntouched flights (active_unit s + (tail + j))) →
        ActiveHalfStands h s rows tail number (Some ops) given_from not_sent recs →
        ActiveHalfStands (with_event h Flush) s rows tail number (Some ops) given_from (sent (length h.log)) recs }
{}

/// Its good end makes them clean.
pub fn the_flush_has_ended()
    ensures { (h : History) (s : Super) (rows : Rows) (tail number : ℕ) (ops : List RowOp) (recs : List (List RowOp))
        (flush given_from : ℕ) → ActiveHalfStands h s rows tail number (Some ops) given_from (sent flush) recs →
        ActiveHalfStands (with_event h (Done flush true)) s rows tail number (Some ops) given_from flushed recs }
{}

/// A record that was wholly given and flushed is the last one of the log.
pub fn a_record_is_committed()
    ensures { (h : History) (s : Super) (rows : Rows) (tail number : ℕ) (ops : List RowOp) (recs : List (List RowOp)) →
        ActiveHalfStands h s rows tail number (Some ops) 0 flushed recs →
        ActiveHalfStands h s (rows_after rows ops) (tail + unit_count number ops) (number + 1) None 0 not_sent (recs ++ ops ∷ []) }
{}

/// While no record is begun, what the device holds has the super and the rows, and stands for the objects that the rows and its units
/// stand for.
pub fn a_log_stands_for_its_objects()
    ensures reads { (h : History) (s : Super) (rows : Rows) (tail number given_from : ℕ) (second : FlushState) (recs : List (List RowOp)) →
        IsUnits s.units (last h.start h.log) → SlotsStand h s →
        ActiveHalfStands h s rows tail number None given_from second recs →
        IsActiveSlot (last h.start h.log) s × AreRowsOf (last h.start h.log) s rows }
    ensures stands { (h : History) (s : Super) (rows : Rows) (tail number given_from : ℕ) (second : FlushState) (recs : List (List RowOp))
        (objects : Objects) → IsUnits s.units (last h.start h.log) → SlotsStand h s →
        ActiveHalfStands h s rows tail number None given_from second recs →
        NoBadRow s rows → ObjectsStand (width_of s) (last_at h) rows objects → StandsFor (last h.start h.log) objects }
{}

/// What a crash leaves has the super, and the rows as the log has them; or, once a begun record was wholly given to the device,
/// perhaps the rows after its operations.
pub fn a_crash_leaves_the_rows()
    ensures { (h : History) (s : Super) (rows : Rows) (tail number : ℕ) (begun : Option (List RowOp)) (given_from : ℕ)
        (second : FlushState) (recs : List (List RowOp)) (image : List ℕ) →
        IsUnits s.units h.start → IsUnits s.units (last h.start h.log) → SlotsStand h s →
        ActiveHalfStands h s rows tail number begun given_from second recs →
        IsCrashImage h.start h.log image → NoChanceMatch h.start h.log image → LeavesRows image s rows begun given_from }
{}

/// Rows that are sound for objects stand for them in whatever a crash leaves that has these rows.
pub fn sound_rows_survive_a_crash()
    ensures { (h : History) (s : Super) (rows : Rows) (objects : Objects) (image : List ℕ) → SoundFor h s rows objects →
        IsCrashImage h.start h.log image → IsActiveSlot image s → AreRowsOf image s rows → StandsFor image objects }
{}

/// A crash now leaves a front of the commits: where the log's rows are sound for the objects after the first `count` of them, among
/// which is each acknowledged one, and, once the begun record was wholly given, the rows after it are for those after all commits; and
/// where the bitmap of both is as exact as that of the contents when the log had `base` events.
pub fn a_crash_now_leaves_a_prefix()
    ensures { (h : History) (s : Super) (rows : Rows) (tail number : ℕ) (begun : Option (List RowOp)) (given_from : ℕ)
        (second : FlushState) (recs : List (List RowOp)) (base : ℕ) (objects : Objects) (book : Book) (count : ℕ) →
        IsUnits s.units h.start → IsUnits s.units (last h.start h.log) → SlotsStand h s →
        ActiveHalfStands h s rows tail number begun given_from second recs →
        count ≤ length book.commits → HasAcked base (length h.log) book.commits count →
        SoundFor h s rows (replay objects (committed book.entries (take count book.commits))) →
        ((ops : List RowOp) → begun ≡ Some ops → given_from ≡ 0 →
        SoundFor h s (rows_after rows ops) (replay objects (committed book.entries book.commits))) →
        IsExactBut (width_of s) (IsLeakedIn (last h.start (take base h.log))) rows →
        ((ops : List RowOp) → begun ≡ Some ops → IsExactBut (width_of s) (IsLeakedIn (last h.start (take base h.log))) (rows_after rows ops)) →
        LeavesPrefix base h.start objects book h.log }
{}

/// What is known of the other half, at rest or while a checkpoint is written there, and of the slots while its superblock is, stays
/// known over an event that writes none of their units.
pub fn an_event_elsewhere_keeps_a_checkpoint()
    ensures rests { (h : History) (s : Super) (is_stale : ℕ → Bool) (event : Event) → EventFits (length (last h.start h.log)) event →
        WritesNoneOf (other_unit s) s.half event → OtherHalfRests h s is_stale → OtherHalfRests (with_event h event) s is_stale }
    ensures stands { (h : History) (t : Super) (rows : Rows) (tail : ℕ) (recs : List (List RowOp)) (is_left : ℕ → Bool) (flush : FlushState)
        (event : Event) → EventFits (length (last h.start h.log)) event → WritesNoneOf (active_unit t) t.half event →
        CheckpointStands h t rows tail recs is_left flush → CheckpointStands (with_event h event) t rows tail recs is_left flush }
    ensures next_slot { (h : History) (s : Super) (number : ℕ) (flush : FlushState) (event : Event) →
        EventFits (length (last h.start h.log)) event → WritesNoneOf 0 2 event → NextSlotStands h s number flush →
        NextSlotStands (with_event h event) s number flush }
{}

/// A checkpoint begins in a half at rest: its records are left to be written, and zeros over what is stale behind them.
pub fn a_checkpoint_begins()
    ensures { (h : History) (s : Super) (number : ℕ) (rows : Rows) (tail : ℕ) (recs : List (List RowOp)) (is_stale is_left : ℕ → Bool) →
        rows ≡ rows_of_records map.empty recs → AreSpellable number recs → IsUnits tail (records_units number recs) → tail ≤ s.half →
        ((k : ℕ) → k < s.half → is_left k ≡ false → (tail ≤ k) × (is_stale k ≡ false)) → OtherHalfRests h s is_stale →
        CheckpointStands h (next_super s number) rows tail recs is_left not_sent }
{}

/// A run of its units is given to the device, each as it is to be.
pub fn a_checkpoint_gives_a_run()
    ensures { (h : History) (t : Super) (rows : Rows) (tail : ℕ) (recs : List (List RowOp)) (is_left is_left_after : ℕ → Bool)
        (from count : ℕ) (piece : List ℕ) → length piece ≡ 4096 * count →
        ((j : ℕ) → j < count → unit_at j piece ≡ target_unit tail t.first recs (from + j)) →
        ((k : ℕ) → k < t.half → is_left_after k ≡ false → (is_left k ≡ false) ⊎ ((from ≤ k) × (k < from + count))) →
        4096 * (active_unit t + from) + length piece ≤ length (last h.start h.log) →
        CheckpointStands h t rows tail recs is_left not_sent →
        CheckpointStands (with_event h (Write (active_unit t + from) piece)) t rows tail recs is_left_after not_sent }
{}

/// Its flush is submitted while no write of the half is in flight, and ends; then the half stands as a log of the superblock that is to come.
pub fn a_checkpoint_is_flushed()
    ensures submitted { (h : History) (t : Super) (rows : Rows) (tail : ℕ) (recs : List (List RowOp)) (is_left : ℕ → Bool) (base : ℕ)
        (flights : List Flight) → QuietAt base h → EachWriteIsAnswered base h flights →
        ((k : ℕ) → k < t.half → IsUntouched flights (active_unit t + k)) → CheckpointStands h t rows tail recs is_left not_sent →
        CheckpointStands (with_event h Flush) t rows tail recs is_left (sent (length h.log)) }
    ensures ended { (h : History) (t : Super) (rows : Rows) (tail : ℕ) (recs : List (List RowOp)) (is_left : ℕ → Bool) (flush : ℕ) →
        CheckpointStands h t rows tail recs is_left (sent flush) →
        CheckpointStands (with_event h (Done flush true)) t rows tail recs is_left flushed }
    ensures half { (h : History) (t : Super) (rows : Rows) (tail : ℕ) (recs : List (List RowOp)) (is_left : ℕ → Bool) →
        ((k : ℕ) → k < t.half → is_left k ≡ false) → CheckpointStands h t rows tail recs is_left flushed →
        ActiveHalfStands h t rows tail (t.first + length recs) None 0 not_sent recs }
{}

/// The superblock that follows is written to the other slot, and flushed.
pub fn the_next_slot_is_written()
    ensures written { (h : History) (s : Super) (number : ℕ) → IsSuper (next_super s number) → 4096 * 2 ≤ length (last h.start h.log) →
        SlotsStand h s → NextSlotStands (with_event h (Write (other_slot s) (super_bytes (next_super s number)))) s number not_sent }
    ensures submitted { (h : History) (s : Super) (number base : ℕ) (flights : List Flight) → QuietAt base h →
        EachWriteIsAnswered base h flights → IsUntouched flights (other_slot s) → NextSlotStands h s number not_sent →
        NextSlotStands (with_event h Flush) s number (sent (length h.log)) }
    ensures ended { (h : History) (s : Super) (number flush : ℕ) → NextSlotStands h s number (sent flush) →
        NextSlotStands (with_event h (Done flush true)) s number flushed }
{}

/// The halves change places: the slots stand for the superblock that follows, and what was the half in use is at rest, its records stale.
pub fn the_halves_change_places()
    ensures slots { (h : History) (s : Super) (number : ℕ) → NextSlotStands h s number flushed → SlotsStand h (next_super s number) }
    ensures rests { (h : History) (s : Super) (number : ℕ) (rows : Rows) (tail next given_from : ℕ) (second : FlushState)
        (recs : List (List RowOp)) → ActiveHalfStands h s rows tail next None given_from second recs →
        OtherHalfRests h (next_super s number) (λ k. nat_lt k tail) }
{}

/// While the next slot is written, both halves have the rows: what a crash leaves has one of the two superblocks, and the rows by either.
pub fn a_crash_leaves_either_half()
    ensures { (h : History) (s : Super) (number : ℕ) (flush : FlushState) (rows : Rows) (tail next tail_after next_after : ℕ)
        (recs recs_after : List (List RowOp)) (from from_after : ℕ) (second second_after : FlushState) →
        IsUnits s.units h.start → NextSlotStands h s number flush → ActiveHalfStands h s rows tail next None from second recs →
        ActiveHalfStands h (next_super s number) rows tail_after next_after None from_after second_after recs_after →
        (image : List ℕ) → IsCrashImage h.start h.log image → NoChanceMatch h.start h.log image → LeavesEither image s number rows }
{}

/// So a crash then leaves a front of the commits, as it does at other times.
pub fn a_crash_at_a_switch_leaves_a_prefix()
    ensures { (h : History) (s : Super) (number : ℕ) (flush : FlushState) (rows : Rows) (tail next tail_after next_after : ℕ)
        (recs recs_after : List (List RowOp)) (from from_after : ℕ) (second second_after : FlushState)
        (base : ℕ) (objects : Objects) (book : Book) (count : ℕ) →
        IsUnits s.units h.start → NextSlotStands h s number flush → ActiveHalfStands h s rows tail next None from second recs →
        ActiveHalfStands h (next_super s number) rows tail_after next_after None from_after second_after recs_after →
        count ≤ length book.commits → HasAcked base (length h.log) book.commits count →
        SoundFor h s rows (replay objects (committed book.entries (take count book.commits))) →
        IsExactBut (width_of s) (IsLeakedIn (last h.start (take base h.log))) rows →
        LeavesPrefix base h.start objects book h.log }
{}

/// Rows that are sound by a superblock are so by the one that follows.
pub fn sound_rows_stay_sound()
    ensures { (h : History) (s : Super) (number : ℕ) (rows : Rows) (objects : Objects) → SoundFor h s rows objects →
        SoundFor h (next_super s number) rows objects }
{}

/// The record that sets each row makes the rows; where there are none no record does.
pub fn a_record_of_the_rows()
    ensures { (rows : Rows) → rows ≡ rows_of_records map.empty (check_records rows) }
{}

/// So a checkpoint of the rows begins wherever that record has a spelling and fits the half.
pub fn a_checkpoint_of_the_rows_begins()
    ensures { (h : History) (s : Super) (number : ℕ) (rows : Rows) (is_stale is_left : ℕ → Bool) → IsSpellable number (row_sets rows) →
        check_units number rows ≤ s.half →
        ((k : ℕ) → k < s.half → is_left k ≡ false → (check_units number rows ≤ k) × (is_stale k ≡ false)) → OtherHalfRests h s is_stale →
        CheckpointStands h (next_super s number) rows (check_units number rows) (check_records rows) is_left not_sent }
{}

/// Any units in a row of that record, and zeros behind it, are as the half is to be.
pub fn the_pieces_of_a_checkpoint()
    ensures pieces { (number : ℕ) (rows : Rows) (from count j : ℕ) → from + count ≤ check_units number rows → j < count →
        unit_at j (units_from from count (record_units number (row_sets rows)))
        ≡ target_unit (check_units number rows) number (check_records rows) (from + j) }
    ensures behind { (number : ℕ) (rows : Rows) (from count j : ℕ) → check_units number rows ≤ from → j < count →
        unit_at j (zeros (4096 * count)) ≡ target_unit (check_units number rows) number (check_records rows) (from + j) }
{}
