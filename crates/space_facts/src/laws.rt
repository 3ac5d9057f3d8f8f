//! How accepted transactions that are under way keep rows good and units apart.
ghost use Rattle.std.specs.Prelude.{◌≡◌, ◌↔◌, ℕ, ◌+◌, ◌*◌, ◌<◌, ◌≤◌, true, false, List, [], ◌∷◌, ◌++◌, map, Contains};
ghost use Rattle.std.specs.List.{AllByRecursion};
ghost use Rattle.std.specs.FinMap as finite;
ghost use Rattle.meta_rows.specs.Prelude.{Rows, rows_after, rows_of_records, rows_size};
ghost use Rattle.meta_rows.specs.declared.row_op.RowOp.{RowOp};
ghost use Rattle.meta_log.specs.declared.slot.Super.{Super};
ghost use Rattle.meta_log.specs.Prelude.{width_of, IsSuper, unit_count, units_of_records, check_units, next_super};
ghost use Rattle.store_image.specs.Prelude.{IsDataUnit, IsMarked, IsLeaked, IsExactAs, IsBusy};
ghost use Rattle.unit_fields.specs.declared.width.Width.{Width};
ghost use Rattle.unit_allocator.specs.Prelude.{Space, is_idle, free_units, taken, given};
ghost use Rattle.plan_rows.specs.Prelude.{AreFreeOver, fresh_units, IsAboveBlobs, MakesBlob, IsGood, Suits, PlanKeeps};
ghost use Rattle.selections.specs.Fair.{under, IsFair, IsComplete, HasLast};
ghost use Rattle.store_steps.specs.Prelude.{Intent, names_in, is_in, plan_of, rows_by, ops_by, released_by, EachIsPlanned, AreTakenApart, HaveHomes, AreBlobsBelow, SpaceIsCounted, CanJoin, needs_by, RowsPart, with_accepted, applied, rewritten, rows_units, NeedsEnough, AreRowsWithin};
ghost use Rattle.space_facts.specs.Example.{two, no_rows};
ghost use Rattle.space_facts.specs.Spaces.{HasDataUnits, HasOnlyDataUnits};
ghost use Rattle.space_facts.specs.Owning.{OwnTheirUnits};

/// Rows with some intents and then with others are those with all of them, and their operations as one list make the same rows.
pub fn rows_by_intents()
    ensures joined { (rows : Rows) (xs ys : List Intent) → rows_by rows (xs ++ ys) ≡ rows_by (rows_by rows xs) ys }
    ensures operations { (rows : Rows) (xs : List Intent) → rows_after rows (ops_by xs) ≡ rows_by rows xs }
{}

/// Where nothing is under way nothing is asked of plans, and of the space that a data unit is idle exactly where it isn't marked. Blobs have the homes
/// that their namers tell, and numbers below one that is above all of the rows.
pub fn nothing_under_way()
    ensures planned { (sup : Super) (rows : Rows) → EachIsPlanned sup rows [] }
    ensures apart { (rows : Rows) → AreTakenApart rows [] }
    ensures homes { (sup : Super) (rows : Rows) → IsGood sup rows → HaveHomes (width_of sup) rows [] }
    ensures blobs { (next : ℕ) (rows : Rows) → IsAboveBlobs next rows → AreBlobsBelow next rows [] }
    ensures counted { (sup : Super) (rows : Rows) (space : Space)
        → ((unit : ℕ) → IsDataUnit sup unit → (is_idle space unit ≡ true) ↔ (¬ IsMarked rows unit)) → SpaceIsCounted sup rows [] space }
{}

/// The rows with a fair selection are good. What is leaked in them was leaked in the committed ones, and what was leaked there stays so.
pub fn selections_stay_good()
    ensures good { (sup : Super) (rows : Rows) (xs some : List Intent) → IsGood sup rows → EachIsPlanned sup rows xs → IsFair is_in xs some
        → IsGood sup (rows_by rows some) }
    ensures exact { (sup : Super) (rows : Rows) (xs some : List Intent) → IsGood sup rows → EachIsPlanned sup rows xs → IsFair is_in xs some
        → IsExactAs (width_of sup) rows (rows_by rows some) }
    ensures leaked { (sup : Super) (rows : Rows) (xs some : List Intent) (unit : ℕ) → IsGood sup rows → EachIsPlanned sup rows xs
        → HaveHomes (width_of sup) rows xs → IsFair is_in xs some → IsLeaked (width_of sup) rows unit → IsLeaked (width_of sup) (rows_by rows some) unit }
{}

/// What a fair selection changes of the owned units is what its transactions take and release.
pub fn selections_own()
    ensures { (sup : Super) (rows : Rows) (xs some : List Intent) → IsGood sup rows → EachIsPlanned sup rows xs → AreTakenApart rows xs
        → IsFair is_in xs some → OwnTheirUnits (width_of sup) rows (rows_by rows some) some }
{}

/// What a transaction under way releases is busy: it is marked in the committed rows, or another one took it.
pub fn released_are_busy()
    ensures { (sup : Super) (rows : Rows) (xs : List Intent) (unit : ℕ) → IsGood sup rows → EachIsPlanned sup rows xs → AreTakenApart rows xs
        → Contains (released_by xs) unit → IsBusy rows (map (λ x. fresh_units (plan_of x)) xs) unit }
{}

/// Over the submitted rows and the free units a plan can be made, and a plan over them that takes free units, and makes blobs with the next numbers,
/// can join.
pub fn free_units_can_join()
    ensures over { (sup : Super) (rows : Rows) (xs : List Intent) (space : Space) → IsSuper sup → IsGood sup rows → EachIsPlanned sup rows xs
        → AreTakenApart rows xs → HasOnlyDataUnits sup space → SpaceIsCounted sup rows xs space
        → AreFreeOver sup (rows_by rows xs) space }
    ensures joins { (sup : Super) (next : ℕ) (rows : Rows) (xs : List Intent) (x : Intent) (space : Space) → SpaceIsCounted sup rows xs space
        → AreBlobsBelow next rows xs → PlanKeeps sup (names_in x) (rows_by rows xs) (plan_of x)
        → AllByRecursion (λ u. Contains (free_units space) u) (fresh_units (plan_of x))
        → ((sbid : ℕ) → MakesBlob (rows_by rows xs) x.ops sbid → next ≤ sbid) → CanJoin sup rows xs x }
    ensures above { (next : ℕ) (rows : Rows) (xs : List Intent) → AreBlobsBelow next rows xs → IsAboveBlobs next (rows_by rows xs) }
{}

/// Where one more can join, each is planned among them and that one, and what all of them took is apart. Blobs have homes then, those that it makes
/// in its collection; and numbers below the next one.
pub fn one_more_is_planned()
    ensures planned { (sup : Super) (rows : Rows) (xs : List Intent) (x : Intent) → IsSuper sup → IsGood sup rows → EachIsPlanned sup rows xs
        → AreTakenApart rows xs → HaveHomes (width_of sup) rows xs → CanJoin sup rows xs x → EachIsPlanned sup rows (xs ++ x ∷ []) }
    ensures apart { (sup : Super) (rows : Rows) (xs : List Intent) (x : Intent) → IsSuper sup → IsGood sup rows → EachIsPlanned sup rows xs
        → AreTakenApart rows xs → HaveHomes (width_of sup) rows xs → CanJoin sup rows xs x → AreTakenApart rows (xs ++ x ∷ []) }
    ensures homes { (sup : Super) (rows : Rows) (xs : List Intent) (x : Intent) → IsSuper sup → IsGood sup rows → EachIsPlanned sup rows xs
        → AreTakenApart rows xs → HaveHomes (width_of sup) rows xs → CanJoin sup rows xs x → HaveHomes (width_of sup) rows (xs ++ x ∷ []) }
    ensures blobs { (next more : ℕ) (rows : Rows) (xs : List Intent) (x : Intent) → AreBlobsBelow next rows xs
        → ((sbid : ℕ) → MakesBlob (rows_by rows xs) x.ops sbid → sbid < next + more) → AreBlobsBelow (next + more) rows (xs ++ x ∷ []) }
{}

/// In a fair selection that has the one that joined, that one may come last, over rows that suit its plan.
pub fn one_more_may_come_last()
    ensures rows { (sup : Super) (rows : Rows) (xs some : List Intent) (x : Intent) → IsSuper sup → IsGood sup rows → EachIsPlanned sup rows xs
        → AreTakenApart rows xs → HaveHomes (width_of sup) rows xs → CanJoin sup rows xs x → (has : HasLast is_in xs x some)
        → rows_by rows some ≡ rows_after (rows_by rows (has.front ++ has.back)) x.ops }
    ensures suits { (sup : Super) (rows : Rows) (xs some : List Intent) (x : Intent) → IsSuper sup → IsGood sup rows → EachIsPlanned sup rows xs
        → AreTakenApart rows xs → HaveHomes (width_of sup) rows xs → CanJoin sup rows xs x → (has : HasLast is_in xs x some)
        → Suits (width_of sup) (names_in x) (rows_by rows xs) (plan_of x) (rows_by rows (has.front ++ has.back)) }
{}

/// All this depends on the order within each collection alone: one that is the first in each of its collections may be taken to the front.
pub fn order_between_collections()
    ensures first { (front back : List Intent) (x : Intent) → ((n : List ℕ) → is_in n x ≡ true → under is_in n front ≡ [])
        → IsComplete is_in (front ++ x ∷ back) (x ∷ (front ++ back)) }
    ensures planned { (sup : Super) (rows : Rows) (xs ys : List Intent) → IsComplete is_in xs ys → EachIsPlanned sup rows xs
        → EachIsPlanned sup rows ys }
    ensures rows { (sup : Super) (rows : Rows) (xs ys : List Intent) → IsComplete is_in xs ys → IsGood sup rows → HaveHomes (width_of sup) rows xs
        → rows_by rows xs ≡ rows_by rows ys }
    ensures apart { (rows : Rows) (xs ys : List Intent) → IsComplete is_in xs ys → AreTakenApart rows xs → AreTakenApart rows ys }
    ensures homes { (w : Width) (rows : Rows) (xs ys : List Intent) → IsComplete is_in xs ys → HaveHomes w rows xs → HaveHomes w rows ys }
    ensures blobs { (next : ℕ) (rows : Rows) (xs ys : List Intent) → IsComplete is_in xs ys → AreBlobsBelow next rows xs → AreBlobsBelow next rows ys }
    ensures counted { (sup : Super) (rows : Rows) (xs ys : List Intent) (space : Space) → IsComplete is_in xs ys
        → SpaceIsCounted sup rows xs space → SpaceIsCounted sup rows ys space }
{}

/// Once a batch is committed the rows are good, each of those that wait is planned over them, what these took is apart, and blobs have homes and
/// numbers as before.
pub fn commits_keep_plans()
    ensures good { (sup : Super) (rows : Rows) (batch pending : List Intent) → IsGood sup rows → EachIsPlanned sup rows (batch ++ pending)
        → IsGood sup (rows_by rows batch) }
    ensures planned { (sup : Super) (rows : Rows) (batch pending : List Intent) → EachIsPlanned sup rows (batch ++ pending)
        → EachIsPlanned sup (rows_by rows batch) pending }
    ensures apart { (sup : Super) (rows : Rows) (batch pending : List Intent) → IsSuper sup → IsGood sup rows
        → EachIsPlanned sup rows (batch ++ pending) → AreTakenApart rows (batch ++ pending) → AreTakenApart (rows_by rows batch) pending }
    ensures homes { (sup : Super) (rows : Rows) (batch pending : List Intent) → IsGood sup rows → EachIsPlanned sup rows (batch ++ pending)
        → HaveHomes (width_of sup) rows (batch ++ pending) → HaveHomes (width_of sup) (rows_by rows batch) pending }
    ensures blobs { (next : ℕ) (rows : Rows) (batch pending : List Intent) → AreBlobsBelow next rows (batch ++ pending)
        → AreBlobsBelow next (rows_by rows batch) pending }
{}

/// Where the halves change places the rows are good still, and each is planned over them as before.
pub fn switches_keep_plans()
    ensures good { (sup : Super) (number : ℕ) (rows : Rows) → IsGood sup rows → IsGood (next_super sup number) rows }
    ensures planned { (sup : Super) (number : ℕ) (rows : Rows) (xs : List Intent) → EachIsPlanned sup rows xs
        → EachIsPlanned (next_super sup number) rows xs }
{}

/// A data unit is idle exactly where it isn't busy, after a submission that takes its units and after a commit that gives back what its batch
/// released, whoever holds these.
pub fn space_stays_counted()
    ensures submitted { (sup : Super) (rows : Rows) (xs : List Intent) (x : Intent) (space : Space)
        → HasDataUnits sup space → CanJoin sup rows xs x → SpaceIsCounted sup rows xs space
        → SpaceIsCounted sup rows (xs ++ x ∷ []) (taken space (fresh_units (plan_of x))) }
    ensures committed { (sup : Super) (rows : Rows) (batch pending : List Intent) (space : Space) → IsSuper sup → IsGood sup rows
        → EachIsPlanned sup rows (batch ++ pending) → AreTakenApart rows (batch ++ pending) → HaveHomes (width_of sup) rows (batch ++ pending)
        → HasDataUnits sup space → SpaceIsCounted sup rows (batch ++ pending) space
        → SpaceIsCounted sup (rows_by rows batch) pending (given space (released_by batch)) }
{}

/// What a batch released comes back one unit after the other, and none is idle until it is its turn.
pub fn released_come_back_in_turn()
    ensures { (sup : Super) (rows : Rows) (batch pending : List Intent) (space : Space) (front rest : List ℕ) (unit : ℕ) → IsGood sup rows
        → EachIsPlanned sup rows (batch ++ pending) → AreTakenApart rows (batch ++ pending)
        → HasDataUnits sup space → SpaceIsCounted sup rows (batch ++ pending) space → released_by batch ≡ front ++ unit ∷ rest
        → is_idle (given space front) unit ≡ false }
{}

/// Operations make rows longer by their own bytes at most. So the rows as one record take no more units than the records that made them, each of
/// which has a head and whole units of its own.
pub fn rows_are_no_longer_than_records()
    ensures after { (rows : Rows) (number : ℕ) (ops : List RowOp) → rows_units (rows_after rows ops) ≤ rows_units rows + unit_count number ops }
    ensures made { (number : ℕ) (records : List (List RowOp)) → rows_units (rows_of_records finite.empty records) ≤ units_of_records number records }
    ensures bytes { (rows : Rows) → rows_size rows ≤ 4096 * rows_units rows }
    ensures check { (number : ℕ) (rows : Rows) → check_units number rows ≡ rows_units rows }
{}

/// The committed rows stay within the records of the log, and the submitted ones within the committed ones and what is reserved: when a kernel is
/// opened, when a transaction joins that reserves enough, when the first ones are committed, whatever of what they had reserved is left over then, and when the
/// halves change places.
pub fn rows_stay_within_the_log()
    ensures opened { (p : RowsPart) → p.submitted ≡ p.rows → rows_units p.rows ≤ p.tail → AreRowsWithin p }
    ensures joined { (p : RowsPart) (x : Intent) (more : ℕ) → NeedsEnough x → AreRowsWithin p → AreRowsWithin (with_accepted x more p) }
    ensures applied { (p : RowsPart) (number : ℕ) (front back : List Intent) → p.submitted ≡ rows_by p.rows (front ++ back)
        → p.reserved ≡ needs_by front + needs_by back → AllByRecursion NeedsEnough back → AreRowsWithin p
        → AreRowsWithin (applied number front back p) }
    ensures rewritten { (p : RowsPart) (number : ℕ) → p.submitted ≡ rows_by p.rows p.intents → p.reserved ≡ needs_by p.intents
        → AllByRecursion NeedsEnough p.intents → AreRowsWithin (rewritten number p) }
{}

/// An example: a transaction takes unit 18, and a later one takes 19 and releases 18. While both are under way the bit of 18 is 0 in the committed
/// rows and in the submitted ones, and 18 is busy: the write of the earlier one may be in flight.
pub fn bits_do_not_tell()
    ensures committed { ¬ IsMarked no_rows 18 }
    ensures submitted { ¬ IsMarked (rows_by no_rows two) 18 }
    ensures busy { IsBusy no_rows (map (λ x. fresh_units (plan_of x)) two) 18 }
{}
