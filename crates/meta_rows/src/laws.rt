//! What the definitions of rows come to.

ghost use Rattle.std.specs.Prelude.{◌≡◌, ◌≤◌, ◌+◌, ℕ, List, ◌++◌, length, Some};
ghost use Rattle.std.specs.FinMap as map;
ghost use Rattle.meta_rows.specs.Rows.{Rows, row_after, rows_after, LeaveAlone};
ghost use Rattle.meta_rows.specs.Spelling.{ops_bytes, AllFit};
ghost use Rattle.meta_rows.specs.Sets.{row_sets, RowsFit};
ghost use Rattle.meta_rows.specs.Table.{rows_size};
ghost use Rattle.meta_rows.specs.declared.row_op.RowOp.{RowOp};
ghost use Rattle.meta_rows.specs.declared.row_op.RowOp.TheVariants.{Set};

/// Operations in a row may be cut in two anywhere.
pub fn operations_one_after_another()
    ensures { (rows : Rows) (front back : List RowOp) → rows_after rows (front ++ back) ≡ rows_after (rows_after rows front) back }
{}

/// Bytes are the spelling of at most one list of operations.
pub fn one_list_for_a_spelling()
    ensures { (a b : List RowOp) → AllFit a → AllFit b → ops_bytes a ≡ ops_bytes b → a ≡ b }
{}

/// A row that was set has the value.
pub fn set_row_is_there()
    ensures { (rows : Rows) (key value : List ℕ) → map.get (row_after rows (Set key value)) key ≡ Some value }
{}

/// Operations of other keys leave a row as it is.
pub fn other_rows_stay()
    ensures { (rows : Rows) (ops : List RowOp) (key : List ℕ) → LeaveAlone ops key → map.get (rows_after rows ops) key ≡ map.get rows key }
{}

/// The rows grow by the bytes of the operations at most: all of them fit one record no longer than the records that made them.
pub fn rows_grow_by_their_operations()
    ensures { (rows : Rows) (ops : List RowOp) → rows_size (rows_after rows ops) ≤ rows_size rows + length (ops_bytes ops) }
{}

/// The operations that set each row make the rows, over none. Their spelling, which they have where each row fits, is as long as the rows are.
pub fn sets_make_the_rows()
    ensures made { (rows : Rows) → rows_after map.empty (row_sets rows) ≡ rows }
    ensures fit { (rows : Rows) → RowsFit rows → AllFit (row_sets rows) }
    ensures size { (rows : Rows) → length (ops_bytes (row_sets rows)) ≡ rows_size rows }
{}

/// Rows fit where operations that do make them: no rows do, and each operation leaves them so.
pub fn rows_stay_fit()
    ensures none { RowsFit map.empty }
    ensures after { (rows : Rows) (ops : List RowOp) → RowsFit rows → AllFit ops → RowsFit (rows_after rows ops) }
{}
