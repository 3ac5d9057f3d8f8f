//! Rows of the metadata store, and the row operations that change them.
//!
//! In Ceph's BlueStore these are the sets, deletes and merges of a RocksDB write batch.
//!
//! Proved: `encode` is the spelling, `encoded_len` its length, `decode` gives operations exactly where bytes are one; `RowTable::apply`
//! is what the operations make of the rows, by room made beforehand, and `apply_all` the same of any number of operations, with what
//! memory that takes, or the table stays as it was; `range` lends the rows of a range of keys. The operations that set each row make the
//! rows; their bytes are spelled part by part from the table, from a cursor on, which goes any number of bytes on or back, and those of
//! any operations from one that goes on.
#![tactic(auto)]

mod chunk;
mod chunk_list;
mod filling;
mod laws;
mod merging;
mod op_cursor;
mod part;
mod reading;
mod row_change;
mod row_cursor;
mod row_op;
mod row_range;
mod row_table;
mod writing;

pub use laws::{
    one_list_for_a_spelling, operations_one_after_another, other_rows_stay,
    rows_grow_by_their_operations, rows_stay_fit, set_row_is_there, sets_make_the_rows,
};
pub use op_cursor::OpCursor;
pub use reading::decode;
pub use row_cursor::RowCursor;
pub use row_op::RowOp;
pub use row_range::RowRange;
pub use row_table::RowTable;
pub use writing::{encode, encoded_len};
