//! The log of the metadata store as it lies on the device: two superblock slots, and records one behind another in two halves.
//!
//! It stands in the place of RocksDB's write-ahead log and of BlueFS under it in Ceph's BlueStore; the slots are its superblock.
//!
//! Proved: one active slot, one list of records; `Super::read` is None exactly where a slot isn't valid; a sealed record's pieces are the
//! record's units, its head last, and so are those of the record of a table's rows, each spelled from the table alone; `record_units`
//! says by the head alone how many units a record takes; `scan` finds exactly the valid records of a half.
#![tactic(auto)]

mod laws;
mod rows_record;
mod runs;
mod scanning;
mod sealed;
mod slot;

pub use laws::{
    each_unit_in_one_piece, found_records_make_the_rows, last_piece_has_the_head, one_active_slot,
    one_list_of_records, one_more_record, one_super_in_a_slot, pieces_lie_in_a_row,
    pieces_of_a_checkpoint, units_of_a_record,
};
pub use rows_record::{RowsPiece, RowsRecord};
pub use runs::{UnitRun, check_runs};
pub use scanning::{FoundLog, FoundRecord, read_record, record_units, scan};
pub use sealed::{HEAD_BYTES, SealedRecord, units_of_body};
pub use slot::Super;
