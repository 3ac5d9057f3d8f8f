//! One row under change.
use byte_maps::Bytes;

/// What becomes of the row of a key: it gets this value, or it goes where there is none.
#[derive(Drop)]
pub struct RowChange {
    pub key: Bytes,
    pub value: Option<Bytes>,
}
