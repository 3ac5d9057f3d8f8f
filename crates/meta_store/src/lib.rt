//! The store of metadata rows over the log: the committed rows, and where the log stands.
//!
//! It has the place of RocksDB over BlueFS in Ceph's BlueStore. A record at a time is begun, given to the device piece by piece, and
//! applied to the rows once a flush has made it stable; before that the rows are as they were.
//!
//! A checkpoint writes all rows as one record into the half of the log that isn't in use, and zeros over what is stale there; then the
//! halves change places. No record is written meanwhile.
//!
//! Proved: each call is an equation of the record `Meta`; MetaFull exactly where the units asked for are more than the room. Each
//! piece of a checkpoint has the units that the other half is to hold there: those of the record of the rows, and zeros behind it.
#![tactic(auto)]

mod check;
mod full;
mod store;

pub use check::CheckPiece;
pub use full::MetaFull;
pub use store::MetaStore;
