//! The rows that a transaction changes, laid over the rows in memory, which stay as they are.
//!
//! Proved: changes laid over rows are a finite map from keys to values, or to none where a row goes; their difference to the rows is
//! operations after which each key has what was seen under it: in the order of their keys, each key once and only if it is changed, with
//! no Drop of a row that isn't there and no Set of the value that is.
#![tactic(auto)]

mod difference;
mod row_change;
mod row_changes;

pub use row_changes::RowChanges;
