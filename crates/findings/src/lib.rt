//! What `fsck` finds wrong with a store: the findings, and which of them a store has.
//!
//! In Ceph's BlueStore these are the errors that `fsck` counts.
//!
//! Proved: there is one list of findings of a store. Contents that stand for some objects with an exact bitmap have the empty list; the
//! empty list tells of no bad row, an exact bitmap and good pages; the first finding, or the least of its kind, is what a mount refuses
//! the store for.
#![tactic(auto)]

mod finding;
mod laws;

pub use finding::Finding;
pub use laws::{
    a_good_store_has_no_finding, findings_tell_what_a_mount_tells, one_list_of_findings,
    what_no_finding_tells,
};
