//! `fsck`: everything that is wrong with a store on a device. It reads, and submits nothing.
//!
//! Proved: `fsck` leaves the device as it was, with nothing submitted. What an Ok gives are all findings of the rows that the records of
//! the log make, that of the greatest epoch, over what the units hold (`FoundAll`): the bad rows; or where there is none, the pages whose
//! bytes have another checksum than the one that is kept, by their extent or by the slot of a shared blob on which they stand, then the
//! units that are leaked, that aren't marked or that have two owners, and the slots with wrong counts. Of a device that tells its contents
//! there is one list of them, by the laws of `findings`. NoSuper comes only where the device tells no valid slot, Fault only where the
//! count of faults rose.
#![tactic(auto)]

mod checking;
mod fail;
mod sums;

pub use checking::fsck;
pub use fail::FsckFail;
pub use findings::Finding;
