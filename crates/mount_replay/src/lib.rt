//! Mounting a store, and unmounting it: what is done to a device before and after the kernel works on it.
//!
//! Proved: it opens the store that the device holds on exactly the rows that the records of its log make, with an empty book, with
//! nothing under way, and with exactly the data units free whose bits are 0. Where the device tells its contents and is quiet, each
//! refusal comes by the contents: NoSuper where neither slot is valid; BadRow with the least key of a bad row; NotExact with the least
//! unit that has an owner and isn't marked, that has two owners, or that is that of a slot with a wrong count; WornOut with the first
//! number that is too high: the epoch, the next record's number, or the greatest number of a shared blob. A mount that answers one of
//! these has submitted nothing. One that opens such a store has made exactly these events and no others: where the unit behind the
//! records isn't zero, zeros over it and a flush; then, where other units behind them aren't zero, zeros over these in maximal runs of
//! at most 64, and a flush; each was awaited before the next. Of one that a fault or want of memory ends on the way it is claimed that
//! the device comes back, later in its life, and what follows here. Each crash on the way leaves the objects that the contents stood
//! for, unless something torn is valid by chance, also where a write or a flush of the mount ends badly (clause `durable`, word
//! `MountStaysDurable`). So recovery may itself be cut, and cut again.
#![tactic(auto)]

mod laws;
mod mounting;

pub use laws::a_mount_opens_the_objects;
pub use log_replay::{MkfsFail, MountFail, mkfs, units_needed};
pub use mounting::{mount, unmount};
