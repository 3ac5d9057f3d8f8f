//! The superblock and the log of a store: they are made, and found again on a device.
//!
//! In Ceph's BlueStore these are `mkfs`, and the part of `mount` that reads the superblock and replays the log. What is found is judged:
//! its rows, its bitmap and its numbers. What is behind its records is cleared.
//!
//! Proved: from a quiet device with any contents `mkfs` leaves a quiet one that stands for no collections and whose slot has the asked
//! numbers; it says TooSmall exactly where the device has fewer than 2H + 3 units, with both numbers, and leaves the device as it was; it
//! says that the device failed only where the device's count rose, and then, by the log of a device that tells it, nothing was submitted
//! after the call that failed; the device always comes back. `find_store` gives what the active slot and its log say; `judge` says
//! whether a kernel can be opened on that, or why not; `other_runs` says exactly which units of the other half aren't zero;
//! `clear_behind` leaves zeros behind the records, first over the unit behind the last one.
#![tactic(auto)]

mod calls;
mod clearing;
mod gathering;
mod half_reader;
mod judging;
mod making;
mod opening;
mod other_half;
mod presorting;
mod replaying;
mod stale;
mod zeroing;

pub use clearing::clear_behind;
pub use judging::{judge, next_blob};
pub use making::{MkfsFail, mkfs, units_needed};
pub use opening::{MountFail, failed};
pub use other_half::{other_runs, stale_runs};
pub use replaying::{FoundStore, find_store};
