//! A raw block device: the trait that a store drives, the log that says what a crash may leave, and
//! a device in memory, which tells its log and gives those images.
//!
//! Proved: what each call does to the log and to what is in flight; which answer a device in memory gives, by its lists of waits and
//! failing calls; `image` is exactly the image of its tear, and one that a crash allows.
#![tactic(auto)]

mod device;
mod event;
mod image;
mod kind;
mod laws;
mod memory;
mod pending;

pub use device::{Back, Device, Done, Failed, Ticket};
pub use event::Event;
pub use image::Tear;
pub use kind::Kind;
pub use laws::{
    clean_has_one_image, crash_by_dirty, dirty_is_tested, flush_cleans, images_shrink,
    stable_is_good, torn_is_crash, write_dirties,
};
pub use memory::MemoryDevice;
