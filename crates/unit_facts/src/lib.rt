//! What is known of a device that tells its log, from one call of the kernel to the next: its slots, both halves of its log, and the
//! units that transactions under way have taken.
//!
//! Proved: each call keeps it; once drained no unit is dirty.
#![tactic(auto)]

mod laws;

pub use laws::{
    a_call_keeps_what_is_known, a_drained_kernel_leaves_no_dirty_unit, a_found_device_is_known,
    a_run_keeps_what_is_known,
};
