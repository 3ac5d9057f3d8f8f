//! What a device holds while the kernel runs, and what a crash at each moment leaves of it: the objects after a front of the commits,
//! among which is each that was acknowledged. And each entry of its book has the answer that plain objects give, to
//! reads too. What is known is kept by each call, so it holds at the end of each run, up or down.
//!
//! Proved: each call keeps it, up or down: prefix durability of runs, what a kernel keeps of its device, and that reads give what plain
//! objects have, whatever is under way.
#![tactic(auto)]

mod laws;

pub use laws::{
    a_call_keeps_a_store_durable, a_call_keeps_durability, a_drained_run_stands,
    a_drained_store_stands, a_durable_book_is_legal, a_kernel_is_durable,
    a_mounted_store_is_durable, a_mounted_store_keeps_durability, a_run_keeps_a_store_durable,
    a_store_can_be_read, each_crash_leaves_a_prefix,
};
