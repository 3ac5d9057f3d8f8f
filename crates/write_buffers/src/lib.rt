//! Bytes of data units whose transactions aren't committed, in memory.
//!
//! In Ceph's BlueStore these are the buffers in `STATE_WRITING` of a `BufferSpace`.
//!
//! Proved: each call is that of a function from units to bytes. Of units in a row, `absent_from` tells how many aren't in memory before
//! the first that is.
#![tactic(auto)]

mod buffers;

pub use buffers::WriteBuffers;
