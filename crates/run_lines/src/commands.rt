//! What runs a command line, and what that leaves.

use block_device::MemoryDevice;
use end_points::{MemoryBay, MemorySink};
use object_model::Book;
use std::alloc::Global;

/// What a run of a command line leaves.
#[derive(Drop)]
pub struct Ran {
    pub status: u8,
    /// The device, where one was asked for and given.
    pub dev: Option<MemoryDevice>,
    /// How many scripts came back.
    pub scripts: usize,
    /// The history of the mount.
    pub book: Book,
}

/// What runs command lines.
pub trait Commands: Drop {
    fn new() -> Self;

    /// Runs a command line over these ends. None where the bay has given something before.
    fn run(
        &self,
        alloc: Global,
        words: &Vec<String>,
        bay: &mut MemoryBay,
        sink: &mut MemorySink,
    ) -> Option<Ran>;
}
