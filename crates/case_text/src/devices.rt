//! What devices in memory hold.

use block_device::{MemoryDevice, Tear};
use std::alloc::AllocError;

/// The bytes that a device was last written.
pub fn last_written(dev: &MemoryDevice) -> Result<Vec<u8>, AllocError> {
    dev.image(dev.events(), Tear::New)
}
