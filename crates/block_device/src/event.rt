// The events of a device's log.
use byte_maps::Bytes;

/// A submission, or that one is done. A ticket is where its submission stands in the log.
#[derive(Drop)]
pub enum Event {
    Write(u32, Bytes),
    Flush,
    Done(u64, bool),
}
