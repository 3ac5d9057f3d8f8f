//! What a run leaves.

use object_model::Book;

/// What a run leaves: its exit status, the device and the sources that the bay gave, and the history of the mount.
#[derive(Drop)]
pub struct Outcome<D, S> {
    /// The exit status, as `Status::number` gives it.
    pub status: u8,
    /// The device, where the bay gave one.
    pub dev: Option<D>,
    /// The scripts that the bay opened, in order.
    pub sources: Vec<S>,
    /// The entries and commits of the mount; empty where nothing was mounted.
    pub book: Book,
    /// A byte for each turn of a run in threads, and else empty.
    pub turns: Vec<u8>,
}
