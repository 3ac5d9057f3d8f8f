//! The refusal of a log without room.

use thiserror::Error;

/// More units of the log were asked for than are free.
#[derive(Clone, Copy, Debug, Error)]
#[error("{need} units of the log are needed, and {room} are free")]
pub struct MetaFull {
    /// The units that were asked for.
    pub need: u32,
    /// The units of a half that neither the rows take as one record, nor are set aside.
    pub room: u32,
}
