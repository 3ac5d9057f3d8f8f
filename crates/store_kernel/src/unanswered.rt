//! Why a read has no answer.

use block_device::Ticket;
use object_model::Read;

/// Why a read was not answered. Nothing was noted, and the read comes back.
#[derive(Drop)]
pub enum Unanswered {
    /// The kernel is down, since the submission with this ticket ended badly.
    Down { ticket: Ticket, back: Read },
    /// The book has as many entries as it may have.
    BookFull(Read),
    /// The device failed at a read, and has counted it.
    DeviceRead(Read),
    /// Memory ran out.
    Memory(Read),
}

/// Why a walk can't go on.
#[derive(Clone, Copy)]
pub enum WalkFail {
    /// The kernel is down, since the submission with this ticket ended badly.
    Down { ticket: Ticket },
    /// The device failed at a read, and has counted it.
    DeviceRead,
    /// Memory ran out.
    Memory,
}
