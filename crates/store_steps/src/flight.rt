//! What is in flight, and what it is for.

use block_device::Ticket;

/// How far a flush is, or the write of a superblock.
#[derive(Clone, Copy)]
pub enum FlushState {
    NotSent,
    /// It is in flight.
    Sent(Ticket),
    /// It has ended well.
    Flushed,
}

/// A switch of halves: how far its three single submissions are, of which each comes when the one before it has ended.
#[derive(Clone, Copy)]
pub struct Switching {
    /// The flush behind the checkpoint.
    pub flush: FlushState,
    /// The write of the next superblock.
    pub slot: FlushState,
    /// The flush behind that.
    pub slot_flush: FlushState,
}

/// What a submission is for.
#[derive(Clone, Copy)]
pub enum Job {
    /// A data write of so many units, of the context at this place of the book.
    Data { place: u32, count: u32 },
    /// The flush of a batch before its record.
    DataFlush,
    /// A piece of the batch's record.
    Record,
    /// The flush behind the record.
    RecordFlush,
    /// A piece of a checkpoint, in the half of the log that isn't in use.
    Check,
    /// The flush behind a checkpoint.
    CheckFlush,
    /// The next superblock, in the slot that isn't in use.
    Slot,
    /// The flush behind it.
    SlotFlush,
}

/// A submission in flight.
#[derive(Clone, Copy)]
pub struct Flying {
    pub ticket: Ticket,
    pub job: Job,
}
