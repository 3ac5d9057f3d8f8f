//! The steps of the kernel, in the order of their table.

/// One event of the kernel that no client asks for.
#[derive(Clone, Copy, Debug, PartialEq, Eq)]
pub enum Step {
    /// Submits the next data write of the context of least place.
    Data,
    /// Takes the end of one submission, if one is ready.
    Reap,
    /// Opens a batch, or a checkpoint where the batch's record is too long for what the half has left.
    Take,
    /// Submits the flush of the batch's data.
    Flush,
    /// Makes the batch's record.
    Seal,
    /// Submits the next piece of the record.
    Record,
    /// Submits the flush of the record.
    Sync,
    /// Applies the batch to the committed rows.
    Commit,
    /// Acknowledges the first committed transaction that isn't acknowledged yet.
    Finish,
    /// Submits the next piece of the checkpoint.
    CheckWrite,
    /// Submits the flush of the checkpoint.
    CheckFlush,
    /// Submits the next superblock, to the slot that isn't in use.
    SlotWrite,
    /// Submits the flush of the slot.
    SlotFlush,
    /// Has the halves change places.
    Switch,
}

/// All steps, in the order of their table.
pub const ALL_STEPS: [Step; 14] = [
    Step::Data,
    Step::Reap,
    Step::Take,
    Step::Flush,
    Step::Seal,
    Step::Record,
    Step::Sync,
    Step::Commit,
    Step::Finish,
    Step::CheckWrite,
    Step::CheckFlush,
    Step::SlotWrite,
    Step::SlotFlush,
    Step::Switch,
];
