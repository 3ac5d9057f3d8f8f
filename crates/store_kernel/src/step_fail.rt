//! Why a step wasn't made, or ended badly.

/// Why a step didn't do what it does.
#[derive(Clone, Copy)]
pub enum StepFail {
    /// Memory ran out, and nothing was done.
    Memory,
    /// A submission ended badly, and its end was taken: the kernel is down.
    Fault,
}
