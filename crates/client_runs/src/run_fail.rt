//! Why a run of scripts ended early.

/// Why a run ended before all commands of its scripts were made and the kernel was drained.
#[derive(Clone, Copy)]
pub enum RunFail {
    /// Memory ran out.
    Memory,
    /// A submission ended badly: the kernel is down.
    Fault,
    /// The device failed at a read, that of a client or one of the old bytes that a transaction keeps. From then on no client went on, and
    /// steps alone were drawn.
    DeviceRead,
}
