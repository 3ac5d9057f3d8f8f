//! How the work of a command that mounts a store ends.
ghost use Rattle.std.specs.Prelude.{◌≡◌};
ghost use Rattle.run_texts.specs.StepTexts.{work_status};

use crate::{Status, Stop};
use byte_maps::Bytes;

/// How the work of `step` or of `dump` ended, before anything of it was printed.
#[derive(Drop)]
pub enum WorkEnd {
    /// The scripts have ended and the kernel is drained, or the walk has come to its end.
    Done {
        /// The free data units.
        free: u32,
    },
    /// A line of a script is outside the grammar or the limits, the first such line of the first such script. The device wasn't
    /// opened.
    BadLine {
        /// The script's number, which is its client's.
        script: u32,
        /// The line's number.
        n: u32,
    },
    /// The device holds no store.
    NoSuper,
    /// A row of the store is bad, the first in the order of keys.
    BadRow {
        key: Bytes,
    },
    /// The bitmap doesn't say who owns a unit, the least such one: it has an owner and isn't marked, or two owners.
    NotExact {
        unit: u32,
    },
    /// The numbers of the store are used up.
    WornOut,
    /// The device failed, at a write, a flush or a read.
    DeviceFault,
    OutOfMemory,
    /// The bay failed, or the source of a script did.
    BayFault,
    /// The sink failed, and the walk went no further.
    SinkFault,
}

impl WorkEnd {
    /// How a run has ended whose work ended so, unless it has met a bad unit.
    pub fn status(&self) -> Status
        ensures { result ≡ work_status self.now }
    {
        match self {
            WorkEnd::Done { .. } => Status::Done,
            WorkEnd::BadLine { .. } => Status::Stopped(Stop::BadScript),
            WorkEnd::NoSuper
            | WorkEnd::BadRow { .. }
            | WorkEnd::NotExact { .. }
            | WorkEnd::WornOut => Status::Stopped(Stop::Refused),
            WorkEnd::DeviceFault => Status::Stopped(Stop::DeviceFault),
            WorkEnd::OutOfMemory => Status::Stopped(Stop::OutOfMemory),
            WorkEnd::BayFault => Status::Stopped(Stop::BayFault),
            WorkEnd::SinkFault => Status::SinkFault,
        }
    }
}
