//! How a run ends, and the exit statuses.
ghost use Rattle.std.specs.Prelude.{◌≡◌};
ghost use Rattle.run_texts.specs.Status.{number, stop_number};

/// Why a run stopped before its work was done: the first cause in time.
#[derive(Clone, Copy)]
pub enum Stop {
    /// A script has a line outside the grammar.
    BadScript = 2,
    /// The device failed.
    DeviceFault = 3,
    /// The store isn't made or mounted, for what the device is or holds; or a unit of an object was met whose bytes have another
    /// checksum than the one that is kept for it, whether or not the work was done.
    Refused = 4,
    /// Memory ran out.
    OutOfMemory = 5,
    /// The bay or a source failed.
    BayFault = 7,
}

impl Stop {
    /// The exit status.
    pub fn number(self) -> u8
        ensures { result ≡ stop_number self }
    {
        self as u8
    }
}

/// How a run ended.
#[derive(Clone, Copy)]
pub enum Status {
    /// The work was done.
    Done,
    /// The words aren't a command line.
    NotACommandLine,
    /// The work wasn't done.
    Stopped(Stop),
    /// The sink failed, whatever became of the work.
    SinkFault,
}

impl Status {
    /// The exit status.
    pub fn number(self) -> u8
        ensures { result ≡ number self }
    {
        match self {
            Status::Done => 0,
            Status::NotACommandLine => 1,
            Status::Stopped(stop) => stop.number(),
            Status::SinkFault => 6,
        }
    }
}
