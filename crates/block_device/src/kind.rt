// The kinds of calls that a device in memory can be told to fail.

/// A kind of call that can be made to fail. Calls are numbered from 0 within their kind.
#[derive(Clone, Copy)]
pub enum Kind {
    /// `submit_write`: its bytes are laid all the same, and its end is bad.
    Write,
    /// `submit_flush`: its end is bad, and it makes nothing stable.
    Flush,
    /// `read`: it answers `Fault`.
    Read,
}
