//! The calls of the next run that fail.

use crate::CaseError;
use crate::words::{Words, look_up, number};
use block_device::Kind;
use end_points::Call;
use std::alloc::Global;

/// The calls of the next run that fail, by number from 0 within their kind.
#[derive(Drop)]
pub struct Fails {
    pub device: Vec<(Kind, u64)>,
    pub bay: Vec<(Call, u64)>,
    pub source: Vec<u64>,
    pub sink: Vec<u64>,
}

/// Whose call fails, and of which kind it is.
#[derive(Clone, Copy)]
enum Failing {
    Device(Kind),
    Bay(Call),
    Source,
    Sink,
}

/// What a line calls them.
static FAILING: [(&str, Failing); 7] = [
    ("read", Failing::Device(Kind::Read)),
    ("write", Failing::Device(Kind::Write)),
    ("flush", Failing::Device(Kind::Flush)),
    ("device", Failing::Bay(Call::Device)),
    ("script", Failing::Bay(Call::Script)),
    ("source", Failing::Source),
    ("sink", Failing::Sink),
];

/// Adds an item to a list.
fn add<T: Drop>(all: &mut Vec<T>, item: T) -> Result<(), CaseError> {
    all.push(item).map_err(CaseError::from)
}

impl Fails {
    /// No call fails.
    pub fn new(alloc: Global) -> Fails {
        Fails {
            device: Vec::new(alloc),
            bay: Vec::new(alloc),
            source: Vec::new(alloc),
            sink: Vec::new(alloc),
        }
    }

    /// Has this read of a device fail.
    pub fn fail_read(&mut self, at: u64) -> Result<(), CaseError> {
        add(&mut self.device, (Kind::Read, at))
    }

    fn fail(&mut self, what: Failing, at: u64) -> Result<(), CaseError> {
        match what {
            Failing::Device(kind) => add(&mut self.device, (kind, at)),
            Failing::Bay(call) => add(&mut self.bay, (call, at)),
            Failing::Source => add(&mut self.source, at),
            Failing::Sink => add(&mut self.sink, at),
        }
    }

    /// Follows the words WHAT and NUMBER: that call fails. WHAT is `read`, `write` or `flush` of a device, `device` or `script` of
    /// the bay, a read of a `source`, or a write of the `sink`.
    pub fn follow(&mut self, words: Words<'_>) -> Result<(), CaseError> {
        let (what, at) = words.last_two()?;
        match (look_up(&FAILING, what), number(at)) {
            (Some(what), Ok(at)) => self.fail(what, at),
            _ => Err(CaseError::Line("no such call")),
        }
    }
}
