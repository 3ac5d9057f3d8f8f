//! What a case has set up, and the lines that say it.

use crate::contents::{Change, push_slot};
use crate::named::{bytes_of, put};
use crate::spelling::Spelling;
use crate::words::{Words, kind_of, read_hex, small};
use crate::{CaseError, Fails, Named};
use std::alloc::Global;

/// The kinds of lines that set something up.
#[derive(Clone, Copy)]
enum LineKind {
    /// `device NAME UNITS`: a device of zeros.
    Device,
    /// `store NAME HALF UNITS EPOCH`: an empty store.
    Store,
    /// `copy NAME NAME`: a device under another name too.
    Copy,
    /// `WORD NAME ..`: a device that is changed.
    Change(Change),
    /// `script NAME`: begins a script without text.
    Script,
    /// `| TEXT`, and `|` alone: a line of the last script.
    Line,
    /// `> "TEXT"`: adds text without an end of line to the last script.
    Text,
    /// `repeat COUNT TEXT`: adds the text so many times.
    Repeat,
    /// `lines COUNT TEXT`: adds the text so many times, each with an end of line.
    Lines,
    /// `digits DIGITS`: adds these bytes.
    Digits,
    /// `lags N N ..`: how many reaps a device's submissions wait.
    Lags,
    /// `source STEP`: the most bytes of a read of a script.
    Source,
    /// `sink ROOM STEP`: the sink's room, and the most bytes of a write.
    Sink,
    /// `fail WHAT NUMBER`: a call of the next run that fails.
    Fail,
}

/// The first words of these lines.
static LINE_KINDS: [(&str, LineKind); 18] = [
    ("device", LineKind::Device),
    ("store", LineKind::Store),
    ("copy", LineKind::Copy),
    ("bytes", LineKind::Change(Change::Bytes)),
    ("fill", LineKind::Change(Change::Fill)),
    ("turn", LineKind::Change(Change::Turn)),
    ("slot", LineKind::Change(Change::Slot)),
    ("record", LineKind::Change(Change::Record)),
    ("script", LineKind::Script),
    ("|", LineKind::Line),
    (">", LineKind::Text),
    ("repeat", LineKind::Repeat),
    ("lines", LineKind::Lines),
    ("digits", LineKind::Digits),
    ("lags", LineKind::Lags),
    ("source", LineKind::Source),
    ("sink", LineKind::Sink),
    ("fail", LineKind::Fail),
];

/// How many reaps a submission waits, in decimal.
fn lag_of(word: &str) -> Result<u8, CaseError> {
    word.parse::<u8>().ok().ok_or(CaseError::Line("no lag"))
}

/// Adds bytes and an end, so many times.
fn add_repeated(all: &mut Vec<u8>, count: u32, bytes: &[u8], end: &[u8]) -> Result<(), CaseError> {
    for _ in 0..count {
        all.extend_from_slice(bytes)?;
        all.extend_from_slice(end)?;
    }
    Ok(())
}

/// What a case has set up. At first there is no device and no script; submissions wait for two reaps, a read of a script gives
/// 7 bytes, and the sink has room for 4000 bytes, of which a call takes at most 50.
#[derive(Drop)]
pub struct Setup {
    pub alloc: Global,
    pub devices: Vec<Named>,
    pub scripts: Vec<Named>,
    /// How many reaps a device's submissions wait, one after another.
    pub lags: Vec<u8>,
    pub source_step: u32,
    pub room: usize,
    pub sink_step: u32,
    pub fails: Fails,
}

impl Setup {
    /// Nothing is set up.
    pub fn new(alloc: Global) -> Result<Setup, CaseError> {
        Ok(Setup {
            alloc,
            devices: Vec::new(alloc),
            scripts: Vec::new(alloc),
            lags: vec![in alloc; 2u8]?,
            source_step: 7,
            room: 4000,
            sink_step: 50,
            fails: Fails::new(alloc),
        })
    }

    /// Follows a line that sets something up, a comment or an empty line; false where it is none of these.
    pub fn follow(&mut self, line: &str) -> Result<bool, CaseError> {
        if line.is_empty() || line.starts_with('#') {
            return Ok(true);
        }
        match kind_of(&LINE_KINDS, line) {
            Some((kind, words)) => self.set(kind, words).and(Ok(true)),
            None => Ok(false),
        }
    }

    fn set(&mut self, kind: LineKind, words: Words<'_>) -> Result<(), CaseError> {
        match kind {
            LineKind::Device => self.set_device(words),
            LineKind::Store => self.set_store(words),
            LineKind::Copy => self.set_copy(words),
            LineKind::Change(how) => self.set_changed(how, words),
            LineKind::Script => self.set_script(words),
            LineKind::Line => self.repeat(1, words.text().as_bytes(), b"\n"),
            LineKind::Text => self.repeat(1, words.quoted()?.as_bytes(), b""),
            LineKind::Repeat => self.add_lines(words, b""),
            LineKind::Lines => self.add_lines(words, b"\n"),
            LineKind::Digits => self.add_digits(words),
            LineKind::Lags => self.set_lags(words),
            LineKind::Source => self.set_source(words),
            LineKind::Sink => self.set_sink(words),
            LineKind::Fail => self.fails.follow(words),
        }
    }

    /// The contents under a name.
    pub fn bytes(&self, name: &str) -> Result<&[u8], CaseError> {
        bytes_of(&self.devices, name).ok_or(CaseError::Line("no such device"))
    }

    /// A copy of the contents under a name.
    pub fn contents(&self, name: &str) -> Result<Vec<u8>, CaseError> {
        match self.bytes(name) {
            Ok(bytes) => bytes.to_vec(self.alloc).map_err(CaseError::from),
            Err(wrong) => Err(wrong),
        }
    }

    /// The text of a script.
    pub fn script(&self, name: &str) -> Result<&[u8], CaseError> {
        bytes_of(&self.scripts, name).ok_or(CaseError::Line("no such script"))
    }

    /// Puts a device of these contents under a name.
    pub fn put_device(&mut self, name: &str, contents: Vec<u8>) -> Result<(), CaseError> {
        put(self.alloc, &mut self.devices, name, contents)
    }

    /// Puts a device of a copy of these contents under a name.
    pub fn put_copy(&mut self, name: &str, contents: &[u8]) -> Result<(), CaseError> {
        match contents.to_vec(self.alloc) {
            Ok(contents) => self.put_device(name, contents),
            Err(_) => Err(CaseError::OutOfMemory),
        }
    }

    /// Puts a script of this text under a name.
    pub fn put_script(&mut self, name: &str, text: &[u8]) -> Result<(), CaseError> {
        match text.to_vec(self.alloc) {
            Ok(text) => put(self.alloc, &mut self.scripts, name, text),
            Err(_) => Err(CaseError::OutOfMemory),
        }
    }

    /// Puts a device of so many units under a name, which begins with this and is zeros from there on.
    fn put_spelled(
        &mut self,
        name: &str,
        units: u64,
        mut front: Spelling,
    ) -> Result<(), CaseError> {
        front.resize(units.saturating_mul(4096), 0);
        match front.finish() {
            Ok(contents) => self.put_device(name, contents),
            Err(wrong) => Err(wrong),
        }
    }

    fn set_device(&mut self, mut words: Words<'_>) -> Result<(), CaseError> {
        let name = words.next()?;
        let [units] = words.numbers::<1>()?;
        self.put_spelled(name, units, Spelling::new(self.alloc))
    }

    fn set_store(&mut self, mut words: Words<'_>) -> Result<(), CaseError> {
        let name = words.next()?;
        let [half, units, epoch] = words.numbers::<3>()?;
        let mut front = Spelling::new(self.alloc);
        push_slot(&mut front, [half, units, epoch, 0]);
        self.put_spelled(name, units, front)
    }

    fn set_copy(&mut self, words: Words<'_>) -> Result<(), CaseError> {
        let (from, to) = words.last_two()?;
        match self.contents(from) {
            Ok(contents) => self.put_device(to, contents),
            Err(wrong) => Err(wrong),
        }
    }

    fn set_changed(&mut self, how: Change, mut words: Words<'_>) -> Result<(), CaseError> {
        let name = words.next()?;
        let at = how.place(words.number()?);
        match how.spell(self.alloc, words) {
            Ok(bytes) => self.change(how, name, at, &bytes),
            Err(wrong) => Err(wrong),
        }
    }

    /// Changes the device of a name by bytes that are laid from a place on.
    fn change(
        &mut self,
        how: Change,
        name: &str,
        at: usize,
        bytes: &[u8],
    ) -> Result<(), CaseError> {
        for device in &mut self.devices {
            if device.name.as_str() == name {
                return how.make(&mut device.bytes, at, bytes);
            }
        }
        Err(CaseError::Line("no such device"))
    }

    fn set_script(&mut self, words: Words<'_>) -> Result<(), CaseError> {
        self.put_script(words.last()?, &[])
    }

    /// Adds bytes and an end to the last script, so many times.
    fn repeat(&mut self, count: u32, bytes: &[u8], end: &[u8]) -> Result<(), CaseError> {
        match self.scripts.last_mut() {
            Some(script) => add_repeated(&mut script.bytes, count, bytes, end),
            None => Err(CaseError::Line("no script")),
        }
    }

    fn add_lines(&mut self, mut words: Words<'_>, end: &[u8]) -> Result<(), CaseError> {
        let count = words.small()?;
        self.repeat(count, words.text().as_bytes(), end)
    }

    fn add_digits(&mut self, words: Words<'_>) -> Result<(), CaseError> {
        match read_hex(self.alloc, words.text()) {
            Ok(bytes) => self.repeat(1, &bytes, b""),
            Err(wrong) => Err(wrong),
        }
    }

    fn set_lags(&mut self, words: Words<'_>) -> Result<(), CaseError> {
        let mut lags = Spelling::new(self.alloc);
        for word in words.text().split(' ') {
            let lag = lags.read_or(lag_of(word), 0);
            lags.push(&[lag]);
        }
        self.lags = lags.finish()?;
        Ok(())
    }

    fn set_source(&mut self, words: Words<'_>) -> Result<(), CaseError> {
        self.source_step = words.last().and_then(small)?;
        Ok(())
    }

    fn set_sink(&mut self, words: Words<'_>) -> Result<(), CaseError> {
        let [room, step] = words.numbers::<2>()?;
        self.room = room as usize;
        self.sink_step = u32::try_from(step).unwrap_or(u32::MAX);
        Ok(())
    }
}
