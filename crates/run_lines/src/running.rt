//! Runs of commands over what a case has set up.

use crate::case::{LineKind, RunKind};
use crate::{Case, Commands};
use block_device::{Device, MemoryDevice};
use case_text::{CaseError, Follow, Text, Words, last_written, number, print_text, unquoted};
use end_points::{MemoryBay, MemorySink};
use std::alloc::Global;
use std::mem;

/// What `step` prints where the first line of its script is bad.
const BAD_LINE: &str = "script 0 line 1\nstopped 2\n";

/// The words of a run of the script `script`.
const STEP_WORDS: &str = "bstore step dev --seed 1 script";

/// Shows a status, and how many units the device has that came back.
fn print_ended(status: u8, dev: Option<&MemoryDevice>, out: &mut Text) {
    let Some(dev) = dev else {
        return out.println(format_args!("status {status}, no device"));
    };
    out.println(format_args!("status {status}, a device of {} units", dev.units()));
    if dev.in_flight() != 0 {
        out.println(format_args!("{} calls in flight", dev.in_flight()));
    }
}

/// Whether a text says what is wrong with words, or how to use the program.
fn tells_usage(text: &[u8]) -> bool {
    match str::from_utf8(text) {
        Ok(text) => text.starts_with("error: ") || text.contains("Usage: bstore"),
        Err(_) => false,
    }
}

/// Adds the words of a line, with a number in the place of the word `N`.
fn push_words(
    alloc: Global,
    all: &mut Vec<String>,
    line: &str,
    number: &str,
) -> Result<(), CaseError> {
    for word in line.split_terminator(' ') {
        let word = if word == "N" { number } else { unquoted(word) };
        all.push(String::from_str(alloc, word)?)?;
    }
    Ok(())
}

impl<C: Commands> Case<C> {
    /// Runs a command line over these ends, and keeps what came.
    fn run_over(
        &mut self,
        words: &Vec<String>,
        bay: &mut MemoryBay,
        sink: &mut MemorySink,
    ) -> Result<(), CaseError> {
        self.setup.put_devices(bay)?;
        self.setup.put_scripts(bay)?;
        match self.commands.run(self.alloc, words, bay, sink) {
            Some(ran) => drop(mem::replace(&mut self.ran, ran)),
            None => return Err(CaseError::Line("no run")),
        }
        self.keep_text(sink.text())
    }

    /// Keeps what a run printed, and what the one before it printed.
    fn keep_text(&mut self, text: &[u8]) -> Result<(), CaseError> {
        match text.to_vec(self.alloc) {
            Ok(text) => self.before = mem::replace(&mut self.text, text),
            Err(_) => return Err(CaseError::OutOfMemory),
        }
        Ok(())
    }

    /// Runs a command line over what is set up and this sink.
    fn run_into(&mut self, words: &Vec<String>, sink: &mut MemorySink) -> Result<(), CaseError> {
        match self.setup.bay() {
            Ok(mut bay) => self.run_over(words, &mut bay, sink),
            Err(wrong) => Err(wrong),
        }
    }

    /// Runs a command line over what is set up. The calls that were to fail are those of this run alone.
    fn run(&mut self, words: &Vec<String>) -> Result<(), CaseError> {
        match self.setup.sink() {
            Ok(mut sink) => self.run_into(words, &mut sink),
            Err(wrong) => Err(wrong),
        }
    }

    /// Runs a line of words, with a number in the place of the word `N`.
    fn run_numbered(&mut self, line: &str, number: &str) -> Result<(), CaseError> {
        let mut words = Vec::new(self.alloc);
        match push_words(self.alloc, &mut words, line, number) {
            Ok(()) => self.run(&words),
            Err(wrong) => Err(wrong),
        }
    }

    /// Runs a line of words.
    pub fn run_line(&mut self, line: &str) -> Result<(), CaseError> {
        self.run_numbered(line, "N")
    }
}

impl<C: Commands> Case<C> {
    /// Shows what the last run printed, and how it ended.
    pub fn print_run(&self, out: &mut Text) {
        print_text(out, &self.text);
        print_ended(self.ran.status, self.ran.dev.as_ref(), out);
    }

    /// Follows a line that runs something or shows more of the last run, from its second word on.
    pub fn act(
        &mut self,
        kind: LineKind,
        line: &str,
        words: Words<'_>,
        out: &mut Text,
    ) -> Result<(), CaseError> {
        match kind {
            LineKind::Keep => self.keep(words),
            LineKind::FailBehindMount => self.fail_behind_mount(words),
            LineKind::Show => self.show(words, out),
            LineKind::Run(kind) => {
                out.println(line);
                self.run_kind(kind, words, out)
            }
        }
    }

    fn run_kind(
        &mut self,
        kind: RunKind,
        words: Words<'_>,
        out: &mut Text,
    ) -> Result<(), CaseError> {
        match kind {
            RunKind::Words => self.run_words(words, out),
            RunKind::Each => self.run_each(words, out),
            RunKind::Usage => self.run_usage(words, out),
            RunKind::Bad => self.run_bad(words.quoted()?, out),
        }
    }

    fn run_words(&mut self, words: Words<'_>, out: &mut Text) -> Result<(), CaseError> {
        self.run_line(words.text())?;
        self.print_run(out);
        Ok(())
    }

    /// A run for each of these numbers. All must print the same; the last one is kept.
    fn run_each(&mut self, mut words: Words<'_>, out: &mut Text) -> Result<(), CaseError> {
        let first = words.small()?;
        let end = words.small()?;
        for number in first..end {
            self.run_with(words.text(), number, number == first)?;
        }
        self.print_run(out);
        Ok(())
    }

    /// A run for a number, which must print the same as the one before it, unless it is the first.
    fn run_with(&mut self, line: &str, number: u32, is_first: bool) -> Result<(), CaseError> {
        let mut digits = Text::new(self.alloc);
        digits.print(number);
        match self.run_numbered(line, digits.as_str()) {
            Ok(()) if !is_first && self.text != self.before => {
                Err(CaseError::Line("the runs differ"))
            }
            ran => ran,
        }
    }

    /// Whether the last run had this status.
    pub fn has_status(&self, status: u8) -> bool {
        self.ran.status == status
    }

    /// Whether the last run had this status, and no device came back.
    fn has_ended_with(&self, status: u8) -> bool {
        self.ran.status == status && self.ran.dev.is_none()
    }

    /// Shows a run, unless the words were no command line: status 1, no device, and a text that says what is wrong, or how to use the program.
    fn run_usage(&mut self, words: Words<'_>, out: &mut Text) -> Result<(), CaseError> {
        self.run_line(words.text())?;
        if !tells_usage(&self.text) || !self.has_ended_with(1) {
            self.print_run(out);
        }
        Ok(())
    }

    /// Runs a script whose first line is to be bad, read by one byte, by three, and at once. Shows a run that says something else.
    fn run_bad(&mut self, text: &str, out: &mut Text) -> Result<(), CaseError> {
        self.setup.put_script("script", text.as_bytes())?;
        for step in &[1, 3, 100000] {
            self.run_by(*step, out)?;
        }
        Ok(())
    }

    /// Runs the script, read by so many bytes.
    fn run_by(&mut self, step: u32, out: &mut Text) -> Result<(), CaseError> {
        self.setup.source_step = step;
        self.run_line(STEP_WORDS)?;
        if self.text.as_slice() != BAD_LINE.as_bytes() || !self.has_ended_with(2) {
            self.print_run(out);
        }
        Ok(())
    }

    /// The bytes that the device that came back was last written.
    pub fn left(&self) -> Result<Vec<u8>, CaseError> {
        match &self.ran.dev {
            Some(dev) => last_written(dev).map_err(CaseError::from),
            None => Err(CaseError::Line("no device came back")),
        }
    }

    fn keep(&mut self, words: Words<'_>) -> Result<(), CaseError> {
        let name = words.last()?;
        match self.left() {
            Ok(left) => self.setup.put_device(name, left),
            Err(wrong) => Err(wrong),
        }
    }

    fn fail_behind_mount(&mut self, words: Words<'_>) -> Result<(), CaseError> {
        let (name, more) = words.last_two()?;
        let more = number(more)?;
        match self.reads_of_a_mount(name) {
            Ok(reads) => self.setup.fails.fail_read(reads.saturating_add(more)),
            Err(wrong) => Err(wrong),
        }
    }

    /// How many reads a mount of a device makes.
    fn reads_of_a_mount(&self, name: &str) -> Result<u64, CaseError> {
        let contents = self.setup.bytes(name)?;
        match Case::<C>::begin(self.alloc) {
            Ok(mut other) => {
                let reads = other.reads_of(contents);
                drop(other);
                reads
            }
            Err(wrong) => Err(wrong),
        }
    }

    /// How many reads a mount of a device of these contents makes: a run of no commands meets the failure of no others.
    fn reads_of(&mut self, contents: &[u8]) -> Result<u64, CaseError> {
        self.setup.put_copy("dev", contents)?;
        self.setup.put_script("script", &[])?;
        for number in 0..100u64 {
            if self.mounts_behind(number)? {
                return Ok(number);
            }
        }
        Err(CaseError::Line("a mount makes fewer reads"))
    }

    /// Whether the device is mounted though the read of this number fails.
    fn mounts_behind(&mut self, number: u64) -> Result<bool, CaseError> {
        self.setup.fails.fail_read(number)?;
        self.run_line(STEP_WORDS)?;
        Ok(self.has_status(0))
    }
}
