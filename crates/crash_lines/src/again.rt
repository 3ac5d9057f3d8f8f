//! Stores that are opened after each crash of a run, and every cut of what is done then.

use crate::Sweep;
use crate::looked::FsckLine;
use block_device::{MemoryDevice, Tear};
use case_text::{CaseError, Text, Words, print_text};
use plain_reader::{Counts, Judge, image_at, tear_of};
use run_lines::Commands;
use std::alloc::Global;
use std::mem;

/// A run whose crashes are gone on from.
#[derive(Drop)]
struct First {
    dev: MemoryDevice,
    judge: Judge,
    tear: Tear,
}

/// What came of it: the images looked at, those of no front, and the last lines of the runs, each once.
#[derive(Drop)]
struct Seen<C: Commands> {
    fsck: FsckLine<C>,
    crashes: u64,
    counts: Counts,
    ends: Text,
}

impl<C: Commands> Seen<C> {
    fn new(alloc: Global) -> Result<Seen<C>, CaseError> {
        match FsckLine::new(alloc) {
            Ok(fsck) => Ok(Seen {
                fsck,
                crashes: 0,
                counts: Counts::new(alloc),
                ends: Text::new(alloc),
            }),
            Err(wrong) => Err(wrong),
        }
    }

    /// Counts a crash, and adds the last line of what the run after it printed.
    fn push_end(&mut self, text: &[u8]) {
        self.crashes = self.crashes.wrapping_add(1);
        let end = last_line(str::from_utf8(text).unwrap_or("no text"));
        for seen in self.ends.as_str().lines() {
            if seen == end {
                return;
            }
        }
        self.ends.println(end);
    }

    /// Adds that other units are leaked after a crash than before the first run.
    fn push_other(&mut self, cut: u64) {
        let shown = &mut self.counts.shown;
        shown.println(format_args!("cut {cut}: other units are leaked"));
    }

    fn print(&self, least: u64, out: &mut Text) {
        out.print(format_args!("{} crashes, ", self.crashes));
        self.counts.print(Some(least), out);
        print_text(out, self.ends.as_str().as_bytes());
    }
}

fn last_line(text: &str) -> &str {
    text.lines().last().unwrap_or("")
}

impl<C: Commands> Sweep<C> {
    /// Takes the last run's device, and what its images may be. Its book goes into the history.
    fn take_first(&mut self, tear: Tear) -> Result<First, CaseError> {
        self.remember()?;
        match mem::replace(&mut self.case.ran.dev, None) {
            Some(dev) => {
                let judge = mem::replace(&mut self.judge, Judge::of(self.alloc));
                Ok(First { dev, judge, tear })
            }
            None => Err(CaseError::Line("no device came back")),
        }
    }

    /// Runs scripts on what a crash leaves.
    fn step_after(&mut self, first: &First, cut: u64, words: Words<'_>) -> Result<(), CaseError> {
        let image = image_at(self.alloc, &first.dev, cut, first.tear);
        self.go_on(first.judge.judge(&image, 0).commits, image)?;
        self.step(words)
    }

    /// Looks at each cut of what was done after a crash.
    fn sweep_after(&self, first: &First, cut: u64, seen: &mut Seen<C>) -> Result<(), CaseError> {
        let last = self.last()?;
        seen.push_end(&self.case.text);
        if self.judge.leaked != first.judge.leaked {
            seen.push_other(cut);
        }
        last.sweep_into(&mut seen.fsck, 1, 0, &mut seen.counts);
        Ok(())
    }

    /// Looks at each cut of what is done after each crash.
    fn sweep_each(
        &mut self,
        first: &First,
        words: Words<'_>,
        seen: &mut Seen<C>,
    ) -> Result<(), CaseError> {
        for cut in 0..=first.dev.events() {
            self.step_after(first, cut, words)?;
            self.sweep_after(first, cut, seen)?;
        }
        Ok(())
    }

    /// Looks at each cut of what is done after each crash, and shows what came of it.
    fn show_again(
        &mut self,
        first: &First,
        least: u64,
        words: Words<'_>,
        out: &mut Text,
    ) -> Result<(), CaseError> {
        let mut seen = Seen::<C>::new(self.alloc)?;
        let swept = self.sweep_each(first, words, &mut seen);
        seen.print(least, out);
        swept
    }

    /// Follows `again TEAR LEAST SEED SCRIPT ..`: shows how many crashes and images there were, of the latter only that they are more than
    /// so many, and each last line that the runs after the crashes printed. The case goes on from the last of these runs.
    pub fn sweep_again(&mut self, mut words: Words<'_>, out: &mut Text) -> Result<(), CaseError> {
        let tear = words.next().and_then(tear_of)?;
        let least = words.number()?;
        match self.take_first(tear) {
            Ok(first) => self.show_again(&first, least, words, out),
            Err(wrong) => Err(wrong),
        }
    }
}
