//! What crashes of the last mount leave.

use crate::lines::KernelLines;
use crate::looked::FsckCall;
use case_text::{CaseError, Text, Words, number, print_text};
use plain_reader::{Counts, Judge, Left, Past, TEARS, tear_of};
use std::alloc::Global;

/// Adds a text to those that aren't the same.
fn add_other(all: &mut Vec<Vec<u8>>, text: Vec<u8>) -> Result<(), CaseError> {
    if !all.contains(&text) {
        all.push(text)?;
    }
    Ok(())
}

/// Adds what the plain reader finds behind a cut, torn in each way.
fn add_dumps(
    alloc: Global,
    left: &Left,
    cut: u64,
    all: &mut Vec<Vec<u8>>,
) -> Result<(), CaseError> {
    for tear in TEARS {
        add_other(all, left.dumped(alloc, cut, tear)?)?;
    }
    Ok(())
}

/// What the plain reader finds behind each cut, torn in each way: each text once, in the order in which they come.
fn all_dumps(alloc: Global, left: &Left) -> Result<Vec<Vec<u8>>, CaseError> {
    let mut all = Vec::new(alloc);
    for cut in 0..=left.dev.events() {
        add_dumps(alloc, left, cut, &mut all)?;
    }
    Ok(all)
}

impl KernelLines {
    /// Takes the commits of the last mount into the history.
    pub fn remember(&mut self) -> Result<(), CaseError> {
        if let Some(Left { dev: _, book, told }) = self.left.take() {
            let count = book.commits.len();
            self.history.push(Past { book, told, count })?;
        }
        Ok(())
    }

    /// What the last mount left.
    fn left(&self) -> Result<&Left, CaseError> {
        match &self.left {
            Some(left) => Ok(left),
            None => Err(CaseError::Line("nothing was unmounted")),
        }
    }

    /// Counts the images of each cut of a log, torn in each way, where each commit counts as acknowledged so many events too early.
    pub fn judge(&self, left: &Left, earlier: u64, counts: &mut Counts) -> Result<(), CaseError> {
        let mut fsck = FsckCall::new(self.alloc)?;
        let judge = Judge::new(self.alloc, left, &self.history, earlier)?;
        judge.judge_all(&mut fsck, left, counts);
        drop(judge);
        Ok(())
    }

    /// Follows `cuts`: looks at each cut of the log, torn in each way, and shows the images that are of no front of the commits with all
    /// that were acknowledged; and `cuts BY`, where each commit counts as acknowledged so many events too early.
    pub fn cuts(&self, words: Words<'_>, out: &mut Text) -> Result<(), CaseError> {
        let earlier = if words.is_empty() {
            0
        } else {
            number(words.last()?)?
        };
        let left = self.left()?;
        let mut counts = Counts::new(self.alloc);
        self.judge(left, earlier, &mut counts)?;
        counts.print(None, out);
        Ok(())
    }

    /// Follows `dump CUT TEAR`, from its second word on.
    pub fn dump(&self, words: Words<'_>, out: &mut Text) -> Result<(), CaseError> {
        let (cut, tear) = words.last_two()?;
        let left = self.left()?;
        let text = left.dumped(self.alloc, left.cut_of(cut)?, tear_of(tear)?)?;
        print_text(out, &text);
        Ok(())
    }

    /// Follows `dumps`.
    pub fn dumps(&self, words: Words<'_>, out: &mut Text) -> Result<(), CaseError> {
        words.end()?;
        for text in &all_dumps(self.alloc, self.left()?)? {
            print_text(out, text);
        }
        Ok(())
    }
}
