//! What the last run of a case left, judged by the plain reader.

use block_device::{MemoryDevice, Tear};
use case_text::{CaseError, Setup, Text, Words, number};
use object_model::Book;
use plain_reader::{
    Counts, Found, Fsck, Judge, Judgement, acknowledged, cut_of, image_at, leaked_in, tear_of,
};
use std::alloc::Global;

/// The kinds of lines that show what it left.
#[derive(Clone, Copy)]
pub enum LastKind {
    /// `sweep EVERY` and `sweep EVERY LEAST`: looks at each so many-th cut.
    Sweep,
    /// `early EVERY BY`: the same, with each commit acknowledged too early.
    Early,
    /// `judge NAME`: of how many commits a device is.
    Judge,
    /// `rows`: which of the bitmap's first two rows there are.
    Rows,
}

/// The device that came back from the last run, the run's book, and what its images may be.
#[derive(Clone, Copy)]
pub struct Last<'a> {
    pub alloc: Global,
    pub dev: &'a MemoryDevice,
    pub book: &'a Book,
    pub judge: &'a Judge,
}

/// Shows how many commits a device has, how many it must have at least, and whether its bitmap is exact.
fn print_judgement(is: Judgement, least: usize, out: &mut Text) {
    match is.commits {
        Some(count) => out.print(format_args!("{count} commits of at least {least}")),
        None => out.print("of no front"),
    }
    out.println(if is.is_exact {
        ", exact"
    } else {
        ", not exact"
    });
}

/// Which of the bitmap's first two rows there are.
fn rows_in(found: &Found) -> &'static str {
    match (found.has_bitmap_row(0), found.has_bitmap_row(1)) {
        (false, false) => " none",
        (true, false) => " 0",
        (false, true) => " 1",
        (true, true) => " 0+1",
    }
}

impl<'a> Last<'a> {
    /// Follows a line, of which the first word is taken.
    pub fn act<F: Fsck>(
        &self,
        kind: LastKind,
        fsck: &mut F,
        setup: &Setup,
        words: Words<'_>,
        out: &mut Text,
    ) -> Result<(), CaseError> {
        match kind {
            LastKind::Sweep => self.sweep_all(fsck, words, out),
            LastKind::Early => self.sweep_early(fsck, words, out),
            LastKind::Judge => self.judge_device(setup, words, out),
            LastKind::Rows => self.show_rows(words, out),
        }
    }

    /// Looks at each `every`-th cut, where each commit counts as acknowledged so many events too early, and shows what came of it.
    fn sweep<F: Fsck>(
        &self,
        fsck: &mut F,
        every: u64,
        earlier: u64,
        least: Option<u64>,
        out: &mut Text,
    ) {
        let mut counts = Counts::new(self.alloc);
        self.sweep_into(fsck, every, earlier, &mut counts);
        counts.print(least, out);
    }

    /// Looks at each `every`-th cut, where each commit counts as acknowledged so many events too early.
    pub fn sweep_into<F: Fsck>(&self, fsck: &mut F, every: u64, earlier: u64, counts: &mut Counts) {
        self.judge
            .judge_each(fsck, (self.dev, self.book), every, earlier, counts);
    }

    /// Follows `sweep EVERY`, which looks at each so many-th cut and shows the images that are of no front or with findings, and `sweep EVERY LEAST`,
    /// which shows of their number only that it is more than this.
    fn sweep_all<F: Fsck>(
        &self,
        fsck: &mut F,
        mut words: Words<'_>,
        out: &mut Text,
    ) -> Result<(), CaseError> {
        let every = words.number()?;
        if words.is_empty() {
            self.sweep(fsck, every, 0, None, out);
        } else {
            let least = words.last().and_then(number)?;
            self.sweep(fsck, every, 0, Some(least), out);
        }
        Ok(())
    }

    /// Follows `early EVERY BY`, where each commit counts as acknowledged so many events earlier than it was.
    fn sweep_early<F: Fsck>(
        &self,
        fsck: &mut F,
        words: Words<'_>,
        out: &mut Text,
    ) -> Result<(), CaseError> {
        let [every, earlier] = words.numbers::<2>()?;
        self.sweep(fsck, every, earlier, None, out);
        Ok(())
    }

    /// Follows `judge NAME`, from its second word on: shows of how many commits a device is, how many it must have at least at the
    /// run's end, and whether its bitmap is exact but for what was leaked before the run.
    fn judge_device(
        &self,
        setup: &Setup,
        words: Words<'_>,
        out: &mut Text,
    ) -> Result<(), CaseError> {
        let image = named_image(setup, words)?;
        let least = acknowledged(self.book, self.dev.events(), 0);
        print_judgement(self.judge.judge(image, 0), least, out);
        Ok(())
    }

    /// Shows which of the bitmap's first two rows there are behind a cut, where what isn't stable is lost.
    fn show_rows_at(&self, cut: u64, out: &mut Text) {
        match Found::read(self.alloc, &image_at(self.alloc, self.dev, cut, Tear::Old)) {
            Some(found) => out.print(rows_in(&found)),
            None => out.print(" no store"),
        }
    }

    /// Follows `rows`: shows them as the last run began, and as each commit was acknowledged.
    fn show_rows(&self, words: Words<'_>, out: &mut Text) -> Result<(), CaseError> {
        out.print("rows");
        self.show_rows_at(0, out);
        let commits = &self.book.commits;
        for commit in commits.as_slice() {
            match commit.acked_at {
                Some(cut) => self.show_rows_at(cut, out),
                None => out.print(" never"),
            }
        }
        out.print("\n");
        words.end()
    }

    /// What a crash leaves, by its cut and its tear.
    pub fn crashed(&self, words: Words<'_>) -> Result<Vec<u8>, CaseError> {
        let (cut, tear) = words.last_two()?;
        let cut = cut_of(self.dev, cut)?;
        let tear = tear_of(tear)?;
        Ok(image_at(self.alloc, self.dev, cut, tear))
    }

    /// Shows how many commits an image has, if it is of a front of them.
    pub fn show_commits(&self, image: &[u8], out: &mut Text) -> Option<usize> {
        let commits = self.judge.judge(image, 0).commits;
        if let Some(count) = commits {
            let all = self.book.commits.len();
            out.println(format_args!("{count} of {all} commits"));
        }
        commits
    }
}

/// The contents of the device that the last word names.
fn named_image<'a>(setup: &'a Setup, words: Words<'_>) -> Result<&'a [u8], CaseError> {
    match words.last() {
        Ok(name) => setup.bytes(name),
        Err(wrong) => Err(wrong),
    }
}

fn print_leaked(units: &[u64], out: &mut Text) {
    out.print("leaked");
    for unit in units {
        out.print(format_args!(" {unit}"));
    }
    out.print("\n");
}

/// Follows `leaks NAME`, from its second word on: shows the units that a device has leaked.
pub fn show_leaks(setup: &Setup, words: Words<'_>, out: &mut Text) -> Result<(), CaseError> {
    let image = named_image(setup, words)?;
    match leaked_in(setup.alloc, image) {
        Some(leaked) => print_leaked(&leaked, out),
        None => out.println("not exact"),
    }
    Ok(())
}

/// Whether an image has a collection.
fn has_collection(alloc: Global, image: &[u8], coll: &[u8]) -> bool {
    match Found::read(alloc, image) {
        Some(found) => found.has_collection(coll),
        None => false,
    }
}

/// Follows `collection NAME COLL`, from its second word on: shows whether a device has a collection.
pub fn show_collection(setup: &Setup, words: Words<'_>, out: &mut Text) -> Result<(), CaseError> {
    let (name, coll) = words.last_two()?;
    let image = setup.bytes(name)?;
    out.println(if has_collection(setup.alloc, image, coll.as_bytes()) {
        "a collection"
    } else {
        "no such collection"
    });
    Ok(())
}
