//! What `dump` shows of each image that a crash leaves.

use crate::Sweep;
use crate::last::Last;
use case_text::{CaseError, Follow, Text};
use plain_reader::{Counts, Looked, TEARS, acknowledged, found_text, image_at};
use run_lines::{Case, Commands};
use std::alloc::Global;

/// Whether this text is what the plain reader finds in an image.
fn shows(alloc: Global, image: &[u8], text: &[u8]) -> bool {
    match found_text(alloc, image) {
        Ok(found) => found.as_slice() == text,
        Err(_) => false,
    }
}

/// Dumps an image in a case.
fn dump<C: Commands>(other: &mut Case<C>, image: Vec<u8>) -> Result<(), CaseError> {
    other.setup.put_device("dev", image)?;
    other.run_line("bstore dump dev")
}

impl<'a> Last<'a> {
    /// Whether the image that was dumped in a case is one that the run may leave, where a front has so many commits at least, and `dump`
    /// has printed what is in it.
    fn has_dumped<C: Commands>(&self, other: &Case<C>, least: usize) -> Result<Looked, CaseError> {
        let image = other.setup.bytes("dev")?;
        let good = other.has_status(0) && shows(self.alloc, image, &other.text);
        Ok(if good && self.judge.is_front(image, least) {
            Looked::Good
        } else {
            Looked::OfNoFront
        })
    }

    /// Dumps each image of a cut in a case of its own.
    fn dump_cut<C: Commands>(
        &self,
        other: &mut Case<C>,
        cut: u64,
        counts: &mut Counts,
    ) -> Result<(), CaseError> {
        let least = acknowledged(self.book, cut, 0);
        counts.cuts = counts.cuts.wrapping_add(1);
        for tear in &TEARS {
            dump(other, image_at(self.alloc, self.dev, cut, *tear))?;
            counts.count(cut, *tear, self.has_dumped(other, least)?);
        }
        Ok(())
    }

    /// Dumps each image of each cut.
    fn dump_each<C: Commands>(
        &self,
        other: &mut Case<C>,
        counts: &mut Counts,
    ) -> Result<(), CaseError> {
        for cut in 0..=self.dev.events() {
            self.dump_cut(other, cut, counts)?;
        }
        Ok(())
    }
}

impl<C: Commands> Sweep<C> {
    /// Dumps each image of each cut of the last run in a case of its own, and shows what came of it.
    fn show_dumped(&self, other: &mut Case<C>, out: &mut Text) -> Result<(), CaseError> {
        let last = self.last()?;
        let mut counts = Counts::new(self.alloc);
        let dumped = last.dump_each(other, &mut counts);
        counts.print(None, out);
        dumped
    }

    /// Follows `dumps`: dumps each image of each cut of the last run, and shows those that the run may not leave, or of which `dump`
    /// prints something else than what the plain reader finds.
    pub fn dump_all(&self, out: &mut Text) -> Result<(), CaseError> {
        match Case::<C>::begin(self.alloc) {
            Ok(mut other) => self.show_dumped(&mut other, out),
            Err(wrong) => Err(wrong),
        }
    }
}
