//! Which images a run may leave: those of a front of its commits with all that were acknowledged, whose bitmap is exact but for what was
//! leaked before the run.

use crate::counts::{Counts, Looked};
use crate::history::{Past, Told, acknowledged, apply_commit, objects_behind};
use crate::image::Found;
use crate::left::{Left, image_at};
use crate::spelling::{spelled, spelled_plain};
use crate::tears::TEARS;
use block_device::{MemoryDevice, Tear};
use case_text::{CaseError, Words, number};
use object_model::Book;
use plain_store::Plain;
use std::alloc::Global;
use unit_fields::CollName;

/// The collections that the judge of a mount looks at.
const COLL_COUNT: u32 = 4;

/// What the images of a run may be.
#[derive(Drop)]
pub struct Judge {
    alloc: Global,
    /// The collections that are looked at, from `1.0_head` on.
    colls: Vec<CollName>,
    /// What the objects are after each number of commits, from none to all.
    states: Vec<Vec<u8>>,
    /// The units that the device had leaked before.
    pub leaked: Vec<u64>,
    /// So many events too early each commit counts as acknowledged.
    earlier: u64,
}

/// What looks through an image as `fsck` does, beside the plain reader.
pub trait Fsck {
    /// Whether it finds that these units are leaked, and nothing else.
    fn finds_leaked_alone(&mut self, alloc: Global, image: Vec<u8>, leaked: &[u64]) -> bool;
}

/// What an image is.
#[derive(Clone, Copy)]
pub struct Judgement {
    /// How many commits it has, where it is of a front of them.
    pub commits: Option<usize>,
    /// Whether its bitmap is exact but for what was leaked before.
    pub is_exact: bool,
}

impl Judge {
    /// Of no run.
    pub fn of(alloc: Global) -> Judge {
        Judge {
            alloc,
            colls: Vec::new(alloc),
            states: Vec::new(alloc),
            leaked: Vec::new(alloc),
            earlier: 0,
        }
    }

    /// Looks at so many collections. Where memory runs out for one, what it has is something else, and so of no front.
    fn look_at_all(&mut self, count: u32) {
        self.colls.clear();
        for number in 1..=count {
            self.look_at(number);
        }
    }

    /// Looks at the collection of this number.
    fn look_at(&mut self, number: u32) {
        if let Ok(coll) = CollName::new(self.alloc, u64::from(number), 0) {
            drop(self.colls.push(coll));
        }
    }

    /// Of a mount of a store that has these runs behind it.
    pub fn new(
        alloc: Global,
        left: &Left,
        history: &[Past],
        earlier: u64,
    ) -> Result<Judge, CaseError> {
        let mut judge = Judge::of(alloc);
        judge.earlier = earlier;
        let start = image_at(alloc, &left.dev, 0, Tear::Old);
        match judge.follow(COLL_COUNT, &start, history, &left.book, &left.told) {
            Ok(()) => Ok(judge),
            Err(wrong) => Err(wrong),
        }
    }

    /// Follows a run that began with this image of a store that has earlier runs behind it, and accepted these transactions. So many
    /// collections are looked at.
    pub fn follow(
        &mut self,
        colls: u32,
        start: &[u8],
        history: &[Past],
        book: &Book,
        told: &[Told],
    ) -> Result<(), CaseError> {
        self.look_at_all(colls);
        self.begin(start)?;
        match objects_behind(self.alloc, history) {
            Ok(mut plain) => self.push_states(&mut plain, book, told),
            Err(wrong) => Err(wrong),
        }
    }

    /// Sees what an image has leaked before a run.
    fn begin(&mut self, start: &[u8]) -> Result<(), CaseError> {
        match leaked_in(self.alloc, start) {
            Some(units) => self.leaked = units,
            None => return Err(CaseError::Line("the store isn't exact")),
        }
        Ok(())
    }

    /// Keeps what objects are after each number of commits.
    fn push_states(
        &mut self,
        plain: &mut Plain,
        book: &Book,
        told: &[Told],
    ) -> Result<(), CaseError> {
        self.states.clear();
        self.push_state(plain)?;
        for at in 0..book.commits.len() {
            apply_commit(self.alloc, plain, book, told, at)?;
            self.push_state(plain)?;
        }
        Ok(())
    }

    fn push_state(&mut self, plain: &Plain) -> Result<(), CaseError> {
        let state = spelled_plain(self.alloc, plain, &self.colls);
        self.states.push(state).map_err(CaseError::from)
    }

    /// Takes these units for those that were leaked before.
    pub fn set_leaked(&mut self, words: Words<'_>) -> Result<(), CaseError> {
        self.leaked.clear();
        for unit in words.text().split_terminator(' ') {
            self.leaked.push(number(unit)?)?;
        }
        Ok(())
    }

    /// Forgets what objects are after all commits.
    pub fn forget(&mut self) {
        drop(self.states.pop());
    }

    /// The first place from this one on of the state that is spelled so.
    fn place_from(&self, least: usize, objects: &[u8]) -> Option<usize> {
        let mut place = least;
        for state in self.states.get(least..).unwrap_or(&[]) {
            if state.as_slice() == objects && !objects.is_empty() {
                return Some(place);
            }
            place = place.wrapping_add(1);
        }
        None
    }

    /// How many commits an image has, so many at least, where it is of a front of them.
    fn commits_of(&self, found: &Found, image: &[u8], least: usize) -> Option<usize> {
        self.place_from(least, &spelled(self.alloc, found, image, &self.colls))
    }

    fn is_exact(&self, found: &Found) -> bool {
        match found.leaked() {
            Some(units) => units == self.leaked,
            None => false,
        }
    }

    /// What an image is, where a front has so many commits at least.
    pub fn judge(&self, image: &[u8], least: usize) -> Judgement {
        match Found::read(self.alloc, image) {
            Some(found) => Judgement {
                commits: self.commits_of(&found, image, least),
                is_exact: self.is_exact(&found),
            },
            None => Judgement {
                commits: None,
                is_exact: false,
            },
        }
    }

    /// Whether an image is one that a run may leave, where a front has so many commits at least.
    pub fn is_front(&self, image: &[u8], least: usize) -> bool {
        let is = self.judge(image, least);
        is.is_exact && is.commits.is_some()
    }

    /// Looks at an image, where a front has so many commits at least.
    fn look<F: Fsck>(&self, fsck: &mut F, image: Vec<u8>, least: usize) -> Looked {
        if !self.is_front(&image, least) {
            return Looked::OfNoFront;
        }
        if fsck.finds_leaked_alone(self.alloc, image, &self.leaked) {
            Looked::Good
        } else {
            Looked::WithFindings
        }
    }

    /// Looks at each image of a cut.
    fn judge_cut<F: Fsck>(
        &self,
        fsck: &mut F,
        dev: &MemoryDevice,
        cut: u64,
        least: usize,
        counts: &mut Counts,
    ) {
        counts.cuts = counts.cuts.wrapping_add(1);
        for tear in &TEARS {
            let is = self.look(fsck, image_at(self.alloc, dev, cut, *tear), least);
            counts.count(cut, *tear, is);
        }
    }

    /// Looks at each image of each `every`-th cut, and of the last one, and shows those that the run may not leave, or in which `fsck`
    /// finds something else than what was leaked before. Each commit counts as acknowledged so many events too early.
    pub fn judge_each<F: Fsck>(
        &self,
        fsck: &mut F,
        (dev, book): (&MemoryDevice, &Book),
        every: u64,
        earlier: u64,
        counts: &mut Counts,
    ) {
        let events = dev.events();
        for cut in 0..=events {
            if cut % every.max(1) == 0 || cut == events {
                self.judge_cut(fsck, dev, cut, acknowledged(book, cut, earlier), counts);
            }
        }
    }

    /// Looks at each image of each cut of a mount, and shows those that it may not leave, or in which `fsck` finds something else than
    /// what was leaked before.
    pub fn judge_all<F: Fsck>(&self, fsck: &mut F, left: &Left, counts: &mut Counts) {
        self.judge_each(fsck, (&left.dev, &left.book), 1, self.earlier, counts);
    }
}

/// The units that an image has leaked. None where its bitmap isn't exact but for these, or there is no store.
pub fn leaked_in(alloc: Global, image: &[u8]) -> Option<Vec<u64>> {
    match Found::read(alloc, image) {
        Some(found) => found.leaked(),
        None => None,
    }
}
