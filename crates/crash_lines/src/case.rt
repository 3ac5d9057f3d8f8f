//! What the lines of a case work on.

use crate::last::Last;
use crate::told::{scripts_of, told_by};
use case_text::{CaseError, Setup, Text, Words, small};
use object_model::Book;
use plain_reader::{Judge, Past, Told};
use run_lines::{Case, Commands};
use std::alloc::Global;
use std::mem;

/// A case whose runs of `step`, on the store `dev`, are compared with plain objects.
#[derive(Drop)]
pub struct Sweep<C: Commands> {
    pub alloc: Global,
    pub case: Case<C>,
    /// How many collections are looked at, from `1.0_head` on.
    colls: u32,
    /// The runs before the last one.
    history: Vec<Past>,
    /// The transactions that the last run accepted, by their places in its book.
    told: Vec<Told>,
    /// What the images of the last run may be.
    pub judge: Judge,
}

impl<C: Commands> Sweep<C> {
    /// A case with this set up, before its first run, in which one collection is looked at.
    pub fn of(setup: Setup) -> Sweep<C> {
        let alloc = setup.alloc;
        Sweep {
            alloc,
            case: Case::of(setup),
            colls: 1,
            history: Vec::new(alloc),
            told: Vec::new(alloc),
            judge: Judge::of(alloc),
        }
    }

    /// What the last run left.
    pub fn last(&self) -> Result<Last<'_>, CaseError> {
        match &self.case.ran.dev {
            Some(dev) => Ok(Last {
                alloc: self.alloc,
                dev,
                book: &self.case.ran.book,
                judge: &self.judge,
            }),
            None => Err(CaseError::Line("no device came back")),
        }
    }

    /// Runs scripts on the store `dev`. A seed and the scripts, one a client, are the line's words.
    fn run_step(&mut self, words: Words<'_>) -> Result<(), CaseError> {
        let mut line = Text::new(self.alloc);
        line.print("bstore step dev --seed ");
        line.print(words.text());
        self.case.run_line(line.as_str())
    }

    /// Keeps what the last run accepted. The words are those of the run.
    fn keep_told(&mut self, mut words: Words<'_>) -> Result<(), CaseError> {
        words.next()?;
        let scripts = scripts_of(&self.case.setup, words)?;
        self.told = told_by(self.alloc, scripts, &self.case.ran.book)?;
        Ok(())
    }

    /// Runs scripts on the store `dev`, whose objects are those behind the earlier runs, and sees what the images of this run may be.
    pub fn step(&mut self, words: Words<'_>) -> Result<(), CaseError> {
        self.run_step(words)?;
        self.keep_told(words)?;
        let start = self.case.setup.bytes("dev")?;
        let book = &self.case.ran.book;
        self.judge
            .follow(self.colls, start, &self.history, book, &self.told)
    }

    /// Takes the last run into the history, with none of its commits.
    pub fn remember(&mut self) -> Result<(), CaseError> {
        let book = mem::replace(&mut self.case.ran.book, Book::new(self.alloc));
        let told = mem::replace(&mut self.told, Vec::new(self.alloc));
        let past = Past {
            book,
            told,
            count: 0,
        };
        self.history.push(past).map_err(CaseError::from)
    }

    /// Goes on from an image that has so many commits of the newest run in the history: puts it under the name `dev`.
    pub fn go_on(&mut self, commits: Option<usize>, image: Vec<u8>) -> Result<(), CaseError> {
        match (commits, self.history.last_mut()) {
            (Some(count), Some(past)) => past.count = count,
            _ => return Err(CaseError::Line("a crash of no front")),
        }
        self.case.setup.put_device("dev", image)
    }

    /// Follows `crash CUT TEAR`, from its second word on: puts what a crash of the last run leaves under the name `dev`, so that
    /// later runs are on that, and shows how many of the run's commits it has.
    pub fn crash(&mut self, words: Words<'_>, out: &mut Text) -> Result<(), CaseError> {
        let last = self.last()?;
        let image = last.crashed(words)?;
        let commits = last.show_commits(&image, out);
        match self.remember() {
            Ok(()) => self.go_on(commits, image),
            Err(wrong) => Err(wrong),
        }
    }

    /// Follows `collections COUNT`, from its second word on: says how many collections are looked at, from `1.0_head` on.
    pub fn set_collections(&mut self, words: Words<'_>) -> Result<(), CaseError> {
        self.colls = words.last().and_then(small)?;
        Ok(())
    }

    /// Follows `forget`, which makes a judgement wrong: drops the last run's last state.
    pub fn forget(&mut self, words: Words<'_>) -> Result<(), CaseError> {
        self.judge.forget();
        words.end()
    }

    /// Follows `leaked UNIT ..`, from its second word on, which makes a judgement wrong: says what was leaked before the last run.
    pub fn set_leaked(&mut self, words: Words<'_>) -> Result<(), CaseError> {
        self.judge.set_leaked(words)
    }
}
