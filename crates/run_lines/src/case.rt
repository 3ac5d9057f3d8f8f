//! What a case has set up, and what its last run left.

use crate::{Commands, Ran};
use case_text::{CaseError, Follow, Setup, Text, kind_of};
use object_model::Book;
use std::alloc::Global;

/// The kinds of lines that run something or show more of the last run.
#[derive(Clone, Copy)]
pub enum LineKind {
    /// `keep NAME`: puts the device that came back under a name.
    Keep,
    /// `fail-behind-mount NAME NUMBER`: a read of the next run fails, counted from those of a mount on.
    FailBehindMount,
    /// `show WHAT`: more of the last run.
    Show,
    /// A line that runs something, and is shown before what it comes to.
    Run(RunKind),
}

/// The kinds of lines that run something.
#[derive(Clone, Copy)]
pub enum RunKind {
    /// `run WORDS`: a command line.
    Words,
    /// `runs FIRST END WORDS`: a run for each number from FIRST on and before END, which stands in the place of the word `N`.
    Each,
    /// `usage WORDS`: what is to be no command line.
    Usage,
    /// `bad "TEXT"`: a script whose first line is to be bad.
    Bad,
}

/// The first words of these lines.
static LINE_KINDS: [(&str, LineKind); 7] = [
    ("run", LineKind::Run(RunKind::Words)),
    ("runs", LineKind::Run(RunKind::Each)),
    ("usage", LineKind::Run(RunKind::Usage)),
    ("bad", LineKind::Run(RunKind::Bad)),
    ("keep", LineKind::Keep),
    ("fail-behind-mount", LineKind::FailBehindMount),
    ("show", LineKind::Show),
];

/// What a case has set up, and what its last run left.
#[derive(Drop)]
pub struct Case<C: Commands> {
    pub alloc: Global,
    pub commands: C,
    pub setup: Setup,
    /// What the last run left, what it printed, and what the one before it printed.
    pub ran: Ran,
    pub text: Vec<u8>,
    pub before: Vec<u8>,
}

impl<C: Commands> Case<C> {
    /// A case with this set up, before its first run. Its status is none that a command has.
    pub fn of(setup: Setup) -> Case<C> {
        let alloc = setup.alloc;
        Case {
            alloc,
            commands: C::new(),
            setup,
            ran: Ran {
                status: u8::MAX,
                dev: None,
                scripts: 0,
                book: Book::new(alloc),
            },
            text: Vec::new(alloc),
            before: Vec::new(alloc),
        }
    }
}

impl<C: Commands> Follow for Case<C> {
    fn begin(alloc: Global) -> Result<Case<C>, CaseError> {
        match Setup::new(alloc) {
            Ok(setup) => Ok(Case::of(setup)),
            Err(wrong) => Err(wrong),
        }
    }

    fn follow(&mut self, line: &str, out: &mut Text) -> Result<(), CaseError> {
        if let Some((kind, words)) = kind_of(&LINE_KINDS, line) {
            return self.act(kind, line, words, out);
        }
        match self.setup.follow(line) {
            Ok(true) => Ok(()),
            Ok(false) => Err(CaseError::Line("no such line")),
            Err(wrong) => Err(wrong),
        }
    }
}
