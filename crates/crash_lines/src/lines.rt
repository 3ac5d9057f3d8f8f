//! The lines of a case.

use crate::Sweep;
use crate::last::{LastKind, show_collection, show_leaks};
use crate::looked::FsckLine;
use case_text::{CaseError, Follow, Setup, Text, Words, kind_of};
use run_lines::Commands;
use std::alloc::Global;

/// The kinds of lines that are no lines of `Case`.
#[derive(Clone, Copy)]
enum LineKind {
    /// `forget`: drops the last run's last state, which makes a judgement wrong.
    Forget,
    /// `leaked UNIT ..`: says what was leaked before the last run, which makes a judgement wrong.
    Leaked,
    /// `collections COUNT`: how many collections are looked at.
    Collections,
    /// A line that is shown before what it comes to.
    Shown(ShownKind),
}

/// The kinds of lines that are shown.
#[derive(Clone, Copy)]
enum ShownKind {
    /// `step SEED SCRIPT ..`: a run of `step` on `dev`.
    Step,
    /// `again TEAR LEAST SEED SCRIPT ..`: scripts after each crash, and each cut of that.
    Again,
    /// `dumps`: dumps each image of each cut.
    Dumps,
    /// `crash CUT TEAR`: goes on from what a crash leaves.
    Crash,
    /// `leaks NAME`: the units that a device has leaked.
    Leaks,
    /// `collection NAME COLL`: whether a device has a collection.
    Collection,
    /// A line that shows what the last run left.
    Last(LastKind),
}

/// The first words of these lines.
static LINE_KINDS: [(&str, LineKind); 13] = [
    ("step", LineKind::Shown(ShownKind::Step)),
    ("sweep", LineKind::Shown(ShownKind::Last(LastKind::Sweep))),
    ("early", LineKind::Shown(ShownKind::Last(LastKind::Early))),
    ("again", LineKind::Shown(ShownKind::Again)),
    ("dumps", LineKind::Shown(ShownKind::Dumps)),
    ("crash", LineKind::Shown(ShownKind::Crash)),
    ("judge", LineKind::Shown(ShownKind::Last(LastKind::Judge))),
    ("forget", LineKind::Forget),
    ("leaked", LineKind::Leaked),
    ("leaks", LineKind::Shown(ShownKind::Leaks)),
    ("collection", LineKind::Shown(ShownKind::Collection)),
    ("collections", LineKind::Collections),
    ("rows", LineKind::Shown(ShownKind::Last(LastKind::Rows))),
];

impl<C: Commands> Sweep<C> {
    /// Follows a line, of which the first word is taken.
    fn act(
        &mut self,
        kind: LineKind,
        line: &str,
        words: Words<'_>,
        out: &mut Text,
    ) -> Result<(), CaseError> {
        match kind {
            LineKind::Forget => self.forget(words),
            LineKind::Leaked => self.set_leaked(words),
            LineKind::Collections => self.set_collections(words),
            LineKind::Shown(kind) => {
                out.println(line);
                self.act_shown(kind, words, out)
            }
        }
    }

    /// Follows `step SEED SCRIPT ..`, from its second word on.
    fn show_step(&mut self, words: Words<'_>, out: &mut Text) -> Result<(), CaseError> {
        self.step(words)?;
        self.case.print_run(out);
        Ok(())
    }

    /// Follows a line that shows what the last run left.
    fn act_last(&self, kind: LastKind, words: Words<'_>, out: &mut Text) -> Result<(), CaseError> {
        let mut fsck = FsckLine::<C>::new(self.alloc)?;
        match self.last() {
            Ok(last) => last.act(kind, &mut fsck, &self.case.setup, words, out),
            Err(wrong) => Err(wrong),
        }
    }

    /// Follows a line that is shown, of which the first word is taken.
    fn act_shown(
        &mut self,
        kind: ShownKind,
        words: Words<'_>,
        out: &mut Text,
    ) -> Result<(), CaseError> {
        match kind {
            ShownKind::Step => self.show_step(words, out),
            ShownKind::Again => self.sweep_again(words, out),
            ShownKind::Dumps => self.dump_all(out),
            ShownKind::Crash => self.crash(words, out),
            ShownKind::Leaks => show_leaks(&self.case.setup, words, out),
            ShownKind::Collection => show_collection(&self.case.setup, words, out),
            ShownKind::Last(kind) => self.act_last(kind, words, out),
        }
    }
}

impl<C: Commands> Follow for Sweep<C> {
    fn begin(alloc: Global) -> Result<Sweep<C>, CaseError> {
        match Setup::new(alloc) {
            Ok(setup) => Ok(Sweep::of(setup)),
            Err(wrong) => Err(wrong),
        }
    }

    fn follow(&mut self, line: &str, out: &mut Text) -> Result<(), CaseError> {
        match kind_of(&LINE_KINDS, line) {
            Some((kind, words)) => self.act(kind, line, words, out),
            None => self.case.follow(line, out),
        }
    }
}
