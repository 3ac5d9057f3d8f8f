//! What is shown of a run beside its text.

use crate::{Case, Commands, Ran};
use block_device::MemoryDevice;
use case_text::{CaseError, Text, Words, look_up, print_piece};

/// What a line shows of the last run.
#[derive(Clone, Copy)]
enum Shown {
    /// `show events`: how many events the log has of the device that came back.
    Events,
    /// `show entries`: how many entries the book has.
    Entries,
    /// `show commits`: how many commits.
    Commits,
    /// `show scripts`: how many scripts came back.
    Scripts,
    /// `show bytes AT COUNT`: bytes of the device that came back.
    Bytes,
}

static SHOWN: [(&str, Shown); 5] = [
    ("events", Shown::Events),
    ("entries", Shown::Entries),
    ("commits", Shown::Commits),
    ("scripts", Shown::Scripts),
    ("bytes", Shown::Bytes),
];

fn events_of(dev: Option<&MemoryDevice>) -> u64 {
    match dev {
        Some(dev) => dev.events(),
        None => 0,
    }
}

/// Shows how many there are of something that the last run left.
fn show_ran(ran: &Ran, what: Shown, out: &mut Text) {
    let (name, count) = match what {
        Shown::Events => ("events", events_of(ran.dev.as_ref())),
        Shown::Entries => ("entries", ran.book.entries.len() as u64),
        Shown::Commits => ("commits", ran.book.commits.len() as u64),
        Shown::Scripts => ("scripts", ran.scripts as u64),
        Shown::Bytes => ("bytes", 0),
    };
    out.println(format_args!("{name} {count}"));
}

impl<C: Commands> Case<C> {
    /// Follows a line that shows more of the last run, from its second word on.
    pub fn show(&self, mut words: Words<'_>, out: &mut Text) -> Result<(), CaseError> {
        let word = words.next()?;
        match look_up(&SHOWN, word) {
            Some(Shown::Bytes) => self.show_bytes(words, out),
            Some(what) => {
                show_ran(&self.ran, what, out);
                words.end()
            }
            None => Err(CaseError::Line("no such line")),
        }
    }

    /// Shows bytes of the device that came back, as runs of equal ones.
    fn show_bytes(&self, words: Words<'_>, out: &mut Text) -> Result<(), CaseError> {
        let [at, count] = words.numbers::<2>()?;
        out.print(format_args!("bytes {at}"));
        match self.left() {
            Ok(left) => print_piece(out, &left, at, count),
            Err(wrong) => Err(wrong),
        }
    }
}
