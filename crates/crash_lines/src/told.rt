//! What the accepted commands of a run said, by the scripts that were run: a book keeps only of which kind they are.

use case_text::{CaseError, Setup, Words};
use end_points::MemorySource;
use object_model::{Answer, Book, Command, Entry};
use plain_reader::Told;
use script_text::{Line, What, read_script};
use std::alloc::Global;
use std::vec::IntoIter;

/// The lines of a client's script that haven't been looked at.
pub type Script = IntoIter<Line>;

/// The lines of a script of this text; none where it has a bad one, since nothing is run then.
fn script_of(alloc: Global, text: &[u8]) -> Result<Vec<Line>, CaseError> {
    let mut source = MemorySource::new(text.to_vec(alloc)?, 4096, Vec::new(alloc));
    Ok(read_script(alloc, &mut source).unwrap_or(Vec::new(alloc)))
}

/// The scripts of these words, one a client.
pub fn scripts_of(setup: &Setup, words: Words<'_>) -> Result<Vec<Script>, CaseError> {
    let mut scripts = Vec::new(setup.alloc);
    for name in words.text().split_terminator(' ') {
        let script = script_of(setup.alloc, setup.script(name)?)?;
        scripts.push(script.into_iter())?;
    }
    Ok(scripts)
}

/// The line of an entry. Those of its client before it are passed: a client's entries come in the order of its lines.
fn line_of(scripts: &mut [Script], entry: &Entry) -> Option<Line> {
    let script = scripts.get_mut(entry.client as usize)?;
    script.find(|line| line.line == entry.line)
}

/// What an accepted entry said, if its line is there and is a transaction.
fn told_of(
    alloc: Global,
    scripts: &mut [Script],
    entry: &Entry,
    place: u32,
) -> Result<Option<Told>, CaseError> {
    let Some(line) = line_of(scripts, entry) else {
        return Ok(None);
    };
    match line.what.into_what(alloc)? {
        What::Command(Command::Change(change)) => Ok(Some(Told { place, change })),
        _ => Ok(None),
    }
}

/// The transactions that a run of these scripts accepted, by their places in its book.
pub fn told_by(
    alloc: Global,
    mut scripts: Vec<Script>,
    book: &Book,
) -> Result<Vec<Told>, CaseError> {
    let mut all = Vec::new(alloc);
    for (place, entry) in (0u32..).zip(book.entries.as_slice()) {
        if let Answer::Accepted = entry.answer
            && let Some(told) = told_of(alloc, &mut scripts, entry, place)?
        {
            all.push(told)?;
        }
    }
    Ok(all)
}
