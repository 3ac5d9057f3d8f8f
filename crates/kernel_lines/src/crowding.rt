//! Many transactions at a time.

use crate::mounted::Mounted;
use crate::stepping::step_if_ready;
use crate::submitting::print_refused;
use case_text::{CaseError, Text, Words};
use plain_reader::COLLS;
use store_steps::Step;

/// The most objects of one `crowd`.
const MOST_OBJECTS: u32 = 1000;

/// The steps by which a write of one page that waits before all others is committed.
const TURN: [Step; 12] = [
    Step::Data,
    Step::Reap,
    Step::Take,
    Step::Flush,
    Step::Reap,
    Step::Seal,
    Step::Record,
    Step::Reap,
    Step::Sync,
    Step::Reap,
    Step::Commit,
    Step::Finish,
];

/// Follows `crowd COLL`, from its second word on: submits new objects until one is refused, and shows how many were accepted.
pub fn crowd(mounted: &mut Mounted, words: Words<'_>, out: &mut Text) -> Result<(), CaseError> {
    let coll = words.last()?;
    for count in 0..MOST_OBJECTS {
        let line = format!(in mounted.alloc; "{coll} touch crowd{count}")?;
        if let Err(why) = mounted.submit_words(Words::new(line.as_str()))? {
            out.print(format_args!("{count} accepted, then "));
            print_refused(&why, out);
            drop(why);
            return Ok(());
        }
    }
    Err(CaseError::Line("none is refused"))
}

/// Submits a page: those of equal number modulo 100 are of one object.
fn submit_page(mounted: &mut Mounted, number: u64) -> Result<(), CaseError> {
    let Some(coll) = COLLS.get((number % 4) as usize) else {
        return Err(CaseError::Line("no such collection"));
    };
    let (object, byte) = (number % 100, number % 251);
    let line = format!(in mounted.alloc; "{coll} write o{object} 0 fill:4096:{byte:02x}")?;
    match mounted.submit_words(Words::new(line.as_str()))? {
        Ok(_) => Ok(()),
        Err(why) => {
            drop(why);
            Err(CaseError::Line("a page is refused"))
        }
    }
}

/// Submits so many pages, from this number on.
fn submit_pages(mounted: &mut Mounted, count: u64) -> Result<(), CaseError> {
    for number in 0..count {
        submit_page(mounted, number)?;
    }
    Ok(())
}

/// Submits a page, and commits that which waits before all others.
fn turn(mounted: &mut Mounted, number: u64) -> Result<(), CaseError> {
    submit_page(mounted, number)?;
    for step in TURN {
        match step_if_ready(mounted.alloc, &mut mounted.kernel, step) {
            Some(Ok(())) => {}
            _ => return Err(CaseError::Line("a step isn't done")),
        }
    }
    Ok(())
}

/// Follows `waiting COUNT TURNS`, from its second word on: submits so many pages, and then, so many times, submits one more and commits
/// that which waits before all others.
pub fn wait_beside(
    mounted: &mut Mounted,
    words: Words<'_>,
    out: &mut Text,
) -> Result<(), CaseError> {
    let [count, turns] = words.numbers::<2>()?;
    submit_pages(mounted, count)?;
    for number in 0..turns {
        turn(mounted, count.wrapping_add(number))?;
    }
    out.println(format_args!("{turns} committed, {count} wait"));
    Ok(())
}
