//! Reads of a script that fail, and scripts whose data written out would take much memory. Which other scripts are good, and which line of
//! another one is bad, are cases of the program `store_cases`.

use end_points::MemorySource;
use script_text::{ScriptFail, read_script};
use std::alloc::{AllocError, Global};

// What is said in the place of a number of lines, which is smaller.
const BAD_LINE: usize = 1_000_000;

const READ_FAULT: usize = 2_000_000;

// How many lines are read of a text in pieces of so many bytes.
fn lines_of(alloc: Global, text: Vec<u8>, step: u32, fails: Vec<u64>) -> Result<usize, AllocError> {
    let mut source = MemorySource::new(text, step.max(1), fails);
    match read_script(alloc, &mut source) {
        Ok(lines) => Ok(lines.len()),
        Err(ScriptFail::Line { .. }) => Ok(BAD_LINE),
        Err(ScriptFail::ReadFault) => Ok(READ_FAULT),
        Err(ScriptFail::Memory) => Err(AllocError),
    }
}

// A text with more behind it so many times.
fn text_of(alloc: Global, text: &str, more: &str, count: u32) -> Result<Vec<u8>, AllocError> {
    let mut bytes = Vec::from_slice(alloc, text.as_bytes())?;
    for _ in 0..count {
        bytes.extend_from_slice(more.as_bytes())?;
    }
    Ok(bytes)
}

// The third read fails; so does one behind a bad line.
static FAILING: [&str; 2] = ["wait\nwait\n", "bad\nwait\n"];

/// The place of the first of these that is read otherwise.
pub fn first_wrong_read(alloc: Global) -> Result<Option<usize>, AllocError> {
    for (i, text) in FAILING.iter().enumerate() {
        let text = Vec::from_slice(alloc, text.as_bytes())?;
        if lines_of(alloc, text, 4, vec![in alloc; 2u64]?)? != READ_FAULT {
            return Ok(Some(i));
        }
    }
    Ok(None)
}

// What a text begins with, what comes so many times behind that, and what behind that, and how many lines it has.
type Long = (&'static str, &'static str, u32, &'static str, usize);

static LONG: [Long; 6] = [
    // as many fills as a script may have, which would take 32 GiB
    ("", "write 1.a_head a 0 fill:61:2097152\n", 16384, "", 16384),
    ("", "wait\n", 100_000, "", 1),
    // many pairs and many keys, and the same with no more than a space behind
    ("omapset 1.a_head o", " k hex:00", 20_000, "", 1),
    ("omapset 1.a_head o", " k hex:00", 20_000, " ", BAD_LINE),
    ("omaprm 1.a_head o", " key", 40_000, "", 1),
    ("omaprm 1.a_head o", " key", 40_000, " ", BAD_LINE),
];

/// The place of the first of these that comes out otherwise.
pub fn first_wrong_long(alloc: Global) -> Result<Option<usize>, AllocError> {
    for (i, (text, more, count, last, wanted)) in LONG.iter().enumerate() {
        let mut text = text_of(alloc, text, more, *count)?;
        text.extend_from_slice(last.as_bytes())?;
        if lines_of(alloc, text, 65536, Vec::new(alloc))? != *wanted {
            return Ok(Some(i));
        }
    }
    Ok(None)
}
