//! How text and bytes are shown.

use crate::{CaseError, Text};
use std::fmt::Display;

/// Longer lines are shown with their last word as runs of equal pairs.
const LONG: usize = 200;

/// Shows so many equal pairs of digits behind a space. A pair that stands alone has no count.
fn print_run<D: Display + Drop>(out: &mut Text, pair: D, count: u64) {
    match count {
        0 => {}
        1 => out.print(format_args!(" {pair}")),
        _ => out.print(format_args!(" {pair}*{count}")),
    }
}

/// Shows digits of base 16 as runs of equal pairs, `5a*3 00*2`; a digit behind the last pair stands alone.
fn print_word(out: &mut Text, word: &[u8]) {
    let mut last: &[u8] = &[];
    let mut count = 0u64;
    for pair in word.chunks(2) {
        if pair != last {
            print_run(out, str::from_utf8(last).unwrap_or("?"), count);
            count = 0;
        }
        last = pair;
        count = count.saturating_add(1);
    }
    print_run(out, str::from_utf8(last).unwrap_or("?"), count);
}

/// Shows a line between what begins and what ends it.
fn print_line(out: &mut Text, begin: &str, line: &str, end: &str) {
    match line.rsplit_once(' ') {
        Some((front, last)) if LONG < line.len() => {
            out.print(format_args!("{begin}{front}"));
            print_word(out, last.as_bytes());
            out.print(end);
        }
        _ => out.print(format_args!("{begin}{line}{end}")),
    }
}

/// Shows text that a run printed, a line each: `| ` before a line, and a last one that has no end as `> "TEXT"`.
pub fn print_text(out: &mut Text, text: &[u8]) {
    let text = str::from_utf8(text).unwrap_or("no text");
    for line in text.split_inclusive('\n') {
        match line.strip_suffix("\n") {
            Some(line) => print_line(out, "| ", line, "\n"),
            None => print_line(out, "> \"", line, "\"\n"),
        }
    }
}

/// Shows bytes as runs of equal ones, each behind a space: `5a*4096 00`.
pub fn print_bytes(out: &mut Text, bytes: &[u8]) {
    let mut last = 0u8;
    let mut count = 0u64;
    for byte in bytes {
        if *byte != last {
            print_run(out, format_args!("{last:02x}"), count);
            count = 0;
        }
        last = *byte;
        count = count.saturating_add(1);
    }
    print_run(out, format_args!("{last:02x}"), count);
}

/// Shows so many bytes from a place on, and an end of line.
pub fn print_piece(out: &mut Text, contents: &[u8], at: u64, count: u64) -> Result<(), CaseError> {
    let end = at.saturating_add(count) as usize;
    let Some(bytes) = contents.get(at as usize..end) else {
        return Err(CaseError::Line("outside the device"));
    };
    print_bytes(out, bytes);
    out.print("\n");
    Ok(())
}
