//! Row operations spelled by hand, the rows that they leave, and how many chunks these lie in.
use crate::cases::first_false;
use meta_rows::{RowTable, decode, encode};
use std::alloc::{AllocError, Global};

// Sets of f to 0f, of c to 01 02 and of x to 6f.
const EARLIER: &[u8] =
    b"\x01\x01\0f\x01\0\0\0\x0f\x01\x01\0c\x02\0\0\0\x01\x02\x01\x01\0x\x01\0\0\0o";

// A set, and a drop of a whose last byte is missing.
const CUT: &[u8] = b"\x01\x01\0f\x01\0\0\0\x0f\x02\x01\0";

// Out of order, with keys that come up to four times, each operation in a line: sets have the code 1, drops 2 and flips 3.
const BATCH: &[u8] = b"\x01\x01\0m\x01\0\0\0\x01\
    \x03\x01\0c\x01\0\0\0\x01\
    \x01\x01\0a\x05\0\0\0first\
    \x02\x01\0a\
    \x01\x01\0z\x04\0\0\0last\
    \x03\x01\0f\x01\0\0\0\x0f\
    \x01\x01\0m\x01\0\0\0\x04\
    \x03\x01\0q\x01\0\0\0\x05\
    \x03\x01\0q\x01\0\0\0\x05\
    \x01\x01\0b\0\0\0\0\
    \x02\x01\0y\
    \x01\x01\0a\x06\0\0\0second\
    \x03\x01\0m\x02\0\0\0\x04\x80\
    \x01\x01\0k\x01\0\0\0p\
    \x01\x01\0k\x01\0\0\0q\
    \x01\x01\0k\x01\0\0\0r\
    \x02\x01\0x\
    \x03\x01\0r\x02\0\0\0\0\0\
    \x03\x01\0s\x01\0\0\0\x07\
    \x02\x01\0k\
    \x01\x02\0ab\x07\0\0\0between";

// The rows after both.
static LATER: [(&[u8], &[u8]); 7] = [
    (b"a", b"second"),
    (b"ab", b"between"),
    (b"b", b""),
    (b"c", b"\0\x02"),
    (b"m", b"\0\x80"),
    (b"s", b"\x07"),
    (b"z", b"last"),
];

// Applies the operations that the bytes spell, with room for so many, at least as many as they are. They must be written again as they were, or
// nothing is done.
fn apply(alloc: Global, rows: &mut RowTable, bytes: &[u8], room: usize) -> Result<(), AllocError> {
    let ops = decode(alloc, bytes)?.unwrap_or(Vec::new(alloc));
    if encode(alloc, &ops)?.as_slice() == bytes {
        rows.reserve(room.max(ops.len()))?;
        rows.apply(ops);
    }
    Ok(())
}

// Spelled operations, and for how many there is room.
type Batch<'a> = (&'a [u8], usize);

// The rows that some batches leave.
fn rows_after(alloc: Global, batches: &[Batch]) -> Result<RowTable, AllocError> {
    let mut rows = RowTable::new(alloc);
    for (bytes, room) in batches {
        apply(alloc, &mut rows, bytes, *room)?;
    }
    Ok(rows)
}

// Whether these are all rows.
fn are_rows(rows: &RowTable, wanted: &[(&[u8], &[u8])]) -> bool {
    let mut left = wanted;
    for (key, value) in rows.range(b"", None) {
        match left {
            [(k, v), rest @ ..] if key.as_slice() == *k && value.as_slice() == *v => left = rest,
            _ => return false,
        }
    }
    left.is_empty()
}

// Whether the later rows are all that both leave.
fn are_later(alloc: Global) -> Result<bool, AllocError> {
    let rows = rows_after(alloc, &[(EARLIER, 0), (BATCH, 0)])?;
    Ok(are_rows(&rows, &LATER))
}

// Operations on the rows of numbers below 100,000 whose keys are the numbers, most significant byte first: what stands before and behind each
// key, and whether each hundredth is left out.
fn many(alloc: Global, before: &[u8], behind: &[u8], some: bool) -> Result<Vec<u8>, AllocError> {
    let mut bytes = Vec::new(alloc);
    for number in 0..100_000u32 {
        if !some || number % 100 != 0 {
            bytes.extend_from_slice(before)?;
            bytes.extend_from_slice(&number.to_be_bytes())?;
            bytes.extend_from_slice(behind)?;
        }
    }
    Ok(bytes)
}

// How many chunks there are then, with and without rows, as the table's debug text shows them.
fn chunks_after(alloc: Global, batches: &[Batch]) -> Result<usize, AllocError> {
    let rows = rows_after(alloc, batches)?;
    let text = format!(in alloc; "{rows:?}")?;
    Ok(text.as_str().matches("Chunk {").count())
}

// Those of 100,000 rows of which 1000 stay.
fn chunks_of_few(alloc: Global) -> Result<usize, AllocError> {
    let sets = many(alloc, b"\x01\x04\0", b"\0\0\0\0", false)?;
    let drops = many(alloc, b"\x02\x04\0", b"", true)?;
    chunks_after(alloc, &[(&sets, 0), (&drops, 0), (b"", 0)])
}

/// Which comes out otherwise: the rows of a batch, operations that are cut by a byte, the chunks of few rows, or those where there is much
/// room, and where there was.
///
/// At most 32 chunks are spare, and a chunk has at most 128 rows.
pub fn first_wrong(alloc: Global) -> Result<Option<usize>, AllocError> {
    let few = chunks_of_few(alloc)?;
    Ok(first_false(&[
        are_later(alloc)?,
        decode(alloc, CUT)?.is_none(),
        8 <= few,
        few <= 1000 * 2 / 65 + 1 + 32,
        chunks_after(alloc, &[(EARLIER, 100_000)])? > 3000,
        chunks_after(alloc, &[(EARLIER, 100_000), (b"", 0)])? <= 1 + 32,
    ]))
}
