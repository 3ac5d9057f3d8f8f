//! Transactions spelled by hand: which operation each one's bytes say, and bytes that say nothing.
use object_model::Op;
use std::alloc::{AllocError, Global};
use txn_codec::{decode, encode, what_was_read_is_encodable};

// The version, the collection, and one operation, which is to follow.
const HEAD: &[u8] = b"\x01\x081.0_head\x01\0";

// The bytes of each operation, and its word.
static OPS: [(&[u8], &str); 17] = [
    (b"\x01", "mkcoll"),
    (b"\x02", "rmcoll"),
    (b"\x03\x01o", "touch"),
    (b"\x04\x01o\x01\x02\0\0\0\0\0\0\x03\0\0\0xyz", "write"),
    (b"\x05\x01o\x01\x02\0\0\0\0\0\0\x03\x04\0\0\0\0\0\0", "zero"),
    (b"\x06\x02oo\0\0\0\0\0\0\0\x01", "truncate"),
    (b"\x07\x01o", "remove"),
    (b"\x08\x01o\x02at\x01\0\0\0v", "setattr"),
    (b"\x09\x01o\x02at", "rmattr"),
    (b"\x0a\x01o", "rmattrs"),
    (b"\x0b\x01o\x01p", "clone"),
    (
        b"\x0c\x01o\x01p\x01\x02\0\0\0\0\0\0\x03\x04\0\0\0\0\0\0\x05\x06\0\0\0\0\0\0",
        "clonerange",
    ),
    (b"\x0d\x01o\x02\0\x01k\x02\0\0\0vw\x01l\0\0\0\0", "omapset"),
    (b"\x0e\x01o\x02\0\x01k\x01l", "omaprm"),
    (b"\x0f\x01o\x01a\x01z", "omaprmrange"),
    (b"\x10\x01o", "omapclear"),
    (b"\x11\x01o\x02\0\0\0hd", "omapheader"),
];

fn joined(alloc: Global, front: &[u8], back: &[u8]) -> Result<Vec<u8>, AllocError> {
    let mut both = Vec::from_slice(alloc, front)?;
    both.extend_from_slice(back)?;
    Ok(both)
}

// An operation's word in a script.
fn word_of(op: &Op) -> &'static str {
    match op {
        Op::MkColl => "mkcoll",
        Op::RmColl => "rmcoll",
        Op::Touch { .. } => "touch",
        Op::Write { .. } => "write",
        Op::Zero { .. } => "zero",
        Op::Truncate { .. } => "truncate",
        Op::Remove { .. } => "remove",
        Op::SetAttr { .. } => "setattr",
        Op::RmAttr { .. } => "rmattr",
        Op::RmAttrs { .. } => "rmattrs",
        Op::Clone { .. } => "clone",
        Op::CloneRange { .. } => "clonerange",
        Op::OmapSet { .. } => "omapset",
        Op::OmapRm { .. } => "omaprm",
        Op::OmapRmRange { .. } => "omaprmrange",
        Op::OmapClear { .. } => "omapclear",
        Op::OmapHeader { .. } => "omapheader",
    }
}

// The transaction written again.
fn again(alloc: Global, bytes: &[u8]) -> Result<Option<Vec<u8>>, AllocError> {
    what_was_read_is_encodable();
    match decode(alloc, bytes)? {
        Some((transaction, _)) => Ok(Some(encode(alloc, &transaction)?)),
        None => Ok(None),
    }
}

// The word of the one operation that these bytes say, with a byte behind them.
fn said(alloc: Global, op: &[u8]) -> Result<&'static str, AllocError> {
    let bytes = joined(alloc, &joined(alloc, HEAD, op)?, b"\xff")?;
    match decode(alloc, &bytes)? {
        Some((transaction, _)) => Ok(transaction.ops().first().map_or("none", word_of)),
        None => Ok("nothing"),
    }
}

// Whether these bytes say the operation with this word, and its transaction is written as it was read.
fn is_spelled(alloc: Global, op: &[u8], word: &str) -> Result<bool, AllocError> {
    let whole = joined(alloc, HEAD, op)?;
    Ok(said(alloc, op)? == word && again(alloc, &whole)? == Some(whole))
}

/// The place of the first operation that is spelled otherwise.
pub fn first_wrong(alloc: Global) -> Result<Option<usize>, AllocError> {
    for (i, (bytes, word)) in OPS.iter().enumerate() {
        if !is_spelled(alloc, bytes, word)? {
            return Ok(Some(i));
        }
    }
    Ok(None)
}

// How many bytes are used, or none.
static WHOLE: [(&[u8], Option<usize>); 16] = [
    (b"\x01\x081.0_head\x01\0\x01", Some(13)),
    (b"\x01\x081.0_head\x01\0", None),
    (b"\x01\x081.0_head\x02\0\x01\x02", Some(14)),
    (b"\x01\x081.0_head\x02\0\x01", None),
    (b"\x01\x081.0_head\0\0\x01", None),
    (b"\x02\x081.0_head\x01\0\x01", None),
    (b"\x01\x0801.0_head\x01\0\x01", None),
    (b"\x01\x04meta\x01\0\x01", None),
    (b"\x01\x081.0_head\x01\0\0", None),
    (b"\x01\x081.0_head\x01\0\x12\x01o", None),
    (b"\x01\x081.0_head\x01\0\x03\x02o\0", None),
    (b"\x01\x081.0_head\x01\0\x03\0", None),
    (b"\x01\x081.0_head\x01\0\x0d\x01o\0\0", None),
    (b"\x01\x081.0_head\x01\0\x0e\x01o\0\0", None),
    (b"\x01\x081.0_head\x01\0\x0e\x01o\x01\0\x02k", None),
    (b"", None),
];

/// The place of the first of these of which another number of bytes is used.
pub fn first_wrong_front(alloc: Global) -> Result<Option<usize>, AllocError> {
    for (i, (bytes, wanted)) in WHOLE.iter().enumerate() {
        if decode(alloc, bytes)?.map(|found| found.1) != *wanted {
            return Ok(Some(i));
        }
    }
    Ok(None)
}
