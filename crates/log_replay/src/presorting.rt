//! Operations brought near to the order of their keys by a few bytes of each, so that little is left to sort.
ghost use Rattle.std.specs.Prelude.{◌≡◌, drop, get_or, OnOk, IfOk};
ghost use Rattle.meta_rows.specs.Prelude.{Rows, rows_after};
ghost use Rattle.log_replay.specs.Gathering.{first_word};

use meta_rows::{RowOp, RowTable};
use std::alloc::{AllocError, Global};

// So many keys tell where most of them differ.
const SAMPLES: usize = 64;

// So many of them may be of another kind.
const ODD: usize = 2;

// How many bytes at the front both have in common.
fn common_count(one: &[u8], other: &[u8]) -> usize {
    let both = one.len().min(other.len());
    for i in 0..both {
        if one[i] != other[i] {
            return i;
        }
    }
    both
}

// How many bytes at the front each of some keys has in common with one in the middle.
fn common_counts(alloc: Global, ops: &[RowOp]) -> Result<Vec<usize>, AllocError> {
    let mut counts = Vec::with_capacity(alloc, SAMPLES)?;
    let step = ops.len() / SAMPLES;
    let Some(middle) = ops.get(ops.len() / 2) else {
        return Ok(counts);
    };
    for k in 0..SAMPLES {
        if let Some(op) = ops.get(step.saturating_mul(k)) {
            counts.push(common_count(middle.key(), op.key()))?;
        }
    }
    Ok(counts)
}

// How many bytes at the front almost all keys have in common.
fn usual_front(alloc: Global, ops: &[RowOp]) -> Result<usize, AllocError> {
    let mut counts = common_counts(alloc, ops)?;
    counts.sort_unstable();
    match counts.get(ODD) {
        Some(count) => Ok(*count),
        None => Ok(0),
    }
}

fn behind(key: &[u8], at: usize) -> &[u8]
    ensures { result.now ≡ drop at key.now }
{
    if at < key.len() { &key[at..] } else { &[] }
}

// A byte, or zero behind the end.
fn byte_at(bytes: &[u8], at: usize) -> u8
    ensures { result ≡ get_or bytes.now at 0 }
{
    match bytes.get(at) {
        Some(byte) => *byte,
        None => 0,
    }
}

// The first eight bytes as a number, those behind the end being zero.
fn word_of(bytes: &[u8]) -> u64
    ensures { result ≡ first_word bytes.now }
{
    u64::from_be_bytes([
        byte_at(bytes, 0),
        byte_at(bytes, 1),
        byte_at(bytes, 2),
        byte_at(bytes, 3),
        byte_at(bytes, 4),
        byte_at(bytes, 5),
        byte_at(bytes, 6),
        byte_at(bytes, 7),
    ])
}

// The operations in the order of eight bytes of their keys, the first ones in which most differ, and those that don't differ in the order in
// which they stand. No key is read for a comparison.
fn presorted(alloc: Global, ops: Vec<RowOp>) -> Result<Vec<RowOp>, AllocError>
    ensures { IfOk result (λ sorted. (rows : Rows) → rows_after rows sorted.items ≡ rows_after rows ops.items) }
{
    let mut sorted = ops;
    let front = usual_front(alloc, &sorted)?;
    sorted.sort_by_cached_key(|op| word_of(behind(op.key(), front)))?;
    Ok(sorted)
}

/// The rows after these operations, one after the other.
pub(crate) fn apply_presorted(
    rows: &mut RowTable,
    alloc: Global,
    ops: Vec<RowOp>,
) -> Result<(), AllocError>
    ensures { OnOk result (rows.new.rows ≡ rows_after rows.old.rows ops.items) }
{
    let sorted = presorted(alloc, ops)?;
    rows.apply_all(alloc, sorted)
}
