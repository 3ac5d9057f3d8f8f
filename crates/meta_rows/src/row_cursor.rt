//! Places in the spelling of a table's rows, and the bytes from one on.
//!
//! The spelling is that of the operations that set each row, in the order of the keys: the body of one record that makes all rows. It is
//! never made as a whole. A cursor is a key and a number of bytes, and knows nothing of chunks, so that it stands in any table of the
//! same rows. Its row is found by bisection, and from there each step is a row that is passed: the rows before it aren't looked at.
ghost use Rattle.std.specs.Prelude.{◌≡◌, ◌+◌, ◌-◌, ◌<◌, ◌≤◌, ◌^◌, length, take, drop, [], Some, IfOk, MatchOption};
ghost use Rattle.meta_rows.specs.Rows.{Rows};
ghost use Rattle.meta_rows.specs.Spelling.{ops_bytes, FitsRowOp, AllFit};
ghost use Rattle.meta_rows.specs.Table.{rows_size, rows_from_to, list_size};
ghost use Rattle.meta_rows.specs.Sets.{sets_of, row_sets};
ghost use Rattle.meta_rows.specs.Cursors.{bytes_before, rows_on, StandsIn};
ghost use Rattle.meta_rows.specs.declared.row_op.RowOp.TheVariants.{Set};

use crate::part::Part;
use crate::row_range::RowRange;
use crate::row_table::RowTable;
use byte_maps::{Bytes, Duplicate};
use std::alloc::{AllocError, Global};

/// A place in the spelling of rows: behind all bytes of the rows below a key, and so many bytes more.
#[derive(Debug, Drop)]
pub struct RowCursor {
    // All rows lie before it where there is no key.
    key: Option<Bytes>,
    passed: usize,
}

impl RowCursor {
    /// The place before all rows. It takes no memory.
    pub fn start(alloc: Global) -> RowCursor
        ensures { (rows : Rows) → bytes_before rows result ≡ 0 }
    {
        RowCursor {
            key: Some(Bytes::new(alloc)),
            passed: 0,
        }
    }

    /// The place behind all rows.
    pub fn end() -> RowCursor
        ensures { (rows : Rows) → bytes_before rows result ≡ rows_size rows }
    {
        RowCursor {
            key: None,
            passed: 0,
        }
    }

    // The place so many bytes before it, which it passed behind the rows below its key.
    fn back_in_row(&self, alloc: Global, count: usize) -> Result<RowCursor, AllocError>
        requires { count ≤ self.now.passed }
        ensures { IfOk result (λ at. (at.key ≡ self.now.key) × (at.passed + count ≡ self.now.passed)) }
    {
        let key = match &self.key {
            Some(key) => Some(key.duplicate(alloc)?),
            None => None,
        };
        Ok(RowCursor {
            key,
            passed: self.passed - count,
        })
    }
}

// The place behind so many bytes of the row of a key.
fn in_row(alloc: Global, key: &Bytes, passed: usize) -> Result<RowCursor, AllocError>
    ensures { IfOk result (λ at. (at.key ≡ Some key.now) × (at.passed ≡ passed)) }
{
    Ok(RowCursor {
        key: Some(key.duplicate(alloc)?),
        passed,
    })
}

// How many bytes a row has.
fn row_len(row: &(Bytes, Bytes)) -> usize
    requires { FitsRowOp (Set row.now.0 row.now.1) }
    ensures { result ≡ 7 + length row.now.0 + length row.now.1 }
{
    7 + row.0.len() + row.1.len()
}

// The bytes of rows behind so many, and so many.
fn part_of(
    alloc: Global,
    rows: RowRange<'_>,
    skip: usize,
    count: usize,
) -> Result<Vec<u8>, AllocError>
    requires { AllFit (sets_of rows) }
    ensures { IfOk result (λ bytes. bytes.items ≡ take count (drop skip (ops_bytes (sets_of rows.entry)))) }
{
    let mut part = Part::new(alloc, skip, count)?;
    for row in rows {
        if part.left == 0 {
            return Ok(part.bytes);
        }
        part.take_row(row)?;
    }
    Ok(part.bytes)
}

// The row in which so many bytes of the rows end, and how many of its own are among them; none where they end with the last row.
fn row_behind<'a>(rows: RowRange<'a>, count: usize) -> Option<(&'a Bytes, usize)>
    requires fit { AllFit (sets_of rows) }
    requires most { count ≤ list_size rows }
    ensures { MatchOption result (count ≡ list_size rows.entry) (λ p. StandsIn rows.entry p.0.now p.1 count) }
{
    let mut left = count;
    for row in rows {
        let size = row_len(row);
        if left < size {
            return Some((&row.0, left));
        }
        left -= size;
    }
    None
}

// The row in which all but the last so many bytes of the rows end, and how many of its own are among these.
fn row_before<'a>(rows: RowRange<'a>, count: usize) -> (&'a Bytes, usize)
    requires fit { AllFit (sets_of rows) }
    requires some { 0 < count }
    requires most { count ≤ list_size rows }
    ensures { StandsIn rows.entry result.0.now result.1 (list_size rows.entry - count) }
{
    let mut front = rows;
    let mut left = count;
    'rows: while let Some(row) = front.next_back() {
        let size = row_len(row);
        if left <= size {
            return (&row.0, size - left);
        }
        left -= size;
    }
    unreachable!()
}

impl RowTable {
    // The rows from the cursor's key on.
    fn rows_on<'a>(&'a self, at: &RowCursor) -> RowRange<'a>
        ensures { result ≡ rows_on self.now.rows at.now.key }
    {
        match &at.key {
            Some(key) => self.range(key.as_slice(), None),
            None => RowRange::new(&[], &[], &[]),
        }
    }

    // The rows below the cursor's key.
    fn rows_below<'a>(&'a self, at: &RowCursor) -> RowRange<'a>
        ensures { result ≡ rows_from_to self.now.rows [] at.now.key }
    {
        match &at.key {
            Some(key) => self.range(b"", Some(key.as_slice())),
            None => self.range(b"", None),
        }
    }

    /// The bytes from a place on, so many or up to the end.
    pub fn spelled(
        &self,
        alloc: Global,
        from: &RowCursor,
        count: usize,
    ) -> Result<Vec<u8>, AllocError>
        requires { AllFit (row_sets self.now.rows) }
        ensures { IfOk result (λ bytes. bytes.items ≡ take count (drop (bytes_before self.now.rows from.now) (ops_bytes (row_sets self.now.rows)))) }
    {
        part_of(alloc, self.rows_on(from), from.passed, count)
    }

    /// The place so many bytes behind another one.
    pub fn behind(
        &self,
        alloc: Global,
        from: &RowCursor,
        count: usize,
    ) -> Result<RowCursor, AllocError>
        requires fit { AllFit (row_sets self.now.rows) }
        requires size { rows_size self.now.rows < 2 ^ 64 }
        requires most { bytes_before self.now.rows from.now + count ≤ rows_size self.now.rows }
        ensures { IfOk result (λ at. bytes_before self.now.rows at ≡ bytes_before self.now.rows from.now + count) }
    {
        match row_behind(self.rows_on(from), from.passed + count) {
            Some((key, passed)) => in_row(alloc, key, passed),
            None => Ok(RowCursor::end()),
        }
    }

    /// The place so many bytes before another one.
    pub fn before(
        &self,
        alloc: Global,
        from: &RowCursor,
        count: usize,
    ) -> Result<RowCursor, AllocError>
        requires fit { AllFit (row_sets self.now.rows) }
        requires most { count ≤ bytes_before self.now.rows from.now }
        ensures { IfOk result (λ at. bytes_before self.now.rows at + count ≡ bytes_before self.now.rows from.now) }
    {
        if count <= from.passed {
            return from.back_in_row(alloc, count);
        }
        let (key, passed) = row_before(self.rows_below(from), count - from.passed);
        in_row(alloc, key, passed)
    }
}
