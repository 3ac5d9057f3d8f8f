//! The rows of a range of keys.
//!
//! `RowTable::range` gives an iterator that is seen as the list of the range. A loop over it says that what is left are the rows of the
//! range from a place on (`left_more`, `left_none` of `RangeLemmas`).
ghost use Rattle.std.specs.Prelude.{◌≡◌, ◌↔◌, ◌<◌, [], ◌++◌, true, IfSome, IsTrue, length, get_or, option_copied};
ghost use Rattle.std.specs.Fn.{FnReturnsAt};
ghost use Rattle.meta_rows.specs.Chunks.{joined, NoneEmpty};
ghost use Rattle.meta_rows.specs.Cursors.{TakesLast, StopsAt, BeginsReached, SkipsTo};

use crate::chunk::Chunk;
use byte_maps::Bytes;
use std::marker::Model;

/// The rows of a range that are still to come, lent one after the other in the order of their keys, and seen as their list.
/// (Ceph: a RocksDB iterator.)
#[derive(Drop)]
pub struct RowRange<'a> {
    // Of the chunk that it stands in.
    here: &'a [(Bytes, Bytes)],
    // Chunks that lie in the range as a whole.
    more: &'a [Chunk],
    // Of the chunk in which the range ends.
    last: &'a [(Bytes, Bytes)],
}

impl<'a> Model for RowRange<'a> {
    ghost use Rattle.std.specs.Prelude.{ℕ, List, ◌++◌};
    ghost use Rattle.meta_rows.specs.Chunks.{joined, NoneEmpty};

    ghost Value = { List (List ℕ × List ℕ) };

    ghost view = { λ a. a.here.now ++ (joined a.more.now ++ a.last.now) };

    ghost invariant = { λ a. NoneEmpty a.more.now };
}

// Whether there is a first row, and a test says of its value that it is reached.
fn begins_reached<F: Fn(&Bytes) -> bool>(rows: &[(Bytes, Bytes)], is_reached: &F) -> bool
    requires { F.IsAlwaysCallable is_reached.now }
    ensures { IsTrue result → BeginsReached (λ value. FnReturnsAt F.Fn is_reached.now value true) rows.now }
{
    match rows.first() {
        Some((_, value)) => is_reached(value),
        None => false,
    }
}

// How many rows are left out, so that the first one left is reached. It bisects, and leaves none out where those that are reached don't
// stand in front of the others.
fn stop_in<F: Fn(&Bytes) -> bool>(rows: &[(Bytes, Bytes)], is_reached: &F) -> usize
    requires { F.IsAlwaysCallable is_reached.now }
    ensures { StopsAt (λ value. FnReturnsAt F.Fn is_reached.now value true) rows.now result }
{
    let reached = rows.partition_point(|(_, value)| is_reached(value));
    let last = reached.saturating_sub(1);
    match rows.get(last) {
        Some((_, value)) if is_reached(value) => last,
        _ => 0,
    }
}

// The last chunk whose first row is reached, found as above.
fn chunk_reached<F: Fn(&Bytes) -> bool>(chunks: &[Chunk], is_reached: &F) -> Option<usize>
    requires { F.IsAlwaysCallable is_reached.now }
    ensures { IfSome result (λ at. (at < length chunks.now)
        × BeginsReached (λ value. FnReturnsAt F.Fn is_reached.now value true) (get_or chunks.now at [])) }
{
    let reached = chunks.partition_point(|chunk| match chunk.rows().first() {
        Some((_, value)) => is_reached(value),
        None => false,
    });
    let last = reached.checked_sub(1)?;
    if begins_reached(chunks.get(last)?.rows(), is_reached) {
        Some(last)
    } else {
        None
    }
}

impl<'a> RowRange<'a> {
    /// Rows, those of whole chunks, and rows behind them.
    pub fn new(
        here: &'a [(Bytes, Bytes)],
        more: &'a [Chunk],
        last: &'a [(Bytes, Bytes)],
    ) -> RowRange<'a>
        requires { NoneEmpty more.now }
        ensures { result ≡ here.now ++ (joined more.now ++ last.now) }
    {
        RowRange { here, more, last }
    }

    /// The same rows once more.
    pub fn again(&self) -> RowRange<'a>
        ensures { result ≡ self.now }
    {
        RowRange {
            here: self.here,
            more: self.more,
            last: self.last,
        }
    }

    // Goes on to the last piece whose first row is reached, if that isn't this one.
    fn skip_pieces<F: Fn(&Bytes) -> bool>(&mut self, is_reached: &F)
        requires { F.IsAlwaysCallable is_reached.now }
        ensures { SkipsTo (λ value. FnReturnsAt F.Fn is_reached.now value true) self.old self.new }
    {
        if begins_reached(self.last, is_reached) {
            self.here = self.last;
            self.more = &[];
            self.last = &[];
            return;
        }
        if let Some(at) = chunk_reached(self.more, is_reached) {
            self.here = self.more[at].rows();
            self.more = &self.more[at + 1..];
        }
    }

    /// Leaves out rows at the front: none, or so many that a test says of the first one left that its value is reached. It bisects: where the
    /// rows that are reached stand in front of the others, it is meant to be the last of them, which no clause says. (Ceph: `seek_shard`,
    /// which bisects the shards of an extent map.)
    pub fn skip_to<F: Fn(&Bytes) -> bool>(&mut self, is_reached: F)
        requires { F.IsAlwaysCallable is_reached }
        ensures { SkipsTo (λ value. FnReturnsAt F.Fn is_reached value true) self.old self.new }
    {
        self.skip_pieces(&is_reached);
        let here = self.here;
        self.here = &here[stop_in(here, &is_reached)..];
    }

    /// The last of the rows that are still to come, which doesn't come any more.
    pub fn next_back(&mut self) -> Option<&'a (Bytes, Bytes)>
        ensures { TakesLast self.old self.new (option_copied result) }
    {
        if let Some((row, last)) = self.last.split_last() {
            self.last = last;
            return Some(row);
        }
        if let Some((chunk, more)) = self.more.split_last() {
            let (row, last) = chunk.rows().split_last()?;
            self.more = more;
            self.last = last;
            return Some(row);
        }
        let (row, here) = self.here.split_last()?;
        self.here = here;
        Some(row)
    }
}

impl<'a> Iterator for RowRange<'a> {
    ghost use Rattle.std.specs.Iterator.{YieldsFirstRef, item_count};

    type Item = &'a (Bytes, Bytes);

    ghost next_gives = { YieldsFirstRef (λ s. s) };

    ghost remaining = { item_count (λ s. s) };

    fn next(&mut self) -> Option<&'a (Bytes, Bytes)> {
        if self.here.is_empty() {
            match self.more.split_first() {
                Some((chunk, more)) => {
                    self.here = chunk.rows();
                    self.more = more;
                }
                None => {
                    self.here = self.last;
                    self.last = &[];
                }
            }
        }
        let (row, here) = self.here.split_first()?;
        self.here = here;
        Some(row)
    }
}
