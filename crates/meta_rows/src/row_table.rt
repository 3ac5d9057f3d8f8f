//! The rows in memory, in the order of their keys.
//!
//! The rows of a `RowTable` lie in chunks of 1 to 128 rows, in one list of chunks: a row that comes or goes moves at most 127 rows and,
//! where a chunk is split or goes, the chunks behind it, of which there is one for 64 rows or so. A look-up bisects the chunks by their
//! first keys, then one chunk. `apply` goes through a batch one by one, and looks first beside the row of the operation before: where the
//! keys ascend and no row lies between them, two comparisons tell the place. Keys are compared by numbers of eight bytes.
//! `apply_all`, for many operations at once, brings them into the order of their keys and, where they are an eighth of the rows or more,
//! merges them with the rows, moved, into new chunks of 96. A mount calls it once for many records: their operations wait until they take
//! 8 MiB of memory or about that, so that few merges go over the rows that are there, and what waits takes a bounded part of the memory.
//! It brings them near to that order first, by a number of eight bytes of each key, since numbers are compared sooner than keys, which
//! lie all over the memory. Operations on rows of the bitmap are applied by eights: they come to few rows, and their buffers are used
//! again for the next ones.
//!
//! `RowTable::size` is kept modulo 2^64, and is the sum where that is below 2^64, which it asks for.
ghost use Rattle.std.specs.Prelude.{◌≡◌, ◌↔◌, ◌+◌, ◌*◌, ◌^◌, ◌<◌, ◌≤◌, length, take, drop, T, IsTrue, IfOk, IfSome, OnOk, OnErr, option_copied};
ghost use Rattle.std.specs.FinMap as map;
ghost use Rattle.byte_maps.specs.ByteMap.{byte_order};
ghost use Rattle.meta_rows.specs.Rows.{Rows, row_after, rows_after};
ghost use Rattle.meta_rows.specs.Table.{rows_size, rows_from_to, StartsAt, IsLastBelow, EndsAt};
ghost use Rattle.meta_rows.specs.Filling.{Rises};
ghost use Rattle.meta_rows.specs.Sets.{row_sets};
ghost use Rattle.meta_rows.specs.Chunks.{joined, NoneEmpty, IsPlace, rows_before};

use crate::chunk::{Chunk, start_of};
use crate::chunk_list::{ChunkList, FEWEST, FRONT, chunk_of};
use crate::filling::Filling;
use crate::merging::Merging;
use crate::row_op::RowOp;
use crate::row_range::RowRange;
use byte_maps::{Bytes, byte_order};
use std::alloc::{AllocError, Global};
use std::marker::Model;
use std::mem::replace;

/// The rows of the store in memory, seen as the finite map and how many more operations it takes without memory.
///
/// They lie in chunks of 1 to 128 rows in the order of their keys. A look-up bisects the chunks by their first keys, and then one
/// chunk; an operation looks first beside the row of the one before, and then into its chunk. A row that comes or goes moves those
/// behind it in its chunk alone, 64 bytes each. A chunk of 128 rows is split before one more comes, into a spare chunk of 8192 bytes:
/// where the key comes, but neither part has more than 96 rows. So rows that come in the order of their keys in one place move at most
/// 32 others from then on.
/// A chunk that loses a row is joined with a neighbour where they have 64 rows together or fewer, and is spare again. Spare
/// chunks that no operation for which there is room needs are given back, but for 32. In Ceph it is RocksDB that holds the rows.
#[derive(Debug, Drop)]
pub struct RowTable {
    all: ChunkList,
    // The operations for which there are spare chunks.
    room: usize,
    // The bytes of the rows, in 64 bits.
    size: u64,
}

impl Model for RowTable {
    ghost use Rattle.std.specs.Prelude.{◌≡◌, ◌%◌, ◌^◌};
    ghost use Rattle.std.specs.FinMap as map;
    ghost use Rattle.byte_maps.specs.ByteMap.{byte_order};
    ghost use Rattle.meta_rows.specs.Table.{RowsWithRoom, rows_with_room_code, list_size};
    ghost use Rattle.meta_rows.specs.Chunks.{joined, IsChunked, HasSpares};

    ghost Value = { RowsWithRoom };

    ghost coded = { rows_with_room_code };

    ghost view = { λ a. record { rows = map.from_sorted {R = byte_order} (joined a.all.list.items); room = a.room } };

    ghost invariant = { λ a. IsChunked a.all × HasSpares a.room a.all × (a.size ≡ list_size (joined a.all.list.items) % 2 ^ 64) };
}

// Where the keys begin that are at least this one: a chunk, and the place of a row in it.
fn begin_of(chunks: &[Chunk], key: &[u8]) -> (usize, usize)
    requires some { 0 < length chunks.now }
    requires none_empty { NoneEmpty chunks.now }
    requires order { T (map.is_sorted byte_order (joined chunks.now)) }
    ensures place { IsPlace chunks.now result }
    ensures begins { StartsAt key.now (joined chunks.now) (rows_before chunks.now result) }
{
    let at = chunk_of(chunks, key);
    (at, start_of(chunks[at].rows(), key))
}

// Where the keys end that are below this one; all are where there is none.
fn end_of(chunks: &[Chunk], end: Option<&[u8]>) -> (usize, usize)
    requires some { 0 < length chunks.now }
    requires none_empty { NoneEmpty chunks.now }
    requires order { T (map.is_sorted byte_order (joined chunks.now)) }
    ensures place { IsPlace chunks.now result }
    ensures ends { EndsAt (option_copied end.entry) (joined chunks.now) (rows_before chunks.now result) }
{
    match end {
        Some(key) => begin_of(chunks, key),
        None => {
            let last = chunks.len() - 1;
            (last, chunks[last].rows().len())
        }
    }
}

// Whether the row at a place is below a key, and the one behind it is there and isn't.
fn ends_behind(rows: &[(Bytes, Bytes)], at: usize, key: &[u8]) -> bool
    ensures { IsTrue result → IsLastBelow key.now rows.now at }
{
    if rows.len().saturating_sub(at) < 2 {
        return false;
    }
    byte_order(rows[at].0.as_slice(), key).is_lt()
        && !byte_order(rows[at + 1].0.as_slice(), key).is_lt()
}

// Where the keys end that are below this one, for rows from a place on. Where the row at that place is the last one below it, and not
// the last one of its chunk, two comparisons tell.
fn end_from(chunks: &[Chunk], from: (usize, usize), end: Option<&[u8]>) -> (usize, usize)
    requires some { 0 < length chunks.now }
    requires none_empty { NoneEmpty chunks.now }
    requires order { T (map.is_sorted byte_order (joined chunks.now)) }
    requires from { IsPlace chunks.now from }
    ensures place { IsPlace chunks.now result }
    ensures ends { EndsAt (option_copied end.entry) (joined chunks.now) (rows_before chunks.now result) }
{
    if let Some(key) = end {
        if ends_behind(chunks[from.0].rows(), from.1, key) {
            return (from.0, from.1 + 1);
        }
    }
    end_of(chunks, end)
}

// The spare chunks that stay where no operation needs them, so that small batches don't make and give back the same ones over and over.
const KEPT: usize = 32;

// The operations for each chunk from which on all rows are merged with them: there are at most eight times as many rows then.
const MANY: usize = 16;

// The rows of one chunk from one place up to another.
fn part_of(rows: &[(Bytes, Bytes)], from: usize, to: usize) -> &[(Bytes, Bytes)]
    requires { to ≤ length rows.now }
    ensures { result.now ≡ drop from (take to rows.now) }
{
    if from < to { &rows[from..to] } else { &[] }
}

// The rows from one place up to another.
fn between<'a>(chunks: &'a [Chunk], from: (usize, usize), to: (usize, usize)) -> RowRange<'a>
    requires none_empty { NoneEmpty chunks.now }
    requires from { IsPlace chunks.now from }
    requires to { IsPlace chunks.now to }
    ensures { result ≡ drop (rows_before chunks.now from) (take (rows_before chunks.now to) (joined chunks.now)) }
{
    if from.0 < to.0 {
        let here = &chunks[from.0].rows()[from.1..];
        let last = &chunks[to.0].rows()[..to.1];
        RowRange::new(here, &chunks[from.0 + 1..to.0], last)
    } else if from.0 == to.0 {
        RowRange::new(part_of(chunks[from.0].rows(), from.1, to.1), &[], &[])
    } else {
        RowRange::new(&[], &[], &[])
    }
}

// How many spare chunks so many operations need at most.
fn spare_for(ops: usize, chunks: usize) -> usize
    ensures { result < ops → ops + 32 + 32 * chunks ≤ 32 * result }
{
    let many = (ops / FEWEST).saturating_add(chunks).saturating_add(2);
    if ops < many { ops } else { many }
}

// The operations in the order of their keys, those of one key in the order in which they stand.
fn by_key(ops: Vec<RowOp>) -> Result<Vec<RowOp>, AllocError>
    ensures rows { IfOk result (λ sorted. (rows : Rows) → rows_after rows sorted.items ≡ rows_after rows ops.items) }
    ensures rises { IfOk result (λ sorted. Rises sorted.items) }
{
    let mut sorted = ops;
    sorted.sort_by(|one, other| byte_order(one.key(), other.key()))?;
    Ok(sorted)
}

// The chunks' rows and so many operations together, if 64 bits hold the number.
fn merged_at_most(chunks: &[Chunk], ops: usize) -> Option<usize>
    ensures { IfSome result (λ n. n ≡ length (joined chunks.now) + ops) }
{
    let mut sum = ops;
    for chunk in chunks {
        sum = sum.checked_add(chunk.len())?;
    }
    Some(sum)
}

// How many rows the chunks have, if 64 bits hold the number.
fn rows_in(chunks: &[Chunk]) -> usize
    ensures { length (joined chunks.now) < 2 ^ 64 → result ≡ length (joined chunks.now) }
{
    let mut sum = 0usize;
    for chunk in chunks {
        sum = sum.saturating_add(chunk.len());
    }
    sum
}

// The chunks once more.
fn copied(chunks: &[Chunk], alloc: Global) -> Result<Vec<Chunk>, AllocError>
    ensures { IfOk result (λ v. v.items ≡ chunks.now) }
{
    let mut list = Vec::with_capacity(alloc, chunks.len())?;
    for chunk in chunks {
        list.push(chunk.copy(alloc)?)?;
    }
    Ok(list)
}

impl RowTable {
    /// No rows. It takes no memory, and has no room.
    pub fn new(alloc: Global) -> RowTable
        ensures { result.rows ≡ map.empty }
    {
        RowTable {
            all: ChunkList {
                list: Vec::new(alloc),
                spare: Vec::new(alloc),
                near: FRONT,
            },
            room: 0,
            size: 0,
        }
    }

    /// The same rows once more. It looks at each row once, and makes one buffer for each chunk, and for each key and each value of more than
    /// 30 bytes.
    pub fn copy(&self, alloc: Global) -> Result<RowTable, AllocError>
        ensures { IfOk result (λ t. t.rows ≡ self.now.rows) }
    {
        let list = copied(self.all.list.as_slice(), alloc)?;
        let spare = Vec::with_capacity(alloc, list.len())?;
        Ok(RowTable {
            all: ChunkList {
                list,
                spare,
                near: FRONT,
            },
            room: 0,
            size: self.size,
        })
    }

    /// The value of a row, lent. The look-up takes as many comparisons as the number of rows has bits, and one or two more.
    pub fn get(&self, key: &[u8]) -> Option<&Bytes>
        ensures { option_copied result ≡ map.get self.now.rows key.now }
    {
        self.all.get(key)
    }

    /// Whether there is no row.
    pub fn is_empty(&self) -> bool
        ensures { IsTrue result ↔ (self.now.rows ≡ map.empty) }
    {
        self.all.list.as_slice().is_empty()
    }

    /// The rows whose keys are at least `first` and below `end`, in the order of their keys; up to the last one where there is no
    /// end. It bisects once, and for an end a second time unless the range is one row, and not the last one of its chunk. It lends
    /// them one after the other. (Ceph: a RocksDB iterator, from its lower bound up to its upper bound.)
    pub fn range<'a>(&'a self, first: &[u8], end: Option<&[u8]>) -> RowRange<'a>
        ensures { result ≡ rows_from_to self.now.rows first.now (option_copied end.entry) }
    {
        let chunks = self.all.list.as_slice();
        if chunks.is_empty() {
            return RowRange::new(&[], &[], &[]);
        }
        let from = begin_of(chunks, first);
        between(chunks, from, end_from(chunks, from, end))
    }

    /// How many bytes the rows have, each spelled as an operation that sets it: the body of the record that a switch of the log's
    /// halves writes. The number is kept.
    pub fn size(&self) -> u64
        requires { rows_size self.now.rows < 2 ^ 64 }
        ensures { result ≡ rows_size self.now.rows }
    {
        self.size
    }

    /// How many rows there are. It looks at each chunk once.
    pub fn len(&self) -> usize
        requires { rows_size self.now.rows < 2 ^ 64 }
        ensures { result ≡ length (row_sets self.now.rows) }
    {
        rows_in(self.all.list.as_slice())
    }

    /// Makes room for so many operations, so that `apply` takes no memory, and for no more than these. Each may have to split a chunk,
    /// so there is a spare chunk for each operation; for more operations than there are chunks one for each chunk, two, and one for
    /// each 32 operations.
    pub fn reserve(&mut self, ops: usize) -> Result<(), AllocError>
        ensures rows { self.new.rows ≡ self.old.rows }
        ensures ok { OnOk result (ops ≤ self.new.room) }
        ensures err { OnErr result (self.new ≡ self.old) }
    {
        let alloc = *self.all.list.allocator();
        let chunks = self.all.list.len();
        self.all.reserve(alloc, spare_for(ops, chunks))?;
        self.room = ops;
        Ok(())
    }

    fn apply_one(&mut self, op: RowOp)
        requires { 0 < self.old.room }
        ensures rows { self.new.rows ≡ row_after self.old.rows op }
        ensures room { self.old.room ≤ self.new.room + 1 }
    {
        let more = self.all.apply_one(op);
        self.size = self.size.wrapping_add(more);
        self.room -= 1;
    }

    // Gives the spare chunks back that no operation for which there is room needs, but for some.
    fn give_back(&mut self)
        ensures { self.new ≡ self.old }
    {
        let most = spare_for(self.room, self.all.list.len()).saturating_add(KEPT);
        self.all.give_back(most);
    }

    /// The rows after these operations, one after the other, by room that `reserve` made. It takes no memory: a set row keeps the
    /// buffers that are moved in, and a flipped one the longer of its value and its mask. (Ceph: the memtable after a write batch.)
    pub fn apply(&mut self, ops: Vec<RowOp>)
        requires { length ops.items ≤ self.old.room }
        ensures rows { self.new.rows ≡ rows_after self.old.rows ops.items }
        ensures room { self.old.room ≤ self.new.room + length ops.items }
    {
        for op in ops {
            self.apply_one(op);
        }
        self.give_back();
    }

    // The rows after operations in the order of their keys, in new chunks.
    fn merge(&mut self, alloc: Global, sorted: Vec<RowOp>) -> Result<(), AllocError>
        requires rises { Rises sorted.items }
        ensures rows { OnOk result (self.new.rows ≡ rows_after self.old.rows sorted.items) }
        ensures kept { OnErr result (self.new ≡ self.old) }
    {
        let Some(most) = merged_at_most(self.all.list.as_slice(), sorted.len()) else {
            return Err(AllocError);
        };
        let merging = Merging::new(Filling::new(alloc, most)?, sorted);
        let chunks = replace(&mut self.all.list, Vec::new(alloc));
        let (all, size) = merging.take_all(chunks).finish();
        self.all = all;
        self.room = 0;
        self.size = size;
        self.give_back();
        Ok(())
    }

    /// The rows after these operations, one after the other, however many they are, with what memory that takes: for the replay of
    /// the log, when a store is opened. They are brought into the order of their keys first, those of one key in the order in which
    /// they stand: by as many comparisons as there are operations where their keys ascend already, else by as many for each as their
    /// number has bits. Where they are an eighth of the rows or more they are merged with them, by one comparison or two for each
    /// row and each operation, into new chunks of 96 rows, one for each 96 of both;
    /// else they are applied in that order.
    /// Where memory is wanting the table stays as it was, and the operations are lost. (Ceph: RocksDB's replay of its log.)
    pub fn apply_all(&mut self, alloc: Global, ops: Vec<RowOp>) -> Result<(), AllocError>
        ensures rows { OnOk result (self.new.rows ≡ rows_after self.old.rows ops.items) }
        ensures err { OnErr result (self.new.rows ≡ self.old.rows) }
        ensures kept { OnErr result (self.new ≡ self.old) }
    {
        let sorted = by_key(ops)?;
        if self.all.list.len() <= sorted.len() / MANY {
            return self.merge(alloc, sorted);
        }
        self.reserve(sorted.len())?;
        self.apply(sorted);
        Ok(())
    }
}
