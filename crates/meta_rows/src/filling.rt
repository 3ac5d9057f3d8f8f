//! Chunks that are filled one after the other, by operations in the order of their keys.
ghost use Rattle.std.specs.Prelude.{◌≡◌, ◌+◌, ◌^◌, ◌<◌, ◌%◌, ℕ, suc, List, [], ◌++◌, ◌∷◌, length, None, T, false, IsTrue, IfOk};
ghost use Rattle.std.specs.FinMap as map;
ghost use Rattle.std.specs.Vec.{vec_len};
ghost use Rattle.std.specs.List.{AllByRecursion};
ghost use Rattle.std.specs.Ordering.{is_lt};
ghost use Rattle.byte_maps.specs.ByteMap.{byte_order};
ghost use Rattle.meta_rows.specs.Rows.{key_of, rows_after};
ghost use Rattle.meta_rows.specs.Table.{AllBelow, entries_after, value_left, list_size};
ghost use Rattle.meta_rows.specs.Chunks.{joined, IsChunked};
ghost use Rattle.meta_rows.specs.Filling.{Rises, held_rows, held_value, row_left, rows_of, gap, HasSpace, IsShaped, IsAppended, IsFilling, HoldsKey, NotBelow, Awaits};

use crate::chunk::{Chunk, row_size};
use crate::chunk_list::{ChunkList, FRONT};
use crate::row_change::left_by;
use crate::row_op::RowOp;
use byte_maps::{Bytes, byte_order};
use std::alloc::{AllocError, Global};
use std::cmp::Ordering;

// The rows that a chunk gets before the next one is begun: so more may come between them later.
const FILLED: usize = 96;

/// Rows of ascending keys in chunks, and the last of them apart from the others, since more operations of its key may come.
#[derive(Drop)]
pub struct Filling {
    /// The chunks, and spare ones.
    pub all: ChunkList,
    held: Option<(Bytes, Bytes)>,
    // The bytes of the rows in the chunks, in 64 bits.
    size: u64,
}

// How many rows the last chunk gets before the next one is begun.
fn gap_of(chunks: &[Chunk]) -> usize
    ensures { result ≡ gap chunks.now }
{
    if chunks.is_empty() {
        return 0;
    }
    FILLED.saturating_sub(chunks[chunks.len() - 1].len())
}

// Begins the next chunk with a row.
fn begin(into: &mut ChunkList, row: (Bytes, Bytes))
    requires shaped { IsShaped into.old }
    requires filled { gap into.old.list.items ≡ 0 }
    requires spare { 0 < vec_len into.old.spare }
    ensures { IsAppended row into.old into.new }
{
    match into.spare.pop() {
        Some(chunk) => {
            let mut chunk = chunk;
            chunk.push(row);
            into.list.push_reserved(chunk);
        }
        None => unreachable!(),
    }
}

// Puts a row into the last chunk.
fn add(into: &mut ChunkList, row: (Bytes, Bytes))
    requires shaped { IsShaped into.old }
    requires gap { 0 < gap into.old.list.items }
    ensures { IsAppended row into.old into.new }
{
    match into.list.pop() {
        Some(last) => {
            let mut last = last;
            last.push(row);
            into.list.push_reserved(last);
        }
        None => unreachable!(),
    }
}

// Puts a row behind all others.
fn append(into: &mut ChunkList, row: (Bytes, Bytes))
    requires shaped { IsShaped into.old }
    requires room { HasSpace 1 into.old }
    ensures { IsAppended row into.old into.new }
{
    if gap_of(into.list.as_slice()) == 0 {
        begin(into, row);
        return;
    }
    add(into, row);
}

fn value_of(held: Option<(Bytes, Bytes)>) -> Option<Bytes>
    ensures { result ≡ held_value held }
{
    match held {
        Some((_, value)) => Some(value),
        None => None,
    }
}

fn row_of(key: Bytes, left: Option<Bytes>) -> Option<(Bytes, Bytes)>
    ensures { result ≡ row_left key left }
{
    match left {
        Some(value) => Some((key, value)),
        None => None,
    }
}

impl Filling {
    /// No rows, and chunks for one more than so many.
    pub fn new(alloc: Global, rows: usize) -> Result<Filling, AllocError>
        ensures state { IfOk result IsFilling }
        ensures none { IfOk result (λ f. rows_of f ≡ []) }
        ensures room { IfOk result (λ f. HasSpace (suc rows) f.all) }
    {
        let mut all = ChunkList {
            list: Vec::new(alloc),
            spare: Vec::new(alloc),
            near: FRONT,
        };
        all.reserve(alloc, rows / FILLED + 1)?;
        Ok(Filling {
            all,
            held: None,
            size: 0,
        })
    }

    // Whether the row that is held back has this key.
    fn holds(&self, key: &[u8]) -> bool
        ensures yes { IsTrue result → HoldsKey key.now self.now.held }
        ensures other { result ≡ false → NotBelow key.now self.now.held → AllBelow key.now (held_rows self.now.held) }
    {
        match &self.held {
            Some(row) => matches!(byte_order(row.0.as_slice(), key), Ordering::Equal),
            None => false,
        }
    }

    // What an operation leaves of the row that is held back.
    fn change_held(&mut self, op: RowOp)
        ensures { self.new ≡ record self.old { held = row_left (key_of op) (value_left (held_value self.old.held) op) } }
    {
        let held = value_of(self.held.take());
        let (key, left) = left_by(held, op);
        self.held = row_of(key, left);
    }

    // Puts the row that is held back behind the others, if there is one.
    fn put_held(&mut self)
        requires state { IsFilling self.old }
        requires room { HasSpace 1 self.old.all }
        ensures rows { joined self.new.all.list.items ≡ rows_of self.old }
        ensures none { self.new.held ≡ None }
        ensures state { IsFilling self.new }
        ensures room { (n : ℕ) → HasSpace (suc n) self.old.all → HasSpace n self.new.all }
    {
        let Some(row) = self.held.take() else {
            return;
        };
        self.size = self.size.wrapping_add(row_size(&row.0, &row.1));
        append(&mut self.all, row);
    }

    /// The rows after an operation of a key that is above those in the chunks, and not below the one of the row that is held back.
    pub fn take(&mut self, op: RowOp)
        requires state { IsFilling self.old }
        requires awaits { Awaits (key_of op) self.old }
        requires room { HasSpace 1 self.old.all }
        ensures rows { rows_of self.new ≡ entries_after (rows_of self.old) op }
        ensures state { IsFilling self.new }
        ensures awaits { (key : List ℕ) → Awaits key self.old → is_lt (byte_order key (key_of op)) ≡ false → Awaits key self.new }
        ensures room { (n : ℕ) → HasSpace (suc n) self.old.all → HasSpace n self.new.all }
    {
        if self.holds(op.key()) {
            self.change_held(op);
            return;
        }
        self.put_held();
        self.change_held(op);
    }

    /// One row more, of a key above all others.
    pub fn take_row(&mut self, row: (Bytes, Bytes))
        requires state { IsFilling self.old }
        requires order { T (map.is_sorted byte_order (rows_of self.old ++ row ∷ [])) }
        requires room { HasSpace 1 self.old.all }
        ensures rows { rows_of self.new ≡ rows_of self.old ++ row ∷ [] }
        ensures state { IsFilling self.new }
        ensures awaits { (key : List ℕ) → is_lt (byte_order key row.0) ≡ false → Awaits key self.new }
        ensures room { (n : ℕ) → HasSpace (suc n) self.old.all → HasSpace n self.new.all }
    {
        self.put_held();
        self.held = Some(row);
    }

    /// The rows after these operations, one after the other.
    pub fn take_all(&mut self, ops: Vec<RowOp>)
        requires state { IsFilling self.old }
        requires rises { Rises ops.items }
        requires awaits { AllByRecursion (λ op. Awaits (key_of op) self.old) ops.items }
        requires room { HasSpace (suc (length ops.items)) self.old.all }
        ensures state { IsFilling self.new }
        ensures rows { map.from_sorted {R = byte_order} (rows_of self.new) ≡ rows_after (map.from_sorted {R = byte_order} (rows_of self.old)) ops.items }
        ensures room { HasSpace 1 self.new.all }
    {
        for op in ops {
            self.take(op);
        }
    }

    /// The rows in chunks, and their bytes in 64 bits.
    pub fn finish(self) -> (ChunkList, u64)
        requires state { IsFilling self }
        requires room { HasSpace 1 self.all }
        ensures rows { joined result.0.list.items ≡ rows_of self }
        ensures chunked { IsChunked result.0 }
        ensures size { result.1 ≡ list_size (rows_of self) % 2 ^ 64 }
    {
        let mut filling = self;
        filling.put_held();
        (filling.all, filling.size)
    }
}
