//! The rows of a table and operations, both in the order of their keys, merged into new chunks.
ghost use Rattle.std.specs.Prelude.{◌≡◌, ◌+◌, ◌<◌, [], ◌++◌, ◌∷◌, length, reverse, T};
ghost use Rattle.std.specs.FinMap as map;
ghost use Rattle.byte_maps.specs.ByteMap.{byte_order};
ghost use Rattle.meta_rows.specs.Rows.{rows_after};
ghost use Rattle.meta_rows.specs.Chunks.{joined};
ghost use Rattle.meta_rows.specs.Filling.{Rises, rows_of, HasSpace, IsFilling};
ghost use Rattle.meta_rows.specs.Merging.{TakesBelow, ops_left, IsMerging, Goes};

use crate::chunk::Chunk;
use crate::filling::Filling;
use crate::row_op::RowOp;
use byte_maps::{Bytes, byte_order};
use std::cmp::Ordering;

/// Rows that were merged, and the operations that are left.
#[derive(Drop)]
pub struct Merging {
    filling: Filling,
    // The last one first.
    ops: Vec<RowOp>,
}

// Takes the first of the operations, which stand the last one first, if its key is below this one.
fn next_below(ops: &mut Vec<RowOp>, key: &[u8]) -> Option<RowOp>
    ensures { TakesBelow key.now (reverse ops.old.items) (reverse ops.new.items) result }
{
    let Some(op) = ops.pop() else {
        return None;
    };
    if matches!(byte_order(op.key(), key), Ordering::Less) {
        return Some(op);
    }
    ops.push_reserved(op);
    None
}

impl Merging {
    /// Nothing is merged yet.
    pub fn new(filling: Filling, ops: Vec<RowOp>) -> Merging
        requires state { IsFilling filling }
        requires none { rows_of filling ≡ [] }
        requires rises { Rises ops.items }
        ensures state { IsMerging result }
        ensures filling { result.filling ≡ filling }
        ensures ops { ops_left result ≡ ops.items }
    {
        let mut ops = ops;
        ops.reverse();
        Merging { filling, ops }
    }

    // Takes the operations of keys below a row's, and then the row.
    fn take_row(&mut self, row: (Bytes, Bytes))
        requires state { IsMerging self.old }
        requires order { T (map.is_sorted byte_order (rows_of self.old.filling ++ row ∷ [])) }
        requires room { HasSpace (1 + (1 + length (ops_left self.old))) self.old.filling.all }
        ensures state { IsMerging self.new }
        ensures goes { Goes (row ∷ []) [] self.old self.new }
    {
        while let Some(op) = next_below(&mut self.ops, row.0.as_slice()) {
            self.filling.take(op);
        }
        self.filling.take_row(row);
    }

    // Takes the rows of a chunk, and the operations of keys below the last of them.
    fn take_chunk(&mut self, chunk: Chunk)
        requires state { IsMerging self.old }
        requires order { T (map.is_sorted byte_order (rows_of self.old.filling ++ chunk)) }
        requires room { HasSpace (1 + (length chunk + length (ops_left self.old))) self.old.filling.all }
        ensures state { IsMerging self.new }
        ensures goes { Goes chunk [] self.old self.new }
    {
        for row in chunk.into_rows() {
            self.take_row(row);
        }
    }

    /// Takes the rows of chunks, and all operations.
    pub fn take_all(self, chunks: Vec<Chunk>) -> Filling
        requires state { IsMerging self }
        requires none { rows_of self.filling ≡ [] }
        requires order { T (map.is_sorted byte_order (joined chunks.items)) }
        requires room { HasSpace (1 + (length (joined chunks.items) + length (ops_left self))) self.filling.all }
        ensures state { IsFilling result }
        ensures rows { map.from_sorted {R = byte_order} (rows_of result) ≡
            rows_after (map.from_sorted {R = byte_order} (joined chunks.items)) (ops_left self) }
        ensures room { HasSpace 1 result.all }
    {
        let mut merging = self;
        for chunk in chunks {
            merging.take_chunk(chunk);
        }
        let mut ops = merging.ops;
        ops.reverse();
        merging.filling.take_all(ops);
        merging.filling
    }
}
