//! A place in the spelling of operations: what an operation spells before it isn't gone over again for what comes behind it.
ghost use Rattle.std.specs.Prelude.{◌≡◌, ◌+◌, ◌^◌, ◌<◌, ◌≤◌, List, length, take, drop, IfOk};
ghost use Rattle.meta_rows.specs.Spelling.{ops_bytes, AllFit};
ghost use Rattle.meta_rows.specs.OpCursors.{ops_before};
ghost use Rattle.meta_rows.specs.declared.row_op.RowOp.{RowOp as Op};

use crate::part::Part;
use crate::row_op::RowOp;
use crate::writing::op_len;
use std::alloc::{AllocError, Global};

/// A place in the spelling of operations, which are given again with each call: behind all operations before one, and so many bytes of its
/// own. (Ceph: where a RocksDB record is cut into fragments.)
#[derive(Clone, Copy, Debug)]
pub struct OpCursor {
    /// How many operations lie before it, whole.
    pub ops: usize,
    /// How many bytes of the next one.
    pub passed: usize,
}

impl OpCursor {
    /// The place before the first operation.
    pub fn start() -> OpCursor
        ensures { (result.ops ≡ 0) × ((ops : List Op) → ops_before ops result ≡ 0) }
    {
        OpCursor { ops: 0, passed: 0 }
    }

    /// The bytes from here on, so many or up to the end.
    pub fn spelled(self, alloc: Global, ops: &[RowOp], count: usize) -> Result<Vec<u8>, AllocError>
        requires fit { AllFit ops.now }
        requires within { self.ops ≤ length ops.now }
        ensures { IfOk result (λ bytes. bytes.items ≡ take count (drop (ops_before ops.now self) (ops_bytes ops.now))) }
    {
        let mut part = Part::new(alloc, self.passed, count)?;
        for op in &ops[self.ops..] {
            if part.left == 0 {
                return Ok(part.bytes);
            }
            part.take_op(op)?;
        }
        Ok(part.bytes)
    }

    /// The place so many bytes behind this one. It may lie behind all operations, and then says how many bytes behind them.
    pub fn behind(self, ops: &[RowOp], count: usize) -> OpCursor
        requires fit { AllFit ops.now }
        requires within { self.ops ≤ length ops.now }
        requires most { self.passed + count < 2 ^ 64 }
        ensures within { result.ops ≤ length ops.now }
        ensures place { ops_before ops.now result ≡ ops_before ops.now self + count }
    {
        let mut at = OpCursor {
            ops: self.ops,
            passed: self.passed + count,
        };
        for op in &ops[self.ops..] {
            let size = op_len(op);
            if at.passed < size {
                return at;
            }
            at.passed -= size;
            at.ops += 1;
        }
        at
    }
}
