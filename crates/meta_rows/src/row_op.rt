//! One change of one row.
ghost use Rattle.std.specs.Prelude.{◌≡◌};
ghost use Rattle.meta_rows.specs.Rows.{key_of};

use byte_maps::{Bytes, Duplicate};
use std::alloc::{AllocError, Global};

/// A change of one row. A key has 1 to 1024 bytes, a value or a mask fewer than 2^32.
#[derive(Debug, Drop)]
pub enum RowOp {
    /// The row gets this value, whatever it had.
    Set { key: Bytes, value: Bytes },
    /// The row goes; there may be none.
    Drop { key: Bytes },
    /// The row becomes the exclusive-or of its value and the mask, the shorter of the two filled up with zeros, a missing
    /// row being empty. It goes where no byte other than zero is left. (Ceph's `XorMergeOperator` of the freelist.)
    Flip { key: Bytes, mask: Bytes },
}

impl RowOp {
    /// The key of the row that it changes.
    pub fn key(&self) -> &[u8]
        ensures { result.now ≡ key_of self.now }
    {
        match self {
            RowOp::Set { key, .. } | RowOp::Drop { key } | RowOp::Flip { key, .. } => {
                key.as_slice()
            }
        }
    }
}

impl Duplicate for RowOp {
    fn duplicate(&self, alloc: Global) -> Result<RowOp, AllocError> {
        match self {
            RowOp::Set { key, value } => {
                let key = key.duplicate(alloc)?;
                let value = value.duplicate(alloc)?;
                Ok(RowOp::Set { key, value })
            }
            RowOp::Drop { key } => {
                let key = key.duplicate(alloc)?;
                Ok(RowOp::Drop { key })
            }
            RowOp::Flip { key, mask } => {
                let key = key.duplicate(alloc)?;
                let mask = mask.duplicate(alloc)?;
                Ok(RowOp::Flip { key, mask })
            }
        }
    }
}
