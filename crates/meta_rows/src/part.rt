//! A part of bytes that come one after the other.
ghost use Rattle.std.specs.Prelude.{◌≡◌, ◌<◌, ◌^◌, ◌++◌, ℕ, List, length, take, drop, IfOk, OnOk};
ghost use Rattle.meta_rows.specs.Spelling.{key_bytes, value_bytes, op_bytes, IsKey, FitsRowOp};
ghost use Rattle.meta_rows.specs.declared.row_op.RowOp.TheVariants.{Set};
ghost use Rattle.meta_rows.specs.Cursors.{part_with, HasCome};

use crate::row_op::RowOp;
use crate::writing::{DROP, FLIP, SET};
use byte_maps::Bytes;
use std::alloc::{AllocError, Global};

/// A part in the making: the bytes that it has, how many of those to come it passes over, and how many it wants then.
#[derive(Debug, Drop)]
pub struct Part {
    pub bytes: Vec<u8>,
    pub skip: usize,
    pub left: usize,
}

impl Part {
    /// The part behind so many bytes, of so many.
    pub fn new(alloc: Global, skip: usize, left: usize) -> Result<Part, AllocError>
        ensures { IfOk result (λ p. (bytes : List ℕ) → part_with p bytes ≡ take left (drop skip bytes)) }
    {
        Ok(Part {
            bytes: Vec::with_capacity(alloc, left)?,
            skip,
            left,
        })
    }

    // Bytes come.
    fn take(&mut self, bytes: &[u8]) -> Result<(), AllocError>
        ensures { OnOk result (HasCome bytes.now self.old self.new) }
    {
        if bytes.len() <= self.skip {
            self.skip -= bytes.len();
            return Ok(());
        }
        let here = &bytes[self.skip..];
        let count = self.left.min(here.len());
        self.bytes.extend_from_slice(&here[..count])?;
        self.skip = 0;
        self.left -= count;
        Ok(())
    }

    // A key or a value comes, behind the number of its bytes, which is given as bytes.
    fn take_field(&mut self, len: &[u8], bytes: &[u8]) -> Result<(), AllocError>
        ensures { OnOk result (HasCome (len.now ++ bytes.now) self.old self.new) }
    {
        self.take(len)?;
        self.take(bytes)
    }

    // A key comes.
    fn take_key(&mut self, key: &Bytes) -> Result<(), AllocError>
        requires { IsKey key.now }
        ensures { OnOk result (HasCome (key_bytes key.now) self.old self.new) }
    {
        self.take_field(&(key.len() as u16).to_le_bytes(), key.as_slice())
    }

    // A value comes.
    fn take_value(&mut self, value: &Bytes) -> Result<(), AllocError>
        requires { length value.now < 2 ^ 32 }
        ensures { OnOk result (HasCome (value_bytes value.now) self.old self.new) }
    {
        self.take_field(&(value.len() as u32).to_le_bytes(), value.as_slice())
    }

    /// A row comes, spelled as the operation that sets it.
    pub fn take_row(&mut self, row: &(Bytes, Bytes)) -> Result<(), AllocError>
        requires { FitsRowOp (Set row.now.0 row.now.1) }
        ensures { OnOk result (HasCome (op_bytes (Set row.now.0 row.now.1)) self.old self.new) }
    {
        self.take(&[SET])?;
        self.take_key(&row.0)?;
        self.take_value(&row.1)
    }

    /// An operation comes.
    pub fn take_op(&mut self, op: &RowOp) -> Result<(), AllocError>
        requires { FitsRowOp op.now }
        ensures { OnOk result (HasCome (op_bytes op.now) self.old self.new) }
    {
        match op {
            RowOp::Set { key, value } => {
                self.take(&[SET])?;
                self.take_key(key)?;
                self.take_value(value)
            }
            RowOp::Drop { key } => {
                self.take(&[DROP])?;
                self.take_key(key)
            }
            RowOp::Flip { key, mask } => {
                self.take(&[FLIP])?;
                self.take_key(key)?;
                self.take_value(mask)
            }
        }
    }
}
