//! Row operations as bytes.
//!
//! `encoded_len` says the length of an encoding where that is below 2^64, and of longer ones nothing, so that `encode` asks it without a
//! premise how much memory to take.
ghost use Rattle.std.specs.Prelude.{◌≡◌, ◌<◌, ◌^◌, ◌++◌, length, IfOk, OnOk};
ghost use Rattle.meta_rows.specs.Spelling.{key_bytes, value_bytes, op_bytes, ops_bytes, IsKey, FitsRowOp, AllFit};

use crate::row_op::RowOp;
use byte_maps::Bytes;
use std::alloc::{AllocError, Global};
use unit_fields::{push_u16_le, push_u32_le};

pub(crate) const SET: u8 = 1;

pub(crate) const DROP: u8 = 2;

pub(crate) const FLIP: u8 = 3;

fn push_key(out: &mut Vec<u8>, key: &Bytes) -> Result<(), AllocError>
    requires { IsKey key.now }
    ensures { OnOk result (out.new.items ≡ out.old.items ++ key_bytes key.now) }
{
    push_u16_le(out, key.len() as u16)?;
    out.extend_from_slice(key.as_slice())
}

fn push_value(out: &mut Vec<u8>, value: &Bytes) -> Result<(), AllocError>
    requires { length value.now < 2 ^ 32 }
    ensures { OnOk result (out.new.items ≡ out.old.items ++ value_bytes value.now) }
{
    push_u32_le(out, value.len() as u32)?;
    out.extend_from_slice(value.as_slice())
}

fn push_op(out: &mut Vec<u8>, op: &RowOp) -> Result<(), AllocError>
    requires { FitsRowOp op.now }
    ensures { OnOk result (out.new.items ≡ out.old.items ++ op_bytes op.now) }
{
    match op {
        RowOp::Set { key, value } => {
            out.push(SET)?;
            push_key(out, key)?;
            push_value(out, value)
        }
        RowOp::Drop { key } => {
            out.push(DROP)?;
            push_key(out, key)
        }
        RowOp::Flip { key, mask } => {
            out.push(FLIP)?;
            push_key(out, key)?;
            push_value(out, mask)
        }
    }
}

pub(crate) fn op_len(op: &RowOp) -> usize
    ensures { length (op_bytes op.now) < 2 ^ 64 → result ≡ length (op_bytes op.now) }
{
    match op {
        RowOp::Set { key, value } => value.len().saturating_add(7).saturating_add(key.len()),
        RowOp::Drop { key } => key.len().saturating_add(3),
        RowOp::Flip { key, mask } => mask.len().saturating_add(7).saturating_add(key.len()),
    }
}

/// How many bytes these operations are spelled in. Nothing is spelled for it.
pub fn encoded_len(ops: &[RowOp]) -> usize
    ensures { length (ops_bytes ops.now) < 2 ^ 64 → result ≡ length (ops_bytes ops.now) }
{
    let mut len: usize = 0;
    for op in ops {
        len = len.saturating_add(op_len(op));
    }
    len
}

/// The operations as bytes, one behind the other: the body of a record of the log. (Ceph: the contents of a RocksDB write batch.)
pub fn encode(alloc: Global, ops: &[RowOp]) -> Result<Vec<u8>, AllocError>
    requires { AllFit ops.now }
    ensures { IfOk result (λ bytes. bytes.items ≡ ops_bytes ops.now) }
{
    let mut out = Vec::with_capacity(alloc, encoded_len(ops))?;
    for op in ops {
        push_op(&mut out, op)?;
    }
    Ok(out)
}
