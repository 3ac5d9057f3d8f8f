//! Row operations read from bytes.
ghost use Rattle.std.specs.Prelude.{List, IfOk, MatchOption};
ghost use Rattle.meta_rows.specs.declared.row_op.RowOp.{RowOp};
ghost use Rattle.meta_rows.specs.Spelling.{key_bytes, value_bytes, op_bytes, IsKey, FitsRowOp};
ghost use Rattle.meta_rows.specs.Reading.{IsValue, BeginsWithNo, ReadsFront, SpellOps};

use crate::row_op::RowOp;
use crate::writing::{DROP, FLIP, SET};
use byte_maps::Bytes;
use std::alloc::{AllocError, Global};
use unit_fields::Fields;

// The most bytes of a key.
const KEY_LIMIT: u16 = 1024;

fn read_key<'a>(fields: &mut Fields<'a>) -> Option<&'a [u8]>
    ensures { MatchOption result (BeginsWithNo IsKey key_bytes fields.old) (λ key. ReadsFront IsKey key_bytes fields.old fields.new key.now) }
{
    let size = fields.u16()?;
    if size > 0 && size <= KEY_LIMIT {
        fields.bytes(usize::from(size))
    } else {
        None
    }
}

fn read_value<'a>(fields: &mut Fields<'a>) -> Option<&'a [u8]>
    ensures { MatchOption result (BeginsWithNo IsValue value_bytes fields.old) (λ value. ReadsFront IsValue value_bytes fields.old fields.new value.now) }
{
    let size = fields.u32()?;
    fields.bytes(size as usize)
}

fn read_op(alloc: Global, fields: &mut Fields) -> Result<Option<RowOp>, AllocError>
    ensures { IfOk result (λ found. MatchOption found (BeginsWithNo FitsRowOp op_bytes fields.old) (ReadsFront FitsRowOp op_bytes fields.old fields.new)) }
{
    let Some(code) = fields.u8() else {
        return Ok(None);
    };
    let Some(key) = read_key(fields) else {
        return Ok(None);
    };
    let key = Bytes::from_slice(alloc, key)?;
    if code == DROP {
        return Ok(Some(RowOp::Drop { key }));
    }
    let Some(value) = read_value(fields) else {
        return Ok(None);
    };
    let value = Bytes::from_slice(alloc, value)?;
    match code {
        SET => Ok(Some(RowOp::Set { key, value })),
        FLIP => Ok(Some(RowOp::Flip { key, mask: value })),
        _ => Ok(None),
    }
}

/// The operations that these bytes spell, one behind the other with nothing between or behind: what `encode` wrote, and the body
/// of a record. None: they are no spelling of any operations. Each byte is looked at once, and no more is taken of memory than
/// the keys and values in the bytes ask for. (Ceph: RocksDB goes over the write batch of a record of its write-ahead log so.)
pub fn decode(alloc: Global, bytes: &[u8]) -> Result<Option<Vec<RowOp>>, AllocError>
    ensures { IfOk result (λ found. MatchOption found ((ops : List RowOp) → ¬ (SpellOps bytes.now ops)) (λ ops. SpellOps bytes.now ops.items)) }
{
    let mut fields = Fields::new(bytes);
    let mut ops = Vec::new(alloc);
    'ops: while !fields.is_empty() {
        let Some(op) = read_op(alloc, &mut fields)? else {
            return Ok(None);
        };
        ops.push(op)?;
    }
    Ok(Some(ops))
}
