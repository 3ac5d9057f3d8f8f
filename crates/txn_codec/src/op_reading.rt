//! Operations read from the front of bytes.
ghost use Rattle.std.specs.Prelude.{◌∷◌};
ghost use Rattle.txn_codec.specs.Prelude.{txn_op_bytes, FitsOp, GivesFront};

use crate::codes::{
    CLONE, CLONERANGE, MKCOLL, OMAPCLEAR, OMAPHEADER, OMAPRM, OMAPRMRANGE, OMAPSET, REMOVE, RMATTR,
    RMATTRS, RMCOLL, SETATTR, TOUCH, TRUNCATE, WRITE, ZERO,
};
use crate::fail::ReadFail;
use crate::field_reading::{
    read_bytes, read_keys, read_name, read_names, read_number, read_pairs, read_value,
};
use bytes::Bytes as SharedBytes;
use object_model::Op;
use std::alloc::Global;
use unit_fields::Fields;

// Each of these reads the fields of one kind of operation, behind its code.

fn read_write(alloc: Global, fields: &mut Fields) -> Result<Op, ReadFail>
    ensures { GivesFront FitsOp txn_op_bytes (4 ∷ fields.old) fields.new result }
{
    let object = read_name(alloc, fields)?;
    let off = read_number(fields)?;
    let bytes = SharedBytes::copy_from_slice(alloc, read_value(fields)?)?;
    Ok(Op::Write { object, off, bytes })
}

fn read_zero(alloc: Global, fields: &mut Fields) -> Result<Op, ReadFail>
    ensures { GivesFront FitsOp txn_op_bytes (5 ∷ fields.old) fields.new result }
{
    let object = read_name(alloc, fields)?;
    let off = read_number(fields)?;
    let len = read_number(fields)?;
    Ok(Op::Zero { object, off, len })
}

fn read_truncate(alloc: Global, fields: &mut Fields) -> Result<Op, ReadFail>
    ensures { GivesFront FitsOp txn_op_bytes (6 ∷ fields.old) fields.new result }
{
    let object = read_name(alloc, fields)?;
    let size = read_number(fields)?;
    Ok(Op::Truncate { object, size })
}

fn read_set_attr(alloc: Global, fields: &mut Fields) -> Result<Op, ReadFail>
    ensures { GivesFront FitsOp txn_op_bytes (8 ∷ fields.old) fields.new result }
{
    let (object, name) = read_names(alloc, fields)?;
    match read_bytes(alloc, fields) {
        Ok(value) => Ok(Op::SetAttr {
            object,
            name,
            value,
        }),
        Err(why) => {
            drop(name);
            drop(object);
            Err(why)
        }
    }
}

fn read_rm_attr(alloc: Global, fields: &mut Fields) -> Result<Op, ReadFail>
    ensures { GivesFront FitsOp txn_op_bytes (9 ∷ fields.old) fields.new result }
{
    let (object, name) = read_names(alloc, fields)?;
    Ok(Op::RmAttr { object, name })
}

fn read_clone(alloc: Global, fields: &mut Fields) -> Result<Op, ReadFail>
    ensures { GivesFront FitsOp txn_op_bytes (11 ∷ fields.old) fields.new result }
{
    let (object, to) = read_names(alloc, fields)?;
    Ok(Op::Clone { object, to })
}

fn read_clone_range(alloc: Global, fields: &mut Fields) -> Result<Op, ReadFail>
    ensures { GivesFront FitsOp txn_op_bytes (12 ∷ fields.old) fields.new result }
{
    let (object, to) = read_names(alloc, fields)?;
    let src = read_number(fields)?;
    let len = read_number(fields)?;
    let dst = read_number(fields)?;
    Ok(Op::CloneRange {
        object,
        to,
        src,
        len,
        dst,
    })
}

fn read_omap_set(alloc: Global, fields: &mut Fields) -> Result<Op, ReadFail>
    ensures { GivesFront FitsOp txn_op_bytes (13 ∷ fields.old) fields.new result }
{
    let object = read_name(alloc, fields)?;
    let pairs = read_pairs(alloc, fields)?;
    Ok(Op::OmapSet { object, pairs })
}

fn read_omap_rm(alloc: Global, fields: &mut Fields) -> Result<Op, ReadFail>
    ensures { GivesFront FitsOp txn_op_bytes (14 ∷ fields.old) fields.new result }
{
    let object = read_name(alloc, fields)?;
    let keys = read_keys(alloc, fields)?;
    Ok(Op::OmapRm { object, keys })
}

fn read_omap_rm_range(alloc: Global, fields: &mut Fields) -> Result<Op, ReadFail>
    ensures { GivesFront FitsOp txn_op_bytes (15 ∷ fields.old) fields.new result }
{
    let (object, first) = read_names(alloc, fields)?;
    match read_name(alloc, fields) {
        Ok(last) => Ok(Op::OmapRmRange {
            object,
            first,
            last,
        }),
        Err(why) => {
            drop(first);
            drop(object);
            Err(why)
        }
    }
}

fn read_omap_header(alloc: Global, fields: &mut Fields) -> Result<Op, ReadFail>
    ensures { GivesFront FitsOp txn_op_bytes (17 ∷ fields.old) fields.new result }
{
    let object = read_name(alloc, fields)?;
    match read_bytes(alloc, fields) {
        Ok(value) => Ok(Op::OmapHeader { object, value }),
        Err(why) => {
            drop(object);
            Err(why)
        }
    }
}

// The fields of the operation of this code.
fn read_fields(alloc: Global, code: u8, fields: &mut Fields) -> Result<Op, ReadFail>
    ensures { GivesFront FitsOp txn_op_bytes (code ∷ fields.old) fields.new result }
{
    match code {
        MKCOLL => Ok(Op::MkColl),
        RMCOLL => Ok(Op::RmColl),
        TOUCH => Ok(Op::Touch {
            object: read_name(alloc, fields)?,
        }),
        WRITE => read_write(alloc, fields),
        ZERO => read_zero(alloc, fields),
        TRUNCATE => read_truncate(alloc, fields),
        REMOVE => Ok(Op::Remove {
            object: read_name(alloc, fields)?,
        }),
        SETATTR => read_set_attr(alloc, fields),
        RMATTR => read_rm_attr(alloc, fields),
        RMATTRS => Ok(Op::RmAttrs {
            object: read_name(alloc, fields)?,
        }),
        CLONE => read_clone(alloc, fields),
        CLONERANGE => read_clone_range(alloc, fields),
        OMAPSET => read_omap_set(alloc, fields),
        OMAPRM => read_omap_rm(alloc, fields),
        OMAPRMRANGE => read_omap_rm_range(alloc, fields),
        OMAPCLEAR => Ok(Op::OmapClear {
            object: read_name(alloc, fields)?,
        }),
        OMAPHEADER => read_omap_header(alloc, fields),
        _ => Err(ReadFail::NotSpelled),
    }
}

pub(crate) fn read_op(alloc: Global, fields: &mut Fields) -> Result<Op, ReadFail>
    ensures { GivesFront FitsOp txn_op_bytes fields.old fields.new result }
{
    match fields.u8() {
        Some(code) => read_fields(alloc, code, fields),
        None => Err(ReadFail::NotSpelled),
    }
}
