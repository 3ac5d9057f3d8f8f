//! Operations written behind bytes.
ghost use Rattle.std.specs.Prelude.{◌∷◌, [], length, OnOk};
ghost use Rattle.meta_rows.specs.Prelude.{IsValue};
ghost use Rattle.txn_codec.specs.Spelling as field;
ghost use Rattle.txn_codec.specs.Prelude.{txn_op_bytes, IsCount, FitsOp, HasShortValues, HaveWidth, AddsSpelling, AddsForm};

use crate::codes::{
    CLONE, CLONERANGE, MKCOLL, OMAPCLEAR, OMAPHEADER, OMAPRM, OMAPRMRANGE, OMAPSET, REMOVE, RMATTR,
    RMATTRS, RMCOLL, SETATTR, TOUCH, TRUNCATE, WRITE, ZERO,
};
use crate::field_writing::{push_keys, push_name, push_number, push_pairs, push_value};
use object_model::{Op, Pair};
use std::alloc::AllocError;
use unit_fields::Name;

// Each of these writes the code and the fields of a kind of operation, or of all kinds that have the same fields.

fn push_object(out: &mut Vec<u8>, code: u8, object: &Name) -> Result<(), AllocError>
    ensures { OnOk result (AddsForm code (field.Name object.now ∷ []) out.old.items out.new.items) }
{
    out.push(code)?;
    push_name(out, object)
}

fn push_names(out: &mut Vec<u8>, code: u8, object: &Name, name: &Name) -> Result<(), AllocError>
    ensures { OnOk result (AddsForm code (field.Name object.now ∷ field.Name name.now ∷ []) out.old.items out.new.items) }
{
    push_object(out, code, object)?;
    push_name(out, name)
}

fn push_at(out: &mut Vec<u8>, code: u8, object: &Name, number: u64) -> Result<(), AllocError>
    ensures { OnOk result (AddsForm code (field.Name object.now ∷ field.Number number ∷ []) out.old.items out.new.items) }
{
    push_object(out, code, object)?;
    push_number(out, number)
}

fn push_write(out: &mut Vec<u8>, object: &Name, off: u64, bytes: &[u8]) -> Result<(), AllocError>
    requires { IsValue bytes.now }
    ensures { OnOk result (AddsForm 4 (field.Name object.now ∷ field.Number off ∷ field.Value bytes.now ∷ []) out.old.items out.new.items) }
{
    push_at(out, WRITE, object, off)?;
    push_value(out, bytes)
}

fn push_zero(out: &mut Vec<u8>, object: &Name, off: u64, len: u64) -> Result<(), AllocError>
    ensures { OnOk result (AddsForm 5 (field.Name object.now ∷ field.Number off ∷ field.Number len ∷ []) out.old.items out.new.items) }
{
    push_at(out, ZERO, object, off)?;
    push_number(out, len)
}

fn push_attr(out: &mut Vec<u8>, object: &Name, name: &Name, value: &[u8]) -> Result<(), AllocError>
    requires { IsValue value.now }
    ensures { OnOk result (AddsForm 8 (field.Name object.now ∷ field.Name name.now ∷ field.Value value.now ∷ []) out.old.items out.new.items) }
{
    push_names(out, SETATTR, object, name)?;
    push_value(out, value)
}

fn push_clone_range(
    out: &mut Vec<u8>,
    object: &Name,
    to: &Name,
    src: u64,
    len: u64,
    dst: u64,
) -> Result<(), AllocError>
    ensures { OnOk result (AddsForm 12 (field.Name object.now ∷ field.Name to.now ∷ field.Number src ∷ field.Number len ∷ field.Number dst ∷ [])
        out.old.items out.new.items) }
{
    push_names(out, CLONERANGE, object, to)?;
    push_number(out, src)?;
    push_number(out, len)?;
    push_number(out, dst)
}

fn push_omap(out: &mut Vec<u8>, object: &Name, pairs: &[Pair]) -> Result<(), AllocError>
    requires count { IsCount (length pairs.now) }
    requires values { HasShortValues pairs.now }
    ensures { OnOk result (AddsForm 13 (field.Name object.now ∷ field.Pairs pairs.now ∷ []) out.old.items out.new.items) }
{
    push_object(out, OMAPSET, object)?;
    push_pairs(out, pairs)
}

fn push_omap_keys(out: &mut Vec<u8>, object: &Name, keys: &[Name]) -> Result<(), AllocError>
    requires { IsCount (length keys.now) }
    ensures { OnOk result (AddsForm 14 (field.Name object.now ∷ field.Keys keys.now ∷ []) out.old.items out.new.items) }
{
    push_object(out, OMAPRM, object)?;
    push_keys(out, keys)
}

fn push_omap_range(
    out: &mut Vec<u8>,
    object: &Name,
    first: &Name,
    last: &Name,
) -> Result<(), AllocError>
    ensures { OnOk result (AddsForm 15 (field.Name object.now ∷ field.Name first.now ∷ field.Name last.now ∷ []) out.old.items out.new.items) }
{
    push_names(out, OMAPRMRANGE, object, first)?;
    push_name(out, last)
}

fn push_header(out: &mut Vec<u8>, object: &Name, value: &[u8]) -> Result<(), AllocError>
    requires { IsValue value.now }
    ensures { OnOk result (AddsForm 17 (field.Name object.now ∷ field.Value value.now ∷ []) out.old.items out.new.items) }
{
    push_object(out, OMAPHEADER, object)?;
    push_value(out, value)
}

pub(crate) fn push_op(out: &mut Vec<u8>, op: &Op) -> Result<(), AllocError>
    requires { HaveWidth op.now }
    ensures { OnOk result (AddsSpelling FitsOp txn_op_bytes op.now out.old.items out.new.items) }
{
    match op {
        Op::MkColl => Ok(out.push(MKCOLL)?),
        Op::RmColl => Ok(out.push(RMCOLL)?),
        Op::Touch { object } => push_object(out, TOUCH, object),
        Op::Write { object, off, bytes } => push_write(out, object, *off, bytes.as_slice()),
        Op::Zero { object, off, len } => push_zero(out, object, *off, *len),
        Op::Truncate { object, size } => push_at(out, TRUNCATE, object, *size),
        Op::Remove { object } => push_object(out, REMOVE, object),
        Op::SetAttr {
            object,
            name,
            value,
        } => push_attr(out, object, name, value.as_slice()),
        Op::RmAttr { object, name } => push_names(out, RMATTR, object, name),
        Op::RmAttrs { object } => push_object(out, RMATTRS, object),
        Op::Clone { object, to } => push_names(out, CLONE, object, to),
        Op::CloneRange {
            object,
            to,
            src,
            len,
            dst,
        } => push_clone_range(out, object, to, *src, *len, *dst),
        Op::OmapSet { object, pairs } => push_omap(out, object, pairs.as_slice()),
        Op::OmapRm { object, keys } => push_omap_keys(out, object, keys.as_slice()),
        Op::OmapRmRange {
            object,
            first,
            last,
        } => push_omap_range(out, object, first, last),
        Op::OmapClear { object } => push_object(out, OMAPCLEAR, object),
        Op::OmapHeader { object, value } => push_header(out, object, value.as_slice()),
    }
}
