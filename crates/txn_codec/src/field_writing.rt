//! The fields of operations written behind bytes.
ghost use Rattle.std.specs.Prelude.{◌≡◌, ◌<◌, ◌≤◌, ◌++◌, length, OnOk};
ghost use Rattle.unit_fields.specs.Prelude.{IsName, IsCollName};
ghost use Rattle.meta_rows.specs.Prelude.{value_bytes, IsValue};
ghost use Rattle.txn_codec.specs.Prelude.{name_bytes, number_bytes, count_bytes, list_bytes, pair_bytes, FitsNumber, IsCount, FitsPair, FitList, HasShortValues, AddsSpelling};

use object_model::Pair;
use std::alloc::AllocError;
use unit_fields::{CollName, Name, push_u16_le, push_u32_le, push_u64_le};

fn push_short(out: &mut Vec<u8>, name: &[u8]) -> Result<(), AllocError>
    requires { length name.now ≤ 255 }
    ensures { OnOk result (out.new.items ≡ out.old.items ++ name_bytes name.now) }
{
    out.push(name.len() as u8)?;
    out.extend_from_slice(name)
}

pub(crate) fn push_name(out: &mut Vec<u8>, name: &Name) -> Result<(), AllocError>
    ensures { OnOk result (AddsSpelling IsName name_bytes name.now out.old.items out.new.items) }
{
    push_short(out, name.as_slice())
}

pub(crate) fn push_coll(out: &mut Vec<u8>, name: &CollName) -> Result<(), AllocError>
    ensures { OnOk result (AddsSpelling IsCollName name_bytes name.now out.old.items out.new.items) }
{
    push_short(out, name.as_slice())
}

pub(crate) fn push_number(out: &mut Vec<u8>, number: u64) -> Result<(), AllocError>
    ensures { OnOk result (AddsSpelling FitsNumber number_bytes number out.old.items out.new.items) }
{
    push_u64_le(out, number)
}

pub(crate) fn push_value(out: &mut Vec<u8>, value: &[u8]) -> Result<(), AllocError>
    requires { IsValue value.now }
    ensures { OnOk result (AddsSpelling IsValue value_bytes value.now out.old.items out.new.items) }
{
    push_u32_le(out, value.len() as u32)?;
    out.extend_from_slice(value)
}

fn push_pair(out: &mut Vec<u8>, pair: &Pair) -> Result<(), AllocError>
    requires { IsValue pair.now.value }
    ensures { OnOk result (AddsSpelling FitsPair pair_bytes pair.now out.old.items out.new.items) }
{
    push_name(out, &pair.key)?;
    push_value(out, pair.value.as_slice())
}

pub(crate) fn push_keys(out: &mut Vec<u8>, keys: &[Name]) -> Result<(), AllocError>
    requires { IsCount (length keys.now) }
    ensures { OnOk result (AddsSpelling (FitList IsName) (list_bytes name_bytes) keys.now out.old.items out.new.items) }
{
    push_u16_le(out, keys.len() as u16)?;
    for key in keys {
        push_name(out, key)?;
    }
    Ok(())
}

pub(crate) fn push_pairs(out: &mut Vec<u8>, pairs: &[Pair]) -> Result<(), AllocError>
    requires count { IsCount (length pairs.now) }
    requires values { HasShortValues pairs.now }
    ensures { OnOk result (AddsSpelling (FitList FitsPair) (list_bytes pair_bytes) pairs.now out.old.items out.new.items) }
{
    push_u16_le(out, pairs.len() as u16)?;
    for pair in pairs {
        push_pair(out, pair)?;
    }
    Ok(())
}
