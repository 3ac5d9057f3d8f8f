//! The fields of operations read from the front of bytes.
ghost use Rattle.std.specs.Prelude.{◌≡◌, ◌≢◌, ℕ, List, ◌++◌, MatchResult};
ghost use Rattle.unit_fields.specs.Prelude.{IsName, IsCollName};
ghost use Rattle.meta_rows.specs.Prelude.{value_bytes, IsValue, BeginsWithNo, ReadsFront};
ghost use Rattle.txn_codec.specs.declared.fail.ReadFail.TheVariants.{NotSpelled};
ghost use Rattle.txn_codec.specs.Prelude.{name_bytes, number_bytes, count_bytes, list_bytes, pair_bytes, FitsNumber, IsCount, FitsPair, FitList, GivesFront, LacksNames, ReadsNames};

use crate::fail::ReadFail;
use byte_maps::{Bytes, Items};
use object_model::Pair;
use std::alloc::Global;
use unit_fields::{CollName, Fields, Name};

// The bytes of a name behind their number, lent.
fn read_short<'a>(fields: &mut Fields<'a>) -> Result<&'a [u8], ReadFail>
    ensures { MatchResult result (λ name. fields.old ≡ name_bytes name.now ++ fields.new)
        (λ why. why ≡ NotSpelled → (name rest : List ℕ) → fields.old ≢ name_bytes name ++ rest) }
{
    let Some(size) = fields.u8() else {
        return Err(ReadFail::NotSpelled);
    };
    let Some(bytes) = fields.bytes(usize::from(size)) else {
        return Err(ReadFail::NotSpelled);
    };
    Ok(bytes)
}

pub(crate) fn read_name(alloc: Global, fields: &mut Fields) -> Result<Name, ReadFail>
    ensures { GivesFront IsName name_bytes fields.old fields.new result }
{
    let bytes = read_short(fields)?;
    match Name::read(alloc, bytes)? {
        Some(name) => Ok(name),
        None => Err(ReadFail::NotSpelled),
    }
}

pub(crate) fn read_coll(alloc: Global, fields: &mut Fields) -> Result<CollName, ReadFail>
    ensures { GivesFront IsCollName name_bytes fields.old fields.new result }
{
    let bytes = read_short(fields)?;
    match CollName::read(alloc, bytes)? {
        Some(name) => Ok(name),
        None => Err(ReadFail::NotSpelled),
    }
}

pub(crate) fn read_number(fields: &mut Fields) -> Result<u64, ReadFail>
    ensures { GivesFront FitsNumber number_bytes fields.old fields.new result }
{
    match fields.u64() {
        Some(number) => Ok(number),
        None => Err(ReadFail::NotSpelled),
    }
}

// How many things follow.
pub(crate) fn read_count(fields: &mut Fields) -> Result<u16, ReadFail>
    ensures { GivesFront IsCount count_bytes fields.old fields.new result }
{
    match fields.u16() {
        Some(count) if count > 0 => Ok(count),
        _ => Err(ReadFail::NotSpelled),
    }
}

// A value, lent.
pub(crate) fn read_value<'a>(fields: &mut Fields<'a>) -> Result<&'a [u8], ReadFail>
    ensures { MatchResult result (λ value. ReadsFront IsValue value_bytes fields.old fields.new value.now)
        (λ why. why ≡ NotSpelled → BeginsWithNo IsValue value_bytes fields.old) }
{
    let Some(size) = fields.u32() else {
        return Err(ReadFail::NotSpelled);
    };
    let Some(value) = fields.bytes(size as usize) else {
        return Err(ReadFail::NotSpelled);
    };
    Ok(value)
}

pub(crate) fn read_bytes(alloc: Global, fields: &mut Fields) -> Result<Bytes, ReadFail>
    ensures { GivesFront IsValue value_bytes fields.old fields.new result }
{
    let value = read_value(fields)?;
    let bytes = Bytes::from_slice(alloc, value)?;
    Ok(bytes)
}

// Two names, one behind the other.
pub(crate) fn read_names(alloc: Global, fields: &mut Fields) -> Result<(Name, Name), ReadFail>
    ensures { MatchResult result (λ x. ReadsNames fields.old x.0 x.1 fields.new) (λ why. why ≡ NotSpelled → LacksNames fields.old) }
{
    let first = read_name(alloc, fields)?;
    match read_name(alloc, fields) {
        Ok(second) => Ok((first, second)),
        Err(why) => {
            drop(first);
            Err(why)
        }
    }
}

fn read_pair(alloc: Global, fields: &mut Fields) -> Result<Pair, ReadFail>
    ensures { GivesFront FitsPair pair_bytes fields.old fields.new result }
{
    let key = read_name(alloc, fields)?;
    match read_bytes(alloc, fields) {
        Ok(value) => Ok(Pair { key, value }),
        Err(why) => {
            drop(key);
            Err(why)
        }
    }
}

pub(crate) fn read_keys(alloc: Global, fields: &mut Fields) -> Result<Items<Name>, ReadFail>
    ensures { GivesFront (FitList IsName) (list_bytes name_bytes) fields.old fields.new result }
{
    let count = read_count(fields)?;
    let mut keys = Vec::new(alloc);
    'keys: for _i in 0..count {
        let key = read_name(alloc, fields)?;
        keys.push(key)?;
    }
    Ok(Items::from_vec(keys))
}

pub(crate) fn read_pairs(alloc: Global, fields: &mut Fields) -> Result<Items<Pair>, ReadFail>
    ensures { GivesFront (FitList FitsPair) (list_bytes pair_bytes) fields.old fields.new result }
{
    let count = read_count(fields)?;
    let mut pairs = Vec::new(alloc);
    'pairs: for _i in 0..count {
        let pair = read_pair(alloc, fields)?;
        pairs.push(pair)?;
    }
    Ok(Items::from_vec(pairs))
}
