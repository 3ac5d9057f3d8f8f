//! The values of an object: its attributes, the header of its omap and the pairs of its omap.
ghost use Rattle.std.specs.Prelude.{◌≡◌, Some, IfOk, length, map, drop};
ghost use Rattle.std.specs.List.{AllByRecursion};
ghost use Rattle.unit_fields.specs.Prelude.{IsName};
ghost use Rattle.meta_rows.specs.Prelude.{row, rows_from_to};
ghost use Rattle.row_format.specs.Prelude.{attr_key, omap_key};
ghost use Rattle.object_rows.specs.Stores.{AreRowsOfAStore};
ghost use Rattle.read_facts.specs.Prelude.{AreValues};
ghost use Rattle.object_reader.specs.ValueRows.{value_behind, IsNamedBehind};

use byte_maps::{Bytes, Duplicate, Items};
use meta_rows::RowTable;
use object_rows::{ValueKind, pairs_end, pairs_first, values_end, values_first};
use read_facts::ValueView;
use std::alloc::{AllocError, Global};
use unit_fields::{CollName, Name};

/// The bytes that stand under a key, if any.
pub fn row_bytes(alloc: Global, rows: &RowTable, key: &Bytes) -> Result<Bytes, AllocError>
    ensures { IfOk result (λ value. value ≡ row rows.now.rows key.now) }
{
    match rows.get(key.as_slice()) {
        Some(value) => Bytes::from_slice(alloc, value.as_slice()),
        None => Ok(Bytes::new(alloc)),
    }
}

// The value of a row, whose name stands behind so many bytes of the key.
fn value_of(alloc: Global, skip: usize, key: &Bytes, value: &Bytes) -> Result<ValueView, AllocError>
    requires { IsName (drop skip key.now) }
    ensures { IfOk result (λ view. view ≡ value_behind skip (key.now, value.now)) }
{
    match Name::read(alloc, &key.as_slice()[skip..])? {
        Some(name) => {
            let value = value.duplicate(alloc)?;
            Ok(ValueView { name, value })
        }
        None => unreachable!(),
    }
}

// The values of the rows from a key on and below another, whose names stand behind the first key's bytes.
fn values_between(
    alloc: Global,
    rows: &RowTable,
    first: &Bytes,
    end: &Bytes,
) -> Result<Items<ValueView>, AllocError>
    requires { AllByRecursion (IsNamedBehind (length first.now)) (rows_from_to rows.now.rows first.now (Some end.now)) }
    ensures { IfOk result (λ values. values ≡ map (value_behind (length first.now)) (rows_from_to rows.now.rows first.now (Some end.now))) }
{
    let skip = first.len();
    let mut values = Items::new(alloc);
    for (key, value) in rows.range(first.as_slice(), Some(end.as_slice())) {
        values.push(value_of(alloc, skip, key, value)?)?;
    }
    Ok(values)
}

/// All attributes of an object, each in memory of its own, in the byte order of their names. It bisects the rows once. (Ceph: `getattrs`.)
pub fn attributes_of(
    alloc: Global,
    rows: &RowTable,
    coll: &CollName,
    object: &Name,
) -> Result<Items<ValueView>, AllocError>
    requires { AreRowsOfAStore rows.now.rows }
    ensures { IfOk result (AreValues (attr_key coll.now object.now) rows.now.rows) }
{
    let first = values_first(alloc, ValueKind::Attributes, coll, object)?;
    let end = values_end(alloc, ValueKind::Attributes, coll, object)?;
    values_between(alloc, rows, &first, &end)
}

/// All pairs of an object's omap, each in memory of its own, in the byte order of their keys. It bisects the rows once. (Ceph: `omap_get`.)
pub fn pairs_of(
    alloc: Global,
    rows: &RowTable,
    coll: &CollName,
    object: &Name,
) -> Result<Items<ValueView>, AllocError>
    requires { AreRowsOfAStore rows.now.rows }
    ensures { IfOk result (AreValues (omap_key coll.now object.now) rows.now.rows) }
{
    let first = pairs_first(alloc, coll, object)?;
    let end = pairs_end(alloc, coll, object)?;
    values_between(alloc, rows, &first, &end)
}
