//! The operations on an omap's header and its pairs.
ghost use Rattle.std.specs.Prelude.{◌≡◌, IfOk, OnOk};
ghost use Rattle.std.specs.List.{AllByRecursion};
ghost use Rattle.object_model.specs.declared.op.Op.TheVariants.{OmapSet, OmapRm, OmapHeader};
ghost use Rattle.unit_fields.specs.Prelude.{IsName};
ghost use Rattle.meta_rows.specs.Prelude.{Rows};
ghost use Rattle.plan_rows.specs.Prelude.{not_empty};
ghost use Rattle.value_changes.specs.Changed.{ChangesValues, with_pair, without_key};

use crate::value_ranges::names_are_names;
use byte_maps::{Bytes, Duplicate};
use object_model::Pair;
use onode_codec::{header_key, omap_key};
use row_changes::RowChanges;
use std::alloc::{AllocError, Global};
use unit_fields::{CollName, Name};

// A copy of a header. An empty one is none.
fn header_value(alloc: Global, header: &Bytes) -> Result<Option<Bytes>, AllocError>
    ensures { IfOk result (λ value. value ≡ not_empty header.now) }
{
    if header.is_empty() {
        return Ok(None);
    }
    Ok(Some(header.duplicate(alloc)?))
}

/// The header becomes this one. An empty one has no row.
pub fn set_header(
    alloc: Global,
    changes: &mut RowChanges,
    coll: &CollName,
    object: &Name,
    header: &Bytes,
) -> Result<(), AllocError>
    ensures { OnOk result ((rows : Rows)
        → ChangesValues (OmapHeader object.now header.now) rows coll.now object.now changes.old changes.new) }
{
    let key = header_key(alloc, coll, object)?;
    let value = header_value(alloc, header)?;
    changes.set(key, value)
}

fn set_pair(
    alloc: Global,
    changes: &mut RowChanges,
    coll: &CollName,
    object: &Name,
    pair: &Pair,
) -> Result<(), AllocError>
    ensures set { OnOk result (changes.new ≡ with_pair coll.now object.now pair.now changes.old) }
    ensures named { OnOk result (IsName pair.now.key) }
{
    let key = omap_key(alloc, coll, object, &pair.key)?;
    let value = pair.value.duplicate(alloc)?;
    changes.set(key, Some(value))
}

fn rm_key(
    alloc: Global,
    changes: &mut RowChanges,
    coll: &CollName,
    object: &Name,
    key: &Name,
) -> Result<(), AllocError>
    ensures set { OnOk result (changes.new ≡ without_key coll.now object.now key.now changes.old) }
    ensures named { OnOk result (IsName key.now) }
{
    let key = omap_key(alloc, coll, object, key)?;
    changes.set(key, None)
}

/// These keys get their values, a key that stands there twice the later one.
pub fn set_pairs(
    alloc: Global,
    changes: &mut RowChanges,
    coll: &CollName,
    object: &Name,
    pairs: &[Pair],
) -> Result<(), AllocError>
    ensures names { OnOk result (AllByRecursion (λ p. IsName p.key) pairs.now) }
    ensures changed { OnOk result ((rows : Rows) → ChangesValues (OmapSet object.now pairs.now) rows coll.now object.now changes.old changes.new) }
{
    names_are_names(coll, object);
    for pair in pairs {
        set_pair(alloc, changes, coll, object, pair)?;
    }
    Ok(())
}

/// These keys go.
pub fn rm_keys(
    alloc: Global,
    changes: &mut RowChanges,
    coll: &CollName,
    object: &Name,
    keys: &[Name],
) -> Result<(), AllocError>
    ensures names { OnOk result (AllByRecursion IsName keys.now) }
    ensures changed { OnOk result ((rows : Rows) → ChangesValues (OmapRm object.now keys.now) rows coll.now object.now changes.old changes.new) }
{
    names_are_names(coll, object);
    for key in keys {
        rm_key(alloc, changes, coll, object, key)?;
    }
    Ok(())
}
