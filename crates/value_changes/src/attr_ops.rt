//! The operations on an object's attributes.
ghost use Rattle.std.specs.Prelude.{OnOk};
ghost use Rattle.object_model.specs.declared.op.Op.TheVariants.{SetAttr, RmAttr};
ghost use Rattle.unit_fields.specs.Prelude.{IsName};
ghost use Rattle.meta_rows.specs.Prelude.{Rows};
ghost use Rattle.value_changes.specs.Changed.{ChangesValues};

use byte_maps::{Bytes, Duplicate};
use onode_codec::attr_key;
use row_changes::RowChanges;
use std::alloc::{AllocError, Global};
use unit_fields::{CollName, Name};

/// An attribute gets a value.
pub fn set_attr(
    alloc: Global,
    changes: &mut RowChanges,
    coll: &CollName,
    object: &Name,
    name: &Name,
    value: &Bytes,
) -> Result<(), AllocError>
    ensures names { IsName name.now }
    ensures changed { OnOk result ((rows : Rows)
        → ChangesValues (SetAttr object.now name.now value.now) rows coll.now object.now changes.old changes.new) }
{
    let key = attr_key(alloc, coll, object, name)?;
    let value = value.duplicate(alloc)?;
    changes.set(key, Some(value))
}

/// An attribute goes.
pub fn rm_attr(
    alloc: Global,
    changes: &mut RowChanges,
    coll: &CollName,
    object: &Name,
    name: &Name,
) -> Result<(), AllocError>
    ensures names { IsName name.now }
    ensures changed { OnOk result ((rows : Rows) → ChangesValues (RmAttr object.now name.now) rows coll.now object.now changes.old changes.new) }
{
    let key = attr_key(alloc, coll, object, name)?;
    changes.set(key, None)
}
