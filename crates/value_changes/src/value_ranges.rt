//! Values that go as a whole range of keys.
ghost use Rattle.std.specs.Prelude.{OnOk};
ghost use Rattle.object_model.specs.declared.op.Op.TheVariants.{Remove, RmAttrs, OmapClear, OmapRmRange};
ghost use Rattle.row_changes.specs.Prelude.{DropsRange};
ghost use Rattle.value_changes.specs.Changed.{NoneBad, AreNames, AreOfValues, ChangesValues};
ghost use Rattle.object_rows.specs.Fronts.{kind_byte, values_first, values_end};

use meta_rows::RowTable;
use object_rows::{ValueKind, values_end, values_first};
use onode_codec::omap_key;
use row_changes::RowChanges;
use std::alloc::{AllocError, Global};
use unit_fields::{CollName, Name};

/// The names are names. It does nothing, for proofs alone.
pub fn names_are_names(coll: &CollName, object: &Name)
    ensures { AreNames coll.now object.now }
{
    let _coll = coll.as_slice();
    let _object = object.as_slice();
}

// An object's rows of a kind go.
fn drop_kind(
    alloc: Global,
    rows: &RowTable,
    changes: &mut RowChanges,
    kind: ValueKind,
    coll: &CollName,
    object: &Name,
) -> Result<(), AllocError>
    ensures names { AreNames coll.now object.now }
    ensures drops { OnOk result (DropsRange rows.now.rows (values_first (kind_byte kind) coll.now object.now)
        (values_end (kind_byte kind) coll.now object.now) changes.old changes.new) }
{
    let first = values_first(alloc, kind, coll, object)?;
    let end = values_end(alloc, kind, coll, object)?;
    changes.drop_range(alloc, rows, first.as_slice(), end.as_slice())
}

/// An object's attributes go.
pub fn rm_attrs(
    alloc: Global,
    rows: &RowTable,
    changes: &mut RowChanges,
    coll: &CollName,
    object: &Name,
) -> Result<(), AllocError>
    requires good { NoneBad rows.now.rows }
    requires of_values { AreOfValues coll.now changes.old }
    ensures { OnOk result (ChangesValues (RmAttrs object.now) rows.now.rows coll.now object.now changes.old changes.new) }
{
    drop_kind(alloc, rows, changes, ValueKind::Attributes, coll, object)
}

/// An object's omap goes, with its header.
pub fn clear_omap(
    alloc: Global,
    rows: &RowTable,
    changes: &mut RowChanges,
    coll: &CollName,
    object: &Name,
) -> Result<(), AllocError>
    requires good { NoneBad rows.now.rows }
    requires of_values { AreOfValues coll.now changes.old }
    ensures { OnOk result (ChangesValues (OmapClear object.now) rows.now.rows coll.now object.now changes.old changes.new) }
{
    drop_kind(alloc, rows, changes, ValueKind::Omap, coll, object)
}

/// The pairs of an object's omap go that are from one key on and below another.
pub fn rm_key_range(
    alloc: Global,
    rows: &RowTable,
    changes: &mut RowChanges,
    coll: &CollName,
    object: &Name,
    first: &Name,
    last: &Name,
) -> Result<(), AllocError>
    requires good { NoneBad rows.now.rows }
    requires of_values { AreOfValues coll.now changes.old }
    ensures { OnOk result (ChangesValues (OmapRmRange object.now first.now last.now) rows.now.rows coll.now object.now
        changes.old changes.new) }
{
    let first = omap_key(alloc, coll, object, first)?;
    let end = omap_key(alloc, coll, object, last)?;
    changes.drop_range(alloc, rows, first.as_slice(), end.as_slice())
}

/// All values of an object go, as they do with it.
pub fn remove_values(
    alloc: Global,
    rows: &RowTable,
    changes: &mut RowChanges,
    coll: &CollName,
    object: &Name,
) -> Result<(), AllocError>
    requires good { NoneBad rows.now.rows }
    requires of_values { AreOfValues coll.now changes.old }
    ensures { OnOk result (ChangesValues (Remove object.now) rows.now.rows coll.now object.now changes.old changes.new) }
{
    names_are_names(coll, object);
    rm_attrs(alloc, rows, changes, coll, object)?;
    clear_omap(alloc, rows, changes, coll, object)
}
