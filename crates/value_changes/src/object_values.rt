//! What an operation makes of an object's values.
ghost use Rattle.std.specs.Prelude.{OnOk};
ghost use Rattle.plan_rows.specs.Prelude.{object_of, HasNames};
ghost use Rattle.value_changes.specs.Changed.{NoneBad, AreOfValues, ChangesValues};

use crate::attr_ops::{rm_attr, set_attr};
use crate::omap_ops::{rm_keys, set_header, set_pairs};
use crate::value_ranges::{clear_omap, remove_values, rm_attrs, rm_key_range};
use meta_rows::RowTable;
use object_model::Op;
use row_changes::RowChanges;
use std::alloc::{AllocError, Global};
use unit_fields::CollName;

/// Changes the rows of the object's values to what the operation makes of them: none where it is no operation on values, or where it is a
/// clone. Where memory runs out, some may have been changed.
///
/// For an operation that names attributes or keys of the omap no row is looked up. One that takes all values, or a range of them, looks at
/// the rows of the range that are there, and once at each change so far. A value is copied where it is set.
pub fn change_values(
    alloc: Global,
    rows: &RowTable,
    changes: &mut RowChanges,
    coll: &CollName,
    op: &Op,
) -> Result<(), AllocError>
    requires good { NoneBad rows.now.rows }
    requires of_values { AreOfValues coll.now changes.old }
    ensures names { OnOk result (HasNames op.now) }
    ensures changed { OnOk result (ChangesValues op.now rows.now.rows coll.now (object_of op.now) changes.old changes.new) }
{
    match op {
        Op::SetAttr {
            object,
            name,
            value,
        } => set_attr(alloc, changes, coll, object, name, value),
        Op::RmAttr { object, name } => rm_attr(alloc, changes, coll, object, name),
        Op::RmAttrs { object } => rm_attrs(alloc, rows, changes, coll, object),
        Op::OmapSet { object, pairs } => set_pairs(alloc, changes, coll, object, pairs.as_slice()),
        Op::OmapRm { object, keys } => rm_keys(alloc, changes, coll, object, keys.as_slice()),
        Op::OmapRmRange {
            object,
            first,
            last,
        } => rm_key_range(alloc, rows, changes, coll, object, first, last),
        Op::OmapClear { object } => clear_omap(alloc, rows, changes, coll, object),
        Op::OmapHeader { object, value } => set_header(alloc, changes, coll, object, value),
        Op::Remove { object } => remove_values(alloc, rows, changes, coll, object),
        Op::MkColl
        | Op::RmColl
        | Op::Touch { .. }
        | Op::Write { .. }
        | Op::Zero { .. }
        | Op::Truncate { .. }
        | Op::Clone { .. }
        | Op::CloneRange { .. } => Ok(()),
    }
}
