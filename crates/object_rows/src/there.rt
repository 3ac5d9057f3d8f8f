//! Whether a collection or an object has its row.
ghost use Rattle.std.specs.Prelude.{◌≡◌, IfOk};
ghost use Rattle.std.specs.FinMap as finite;
ghost use Rattle.row_format.specs.Prelude.{coll_key, onode_key};

use meta_rows::RowTable;
use onode_codec::{coll_key, onode_key};
use std::alloc::{AllocError, Global};
use unit_fields::{CollName, Name};

/// Whether the collection has a row.
pub fn has_collection(alloc: Global, rows: &RowTable, coll: &CollName) -> Result<bool, AllocError>
    ensures { IfOk result (λ there. there ≡ finite.contains_key rows.now.rows (coll_key coll.now)) }
{
    let key = coll_key(alloc, coll)?;
    Ok(rows.get(key.as_slice()).is_some())
}

/// Whether the object has an onode.
pub fn has_onode(
    alloc: Global,
    rows: &RowTable,
    coll: &CollName,
    object: &Name,
) -> Result<bool, AllocError>
    ensures { IfOk result (λ there. there ≡ finite.contains_key rows.now.rows (onode_key coll.now object.now)) }
{
    let key = onode_key(alloc, coll, object)?;
    Ok(rows.get(key.as_slice()).is_some())
}
