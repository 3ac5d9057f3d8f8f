//! The bad rows of a store: the first one, or all of them.
//!
//! Whether an onode or a shard is bad depends on rows of lesser keys alone: those of its collection and its object, and the object's
//! earlier shards. An attribute, an omap header and a pair stand before the rows of their collection and their object, or between them;
//! they need only that these are there, and are bad or good by that whatever else is. So one pass in the order of keys finds the least
//! bad row and stops there, or goes on for all of them: it looks up the two rows of such a row's object, but where the row before is of
//! the same object it is known to have them, and nothing is looked up.
//!
//! A shard on slots of a shared blob needs the blob's row too, whose key is behind all keys of objects, and that no collection before its own
//! names the blob: the pass looks up the row for each such extent, and keeps for each blob the collection that named it first.
ghost use Rattle.std.specs.Prelude.{◌≡◌, Some, IfOk, OnOk, MatchOption, map};
ghost use Rattle.std.specs.FinMap as rows_of_map;
ghost use Rattle.store_image.specs.Prelude.{NoBadRow};
ghost use Rattle.row_check.specs.Bad.{IsLeastBad, IsRowJudged, AreBadKeys, Knows, IsBelow, IsUpTo};

use crate::in_place::{is_in_place, object_of};
use crate::passed::Passed;
use byte_maps::{Bytes, Items};
use meta_log::Super;
use meta_rows::RowTable;
use row_reading::{Row, read_row_after};
use std::alloc::{AllocError, Global};
use unit_fields::CollName;

// The collection of an object that a row is of.
fn coll_of(row: &Option<Row>) -> Option<&CollName> {
    match object_of(row) {
        Some((coll, _)) => Some(coll),
        None => None,
    }
}

// Whether a row is good, which is passed so.
fn judge_row(
    alloc: Global,
    sup: &Super,
    rows: &RowTable,
    passed: &mut Passed,
    key: &[u8],
    value: &[u8],
) -> Result<bool, AllocError>
    requires knows { Knows sup.now rows.now.rows (IsBelow key.now) passed.old }
    requires stands { rows_of_map.get rows.now.rows key.now ≡ Some value.now }
    ensures judged { IfOk result (IsRowJudged sup.now rows.now.rows key.now value.now) }
    ensures knows { OnOk result (Knows sup.now rows.now.rows (IsUpTo key.now) passed.new) }
{
    let Some(row) = read_row_after(alloc, sup.width(), coll_of(&passed.last), key, value)? else {
        return Ok(false);
    };
    match is_in_place(alloc, sup, rows, passed, &row) {
        Ok(fits) => {
            passed.pass(alloc, row, fits)?;
            Ok(fits)
        }
        Err(full) => {
            drop(row);
            Err(full)
        }
    }
}

/// The least key of a bad row, if one is bad: what `mount` asks before it opens a store. The rows are read once each, in the order of
/// their keys, up to the first that is bad; a look-up bisects.
pub fn find_bad_row(
    alloc: Global,
    sup: &Super,
    rows: &RowTable,
) -> Result<Option<Bytes>, AllocError>
    ensures { IfOk result (λ found. MatchOption found (NoBadRow sup.now rows.now.rows) (IsLeastBad sup.now rows.now.rows)) }
{
    let mut passed = Passed::new(alloc);
    for (key, value) in rows.range(b"", None) {
        let judged = judge_row(
            alloc,
            sup,
            rows,
            &mut passed,
            key.as_slice(),
            value.as_slice(),
        );
        let good = match judged {
            Ok(good) => good,
            Err(full) => {
                drop(passed);
                return Err(full);
            }
        };
        if !good {
            drop(passed);
            let bad = Bytes::from_slice(alloc, key.as_slice())?;
            return Ok(Some(bad));
        }
    }
    drop(passed);
    Ok(None)
}

/// The keys of all bad rows, in their order: what `fsck` tells. It goes on past a bad row with what the table says of it, and the rows are read
/// once each.
pub fn bad_rows(alloc: Global, sup: &Super, rows: &RowTable) -> Result<Items<Bytes>, AllocError>
    ensures { IfOk result (AreBadKeys sup.now rows.now.rows) }
{
    let mut bad = Items::new(alloc);
    let mut passed = Passed::new(alloc);
    for (key, value) in rows.range(b"", None) {
        let good = judge_row(
            alloc,
            sup,
            rows,
            &mut passed,
            key.as_slice(),
            value.as_slice(),
        )?;
        if !good {
            bad.push(Bytes::from_slice(alloc, key.as_slice())?)?;
        }
    }
    Ok(bad)
}
