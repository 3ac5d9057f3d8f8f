//! The difference that logged changes make to rows.
//!
//! A value that an operation names is put among the changes without a look at the rows: the difference looks each up once, among the
//! first two rows from the place of the one before it on, since an object's changes lie side by side, and else by bisecting the table.
//! Where all of a kind go, or a range of keys, the rows of that range are gone through, and the changes in it, and no others. Changes are
//! kept in the order in which they came, and sorted once.
ghost use Rattle.std.specs.Prelude.{◌≡◌, ◌++◌, List, ℕ, Option, None, T, option_copied, IfOk, IfSome, OnOk};
ghost use Rattle.std.specs.FinMap as map;
ghost use Rattle.std.specs.FinMap.{find};
ghost use Rattle.byte_maps.specs.ByteMap.{byte_order};
ghost use Rattle.row_changes.specs.Ahead.{IsFirstBelow, AreLeft, LieAhead, LieAheadOf};
ghost use Rattle.row_changes.specs.Seen.{IsDifferenceBy};
ghost use Rattle.row_changes.specs.Log.{
  logged,
  last_for,
  is_value,
  op_unless_same,
  ops_of,
  kept_of,
  lasts,
  ChangesRise,
};

use crate::row_change::RowChange;
use byte_maps::{Bytes, Items, byte_order};
use meta_rows::{RowOp, RowRange, RowTable};
use std::alloc::{AllocError, Global};
use std::cmp::Ordering;

// Whether a row has this value, or is missing where there is none.
fn is_value(held: Option<&Bytes>, value: Option<&Bytes>) -> bool
    ensures { result ≡ is_value (option_copied held.entry) (option_copied value.entry) }
{
    match (held, value) {
        (Some(held), Some(value)) => byte_order(held.as_slice(), value.as_slice())
            == Ordering::Equal,
        (None, None) => true,
        _ => false,
    }
}

// The value of a row by the first of the rows from some key on. Where that one is below it, it goes, and there is no answer.
fn value_by_first<'a>(ahead: &mut RowRange<'a>, key: &[u8]) -> Option<Option<&'a Bytes>>
    requires { T (map.is_sorted byte_order ahead.old) }
    ensures value { IfSome result (λ value. option_copied value ≡ find byte_order key.now ahead.old) }
    ensures below { result ≡ None → IsFirstBelow key.now ahead.old }
    ensures left { AreLeft key.now ahead.old ahead.new }
{
    let mut rest = ahead.again();
    let Some((first, value)) = rest.next() else {
        return Some(None);
    };
    match byte_order(first.as_slice(), key) {
        Ordering::Less => {
            *ahead = rest;
            None
        }
        Ordering::Equal => Some(Some(value)),
        Ordering::Greater => Some(None),
    }
}

// The same by the first two.
fn value_near<'a>(ahead: &mut RowRange<'a>, key: &[u8]) -> Option<Option<&'a Bytes>>
    requires { T (map.is_sorted byte_order ahead.old) }
    ensures value { IfSome result (λ value. option_copied value ≡ find byte_order key.now ahead.old) }
    ensures left { AreLeft key.now ahead.old ahead.new }
{
    match value_by_first(ahead, key) {
        Some(value) => Some(value),
        None => value_by_first(ahead, key),
    }
}

// The value of a row, looked for among the rows from the last key on first. Where it isn't one of the first two the table is bisected.
fn value_of<'a>(
    rows: &'a RowTable,
    ahead: &mut Option<RowRange<'a>>,
    key: &[u8],
) -> Option<&'a Bytes>
    requires { LieAhead rows.now.rows ahead.old key.now }
    ensures value { option_copied result ≡ map.get rows.now.rows key.now }
    ensures ahead { LieAhead rows.now.rows ahead.new key.now }
{
    if let Some(near) = ahead {
        if let Some(value) = value_near(near, key) {
            return value;
        }
    }
    let mut found = rows.range(key, None);
    let value = value_by_first(&mut found, key);
    *ahead = Some(found);
    value.flatten()
}

// The same of the last row that is asked for.
fn last_value_of<'a>(
    rows: &'a RowTable,
    ahead: Option<RowRange<'a>>,
    key: &[u8],
) -> Option<&'a Bytes>
    requires { LieAhead rows.now.rows ahead key.now }
    ensures { option_copied result ≡ map.get rows.now.rows key.now }
{
    if let Some(mut near) = ahead {
        if let Some(value) = value_near(&mut near, key) {
            return value;
        }
    }
    rows.get(key)
}

// Adds the operation by which the row becomes so, where it isn't so.
fn put(ops: &mut Items<RowOp>, held: Option<&Bytes>, change: RowChange) -> Result<(), AllocError>
    ensures { OnOk result (ops.new ≡ ops.old ++ op_unless_same (option_copied held.entry) change) }
{
    let RowChange { key, value } = change;
    if is_value(held, value.as_ref()) {
        return Ok(());
    }
    match value {
        Some(value) => ops.push(RowOp::Set { key, value }),
        None => ops.push(RowOp::Drop { key }),
    }
}

// In the order of their keys, those of one key in the order in which they stand.
fn by_key(log: Vec<RowChange>) -> Result<Vec<RowChange>, AllocError>
    ensures same { IfOk result (λ sorted. (key : List ℕ) (old : Option (List ℕ)) → last_for sorted.items key old ≡ last_for log.items key old) }
    ensures rise { IfOk result (λ sorted. ChangesRise sorted.items) }
{
    let mut sorted = log;
    sorted.sort_by(|one, other| byte_order(one.key.as_slice(), other.key.as_slice()))?;
    Ok(sorted)
}

// Adds the operation of a change, if there is one, unless the next one has its key.
fn put_before<'a>(
    ops: &mut Items<RowOp>,
    rows: &'a RowTable,
    ahead: &mut Option<RowRange<'a>>,
    held: Option<RowChange>,
    next: &RowChange,
) -> Result<(), AllocError>
    requires { LieAheadOf rows.now.rows ahead.old held }
    ensures ops { OnOk result (ops.new ≡ ops.old ++ ops_of rows.now.rows (kept_of held next.now)) }
    ensures ahead { OnOk result (LieAheadOf rows.now.rows ahead.new held) }
{
    match held {
        Some(change) if byte_order(change.key.as_slice(), next.key.as_slice()) != Ordering::Equal =>
            {
                let value = value_of(rows, ahead, change.key.as_slice());
                put(ops, value, change)
            }
        _ => Ok(()),
    }
}

// The operations of changes in the order of their keys, of those of one key that of the last.
fn put_lasts(
    alloc: Global,
    rows: &RowTable,
    sorted: Vec<RowChange>,
) -> Result<Items<RowOp>, AllocError>
    requires { ChangesRise sorted.items }
    ensures { IfOk result (λ ops. ops ≡ ops_of rows.now.rows (lasts sorted.items)) }
{
    let mut ops = Items::new(alloc);
    let mut held = None;
    let mut ahead = None;
    for change in sorted {
        put_before(&mut ops, rows, &mut ahead, held, &change)?;
        held = Some(change);
    }
    if let Some(last) = held {
        let value = last_value_of(rows, ahead, last.key.as_slice());
        put(&mut ops, value, last)?;
    }
    Ok(ops)
}

/// The operations by which rows become what is seen through the changes of a log.
pub fn difference_of(
    alloc: Global,
    rows: &RowTable,
    log: Vec<RowChange>,
) -> Result<Items<RowOp>, AllocError>
    ensures { IfOk result (IsDifferenceBy rows.now.rows (logged map.empty log.items)) }
{
    let sorted = by_key(log)?;
    put_lasts(alloc, rows, sorted)
}
