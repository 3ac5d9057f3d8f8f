//! Lengths of names and values of rows: which of them are good. Other bad rows are cases of the program `store_cases`.
ghost use Rattle.std.specs.Prelude.{◌≡◌, ◌≤◌};
ghost use Rattle.meta_log.specs.Prelude.{IsSuper};

use byte_maps::Bytes;
use meta_log::Super;
use meta_rows::{RowOp, RowTable};
use row_check::find_bad_row;
use std::alloc::{AllocError, Global};

// A key and a value.
type Entry = (&'static [u8], &'static [u8]);

// The collection `1.0_head`.
const COLL: Entry = (b"C1.0_head", b"");

// The key of the onode of its object `a`.
const ONODE_A: &[u8] = b"O1.0_head\0a\0o";

// The superblock of a store whose data units are those from 18 on.
fn superblock(units: u32) -> Super
    requires least { 19 ≤ units }
    requires most { units ≤ 1048576 }
    ensures limits { IsSuper result }
    ensures units { result.units ≡ units }
{
    Super {
        units,
        half: 8,
        prefer: 32768,
        epoch: 0,
        first: 0,
    }
}

// Sets a row.
fn set(alloc: Global, rows: &mut RowTable, key: &[u8], value: &[u8]) -> Result<(), AllocError> {
    let key = Bytes::from_slice(alloc, key)?;
    let value = Bytes::from_slice(alloc, value)?;
    rows.apply_all(alloc, vec![in alloc; RowOp::Set { key, value }]?)
}

// The rows with these keys and values.
fn table_of(alloc: Global, entries: &[Entry]) -> Result<RowTable, AllocError> {
    let mut rows = RowTable::new(alloc);
    for (key, value) in entries {
        set(alloc, &mut rows, key, value)?;
    }
    Ok(rows)
}

// What the keys of rows of the object `a` begin with.
const ATTRIBUTES_A: &[u8] = b"A1.0_head\0a\0";

const PAIRS_A: &[u8] = b"M1.0_head\0a\0.";

// The size of an object of one page.
const ONE_PAGE: &[u8] = b"\0\x10\0\0\0\0\0\0";

// How a key begins, how long its name and its value are, and whether the row is good.
type Sized = (&'static [u8], usize, usize, bool);

static SIZED: [Sized; 8] = [
    (ATTRIBUTES_A, 255, 65535, true),
    (ATTRIBUTES_A, 1, 0, true),
    (ATTRIBUTES_A, 256, 1, false),
    (ATTRIBUTES_A, 1, 65536, false),
    (PAIRS_A, 255, 65535, true),
    (PAIRS_A, 1, 0, true),
    (PAIRS_A, 256, 1, false),
    (PAIRS_A, 1, 65536, false),
];

// The object `a` and one more row of it, whose key ends in a name of so many bytes and whose value has so many.
fn rows_with(alloc: Global, sized: &Sized) -> Result<RowTable, AllocError> {
    let (front, name, value, _) = *sized;
    let mut key = vec![in alloc; b'n'; front.len().saturating_add(name)]?;
    for (byte, first) in key.iter_mut().zip(front) {
        *byte = *first;
    }
    let mut rows = table_of(alloc, &[COLL, (ONODE_A, ONE_PAGE)])?;
    set(alloc, &mut rows, &key, &vec![in alloc; b'v'; value]?)?;
    Ok(rows)
}

// Whether no row is bad of a store whose data units are 18 to 99.
fn are_good(alloc: Global, rows: &RowTable) -> Result<bool, AllocError> {
    Ok(find_bad_row(alloc, &superblock(100), rows)?.is_none())
}

/// The place of the first row of such a length that is judged otherwise.
pub fn first_wrong(alloc: Global) -> Result<Option<usize>, AllocError> {
    for (i, sized) in SIZED.iter().enumerate() {
        if are_good(alloc, &rows_with(alloc, sized)?)? != sized.3 {
            return Ok(Some(i));
        }
    }
    Ok(None)
}
