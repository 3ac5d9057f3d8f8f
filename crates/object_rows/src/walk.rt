//! Names of collections and objects, in byte order.
ghost use Rattle.std.specs.Prelude.{◌≡◌, ℕ, List, IfOk, MatchOption};
ghost use Rattle.std.specs.Option.{option_copied};
ghost use Rattle.unit_fields.specs.Prelude.{IsName, IsCollName};
ghost use Rattle.row_format.specs.Prelude.{coll_key, onode_key};
ghost use Rattle.object_rows.specs.Stores.{AreRowsOfAStore};
ghost use Rattle.read_facts.specs.Prelude.{IsCollection, IsObject, IsNextOf, IsPast, AreAll};
ghost use Rattle.object_rows.specs.NextKeys.{IsLeastKey, HasNoKey};

use byte_maps::Bytes;
use meta_rows::RowTable;
use onode_codec::{COLLS_END, colls_first, objects_end, objects_first};
use row_reading::{RowKey, read_key};
use std::alloc::{AllocError, Global};
use unit_fields::{CollName, Name};

// The least key of the rows from `first` on and below `end`.
fn first_key<'a>(rows: &'a RowTable, first: &[u8], end: &[u8]) -> Option<&'a [u8]>
    ensures { MatchOption result (HasNoKey rows.now.rows first.now end.now) (λ key. IsLeastKey rows.now.rows first.now end.now key.now) }
{
    let mut range = rows.range(first, Some(end));
    match range.next() {
        Some((key, _)) => Some(key.as_slice()),
        None => None,
    }
}

// The collection whose key this is.
fn coll_in(alloc: Global, key: &[u8]) -> Result<CollName, AllocError>
    requires { (coll : List ℕ) × IsCollName coll × (key.now ≡ coll_key coll) }
    ensures { IfOk result (λ name. (coll : List ℕ) → key.now ≡ coll_key coll → name ≡ coll) }
{
    match read_key(alloc, key)? {
        Some(RowKey::Collection { coll }) => Ok(coll),
        Some(RowKey::Object { .. }) => unreachable!(),
        Some(RowKey::Blob { .. }) => unreachable!(),
        Some(RowKey::Bitmap { .. }) => unreachable!(),
        None => unreachable!(),
    }
}

// The object whose onode's key this is.
fn object_in(alloc: Global, key: &[u8]) -> Result<Name, AllocError>
    requires { (coll object : List ℕ) × IsCollName coll × IsName object × (key.now ≡ onode_key coll object) }
    ensures { IfOk result (λ name. (coll object : List ℕ) → IsCollName coll → IsName object → key.now ≡ onode_key coll object → name ≡ object) }
{
    match read_key(alloc, key)? {
        Some(
            RowKey::Object {
                coll: _coll,
                object,
                part: _part,
            },
        ) => Ok(object),
        Some(RowKey::Collection { .. }) => unreachable!(),
        Some(RowKey::Blob { .. }) => unreachable!(),
        Some(RowKey::Bitmap { .. }) => unreachable!(),
        None => unreachable!(),
    }
}

/// The collection that comes next behind another one in byte order, or the first one. None: there is none behind it. It bisects the rows,
/// and takes memory for the name. Walks over all objects call it. (Ceph: `list_collections`.)
pub fn next_collection(
    alloc: Global,
    rows: &RowTable,
    after: Option<&CollName>,
) -> Result<Option<CollName>, AllocError>
    requires { AreRowsOfAStore rows.now.rows }
    ensures { IfOk result (λ found. MatchOption found (IsPast (IsCollection rows.now.rows) (option_copied after.entry))
        (IsNextOf (IsCollection rows.now.rows) (option_copied after.entry))) }
{
    let first = colls_first(alloc, after)?;
    match first_key(rows, first.as_slice(), COLLS_END) {
        Some(key) => Ok(Some(coll_in(alloc, key)?)),
        None => Ok(None),
    }
}

/// The object of a collection that comes next behind another one, or the first one. None: there is none behind it, or no such collection.
/// The other one need not be there. It bisects the rows, and looks at none of the other's shards. (Ceph: `collection_list` of one object.)
pub fn next_name(
    alloc: Global,
    rows: &RowTable,
    coll: &CollName,
    after: Option<&Name>,
) -> Result<Option<Name>, AllocError>
    requires { AreRowsOfAStore rows.now.rows }
    ensures { IfOk result (λ found. MatchOption found (IsPast (IsObject rows.now.rows coll.now) (option_copied after.entry))
        (IsNextOf (IsObject rows.now.rows coll.now) (option_copied after.entry))) }
{
    let first = objects_first(alloc, coll, after)?;
    let end = objects_end(alloc, coll)?;
    match first_key(rows, first.as_slice(), end.as_slice()) {
        Some(key) => Ok(Some(object_in(alloc, key)?)),
        None => Ok(None),
    }
}

/// The names of a collection's objects, in byte order, each in memory of its own; no name where there is no such collection. It bisects the
/// rows once for each object. (Ceph: `collection_list`.)
pub fn object_names(
    alloc: Global,
    rows: &RowTable,
    coll: &CollName,
) -> Result<Vec<Bytes>, AllocError>
    requires { AreRowsOfAStore rows.now.rows }
    ensures { IfOk result (λ names. AreAll (IsObject rows.now.rows coll.now) names.items) }
{
    let mut names = Vec::new(alloc);
    let mut last: Option<Name> = None;
    'names: while let Some(name) = next_name(alloc, rows, coll, last.as_ref())? {
        names.push(Bytes::from_slice(alloc, name.as_slice())?)?;
        last = Some(name);
    }
    Ok(names)
}
