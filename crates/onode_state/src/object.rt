//! What the rows say of an object: its size, where its pages stand, and which shards it has.
ghost use Rattle.std.specs.Prelude.{◌≡◌, ◌↔◌, ℕ, None, IfOk, IsTrue, MatchOption};
ghost use Rattle.std.specs.FinMap as finite;
ghost use Rattle.unit_fields.specs.Prelude.{IsName, IsCollName};
ghost use Rattle.row_format.specs.Prelude.{onode_key};
ghost use Rattle.onode_codec.specs.Reading.{SpellsOnode};
ghost use Rattle.object_rows.specs.Stores.{AreRowsOfAStore, AreRowsOfWidth};
ghost use Rattle.onode_state.specs.Objects.{IsSizeAt, IsObjectFound, IsObjectState};

use blob_map::PageMap;
use byte_maps::Bytes;
use extent_shards::JoinedShards;
use meta_rows::RowTable;
use onode_codec::{Onode, onode_key, shards_end};
use page_lookup::ShardPages;
use std::alloc::{AllocError, Global};
use unit_fields::limits::UNIT_BYTES;
use unit_fields::{CollName, Name, Width};

/// An object as its rows have it. A missing one has no pages and no shards.
#[derive(Drop)]
pub struct ObjectState {
    /// Its bytes. None: it is missing.
    pub size: Option<u64>,
    /// Where its pages stand.
    pub pages: PageMap,
    /// The first page of each of its shards, ascending.
    pub shards: Vec<u32>,
}

// How many pages an object may have room for before they are read. Those of one of 4 MiB are as many, and few objects are larger.
const ROOM_PAGES: u64 = 1024;

// The room for the pages of an object of so many bytes and for one more, so that its map needn't grow as its shards are read. An object may
// have holes, so it isn't more than that of a common one.
fn room_for(size: u64) -> usize {
    let pages = size / UNIT_BYTES as u64 + 1;
    pages.min(ROOM_PAGES) as usize
}

// The size that the value of an onode's row says.
fn size_in(value: &[u8]) -> u64
    requires { (size : ℕ) × SpellsOnode value.now size }
    ensures { SpellsOnode value.now result }
{
    match Onode::decode(value) {
        Some(onode) => onode.size,
        None => unreachable!(),
    }
}

/// The bytes of an object, by its onode alone. None: it is missing.
pub fn object_size(
    alloc: Global,
    rows: &RowTable,
    coll: &CollName,
    object: &Name,
) -> Result<Option<u64>, AllocError>
    requires { AreRowsOfAStore rows.now.rows }
    ensures { IfOk result (IsSizeAt rows.now.rows coll.now object.now) }
{
    let key = onode_key(alloc, coll, object)?;
    match rows.get(key.as_slice()) {
        Some(value) => Ok(Some(size_in(value.as_slice()))),
        None => Ok(None),
    }
}

// Whether both are the same key.
fn is_same(key: &Bytes, other: &Bytes) -> bool
    ensures { IsTrue result ↔ (key.now ≡ other.now) }
{
    key.as_slice() == other.as_slice()
}

/// An object that is there, to be read.
#[derive(Drop)]
pub struct FoundObject<'a> {
    /// Its bytes.
    pub size: u64,
    /// Its pages, to be looked up in the rows of its shards as they stand. None of them is read yet.
    pub pages: ShardPages<'a>,
}

/// An object to be read. None: it is missing. One range of rows has its onode in front and its shards behind.
pub fn find_object<'a>(
    alloc: Global,
    width: Width,
    rows: &'a RowTable,
    coll: &CollName,
    object: &Name,
) -> Result<Option<FoundObject<'a>>, AllocError>
    requires { AreRowsOfWidth width rows.now.rows }
    ensures names { IsCollName coll.now × IsName object.now }
    ensures found { IfOk result (λ found. MatchOption found (finite.get rows.now.rows (onode_key coll.now object.now) ≡ None)
        (λ it. IsObjectFound width rows.now.rows coll.now object.now it.size it.pages)) }
{
    let onode = onode_key(alloc, coll, object)?;
    let end = shards_end(alloc, coll, object)?;
    let mut shards = rows.range(onode.as_slice(), Some(end.as_slice()));
    match shards.next() {
        Some((key, value)) if is_same(key, &onode) => Ok(Some(FoundObject {
            size: size_in(value.as_slice()),
            pages: ShardPages::new(width, shards),
        })),
        _ => Ok(None),
    }
}

/// The object as the rows have it. One range of rows begins with its onode and has its shards behind, and each is read once, straight into
/// the map.
pub fn object_state(
    alloc: Global,
    width: Width,
    rows: &RowTable,
    coll: &CollName,
    object: &Name,
) -> Result<ObjectState, AllocError>
    requires { AreRowsOfWidth width rows.now.rows }
    ensures { IfOk result (λ state. IsObjectState width rows.now.rows coll.now object.now state.size state.pages state.shards.items) }
{
    let onode = onode_key(alloc, coll, object)?;
    let mut size = None;
    let mut shards = JoinedShards::new(alloc);
    for (key, value) in rows.range(onode.as_slice(), None) {
        match key.as_slice().strip_prefix(onode.as_slice()) {
            Some([]) => {
                let bytes = size_in(value.as_slice());
                shards.reserve(room_for(bytes))?;
                size = Some(bytes);
            }
            Some(_) => shards.add(width, value.as_slice())?,
            None => break,
        }
    }
    let JoinedShards { firsts, pages } = shards;
    Ok(ObjectState {
        size,
        pages,
        shards: firsts,
    })
}
