//! Keys of rows spelled by hand.

use byte_maps::Bytes;
use onode_codec::*;
use std::alloc::{AllocError, Global};
use unit_fields::{CollName, Name};

// The rows and the ends of ranges that have keys.
enum Key {
    Collection,
    Collections,
    CollectionsBehind,
    Onode,
    Shard(u32),
    Attribute,
    Header,
    Pair,
    Objects,
    ObjectsBehind,
    ObjectsEnd,
    Deferred(u64),
    Shared(u64),
    Bitmap(u32),
}

// The key of a row that isn't of an object, or where a range of collections begins.
fn other_key(alloc: Global, key: &Key, coll: &CollName) -> Result<Bytes, AllocError> {
    match key {
        Key::Collections => colls_first(alloc, None),
        Key::CollectionsBehind => colls_first(alloc, Some(coll)),
        Key::Deferred(seq) => deferred_key(alloc, *seq),
        Key::Shared(sbid) => shared_key(alloc, *sbid),
        Key::Bitmap(row) => bitmap_key(alloc, *row),
        _ => coll_key(alloc, coll),
    }
}

// The key of a row of an object, or where a range of objects begins or ends.
fn key_of(alloc: Global, key: &Key, coll: &CollName, object: &Name) -> Result<Bytes, AllocError> {
    match key {
        Key::Onode => onode_key(alloc, coll, object),
        Key::Shard(page) => shard_key(alloc, coll, object, *page),
        Key::Attribute => attr_key(alloc, coll, object, object),
        Key::Header => header_key(alloc, coll, object),
        Key::Pair => omap_key(alloc, coll, object, object),
        Key::Objects => objects_first(alloc, coll, None),
        Key::ObjectsBehind => objects_first(alloc, coll, Some(object)),
        Key::ObjectsEnd => objects_end(alloc, coll),
        _ => other_key(alloc, key, coll),
    }
}

static KEYS: [(Key, &[u8]); 14] = [
    (Key::Collection, b"C1.0_head"),
    (Key::Collections, b"C"),
    (Key::CollectionsBehind, b"C1.0_head\0"),
    (Key::Onode, b"O1.0_head\0a\0o"),
    (Key::Shard(0x102), b"O1.0_head\0a\0o\0\0\x01\x02x"),
    (Key::Attribute, b"A1.0_head\0a\0a"),
    (Key::Header, b"M1.0_head\0a\0-"),
    (Key::Pair, b"M1.0_head\0a\0.a"),
    (Key::Objects, b"O1.0_head\0"),
    (Key::ObjectsBehind, b"O1.0_head\0a\0p"),
    (Key::ObjectsEnd, b"O1.0_head\x01"),
    (Key::Deferred(0x102), b"L\0\0\0\0\0\0\x01\x02"),
    (Key::Shared(1 << 56), b"X\x01\0\0\0\0\0\0\0"),
    (Key::Bitmap(1), b"b\0\0\0\x01"),
];

// The place of the first key that comes out otherwise.
fn first_other(alloc: Global, coll: &CollName, object: &Name) -> Result<Option<usize>, AllocError> {
    for (i, (key, wanted)) in KEYS.iter().enumerate() {
        if key_of(alloc, key, coll, object)?.as_slice() != *wanted {
            return Ok(Some(i));
        }
    }
    Ok(None)
}

/// The place of the first key of the object `a` of the collection `1.0_head` that comes out otherwise.
pub fn first_wrong(alloc: Global) -> Result<Option<usize>, AllocError> {
    let coll = CollName::new(alloc, 1, 0)?;
    match Name::read(alloc, b"a")? {
        Some(object) => first_other(alloc, &coll, &object),
        None => Ok(Some(0)),
    }
}
