//! The objects of a store as bytes that differ where they differ: for each name, an object's size, its bytes and its values.

use crate::image::Found;
use crate::object::Object;
use crate::values::value_place;
use byte_maps::{ByteMap, Bytes};
use case_text::{CaseError, Spelling};
use plain_store::{Collection, Plain, PlainObject};
use std::alloc::Global;
use unit_fields::CollName;

/// The objects that are looked for in each collection.
pub const NAMES: [&str; 5] = ["a", "b", "c", "d", "e"];

/// Adds bytes, their number in front.
fn push_bytes(out: &mut Spelling, bytes: &[u8]) {
    out.number(bytes.len() as u64, 8);
    out.push(bytes);
}

/// Adds a value of an object, behind the kind of its row and its place.
fn push_value(out: &mut Spelling, kind: u8, place: &[u8], value: &[u8]) {
    out.push(&[kind]);
    push_bytes(out, place);
    push_bytes(out, value);
}

/// Adds the pairs of an omap. The place of each is a point and its key.
fn push_omap(out: &mut Spelling, omap: &ByteMap<Bytes>) {
    for pair in omap.entries() {
        out.push(b"M");
        out.number((pair.0.len() as u64).saturating_add(1), 8);
        out.push(b".");
        out.push(pair.0.as_slice());
        push_bytes(out, pair.1.as_slice());
    }
}

/// Adds a plain object. Its values stand in the order of the rows that a store has of them.
fn push_plain_object(out: &mut Spelling, name: &str, object: &PlainObject) {
    push_value(out, b'O', name.as_bytes(), object.bytes.as_slice());
    for attr in object.attrs.entries() {
        push_value(out, b'A', attr.0.as_slice(), attr.1.as_slice());
    }
    if !object.header.is_empty() {
        push_value(out, b'M', b"-", object.header.as_slice());
    }
    push_omap(out, &object.omap);
}

/// Adds the objects of a plain collection.
fn push_plain_objects(out: &mut Spelling, objects: &Collection) {
    for name in &NAMES {
        if let Some(object) = objects.get(name.as_bytes()) {
            push_plain_object(out, name, object);
        }
    }
}

/// Adds a collection of plain objects, if there is one.
fn push_plain(out: &mut Spelling, plain: &Plain, coll: &CollName) {
    match plain.collection(coll) {
        Ok(objects) => {
            out.push(&[1]);
            push_plain_objects(out, objects);
        }
        Err(_) => out.push(&[0]),
    }
}

/// These collections of plain objects, and that there is nothing beside them, spelled so. Nothing where memory runs out.
pub fn spelled_plain(alloc: Global, plain: &Plain, colls: &[CollName]) -> Vec<u8> {
    let mut out = Spelling::new(alloc);
    for coll in colls {
        push_plain(&mut out, plain, coll);
    }
    out.number(0, 8);
    out.finish().unwrap_or(Vec::new(alloc))
}

/// Adds the values of an object that was found, and tells how many they are.
fn push_values(out: &mut Spelling, rows: &[(Bytes, Bytes)], coll: &[u8], name: &[u8]) -> usize {
    let mut count = 0usize;
    for row in rows {
        if let Some((kind, place)) = value_place(row.0.as_slice(), coll, name) {
            push_value(out, kind, place, row.1.as_slice());
            count = count.wrapping_add(1);
        }
    }
    count
}

/// Adds an object that was found. One that isn't whole can't be spelled.
fn push_object(out: &mut Spelling, name: &[u8], object: &Object) {
    if !object.is_whole {
        out.fail(CaseError::Line("a damaged object"));
    }
    push_value(out, b'O', name, &object.bytes);
}

/// Adds the object of a name that was found, if there is one, and tells how many rows it is.
fn push_found_name(
    out: &mut Spelling,
    found: &Found,
    image: &[u8],
    coll: &[u8],
    name: &[u8],
) -> usize {
    match found.object(image, coll, name) {
        Some(object) => {
            push_object(out, name, &object);
            let values = push_values(out, found.rows(), coll, name);
            values.wrapping_add(object.shards).wrapping_add(1)
        }
        None => 0,
    }
}

/// Adds a collection that was found, and tells how many rows it is.
fn push_found(out: &mut Spelling, found: &Found, image: &[u8], coll: &[u8]) -> usize {
    let has_coll = found.has_collection(coll);
    out.push(&[has_coll as u8]);
    let mut rows = has_coll as usize;
    for name in &NAMES {
        rows = rows.wrapping_add(push_found_name(out, found, image, coll, name.as_bytes()));
    }
    rows
}

/// What was found of these collections in an image, and how many rows there are beside them, spelled so. Nothing where an object isn't
/// whole, or memory runs out.
pub fn spelled(alloc: Global, found: &Found, image: &[u8], colls: &[CollName]) -> Vec<u8> {
    let mut out = Spelling::new(alloc);
    let mut rows = 0usize;
    for coll in colls {
        rows = rows.wrapping_add(push_found(&mut out, found, image, coll.as_slice()));
    }
    out.number(found.len().wrapping_sub(rows) as u64, 8);
    out.finish().unwrap_or(Vec::new(alloc))
}
