//! What a walk over all objects shows of them.

use byte_maps::{Bytes, Items};
use unit_fields::{CollName, Name, UnitNo};

/// A unit of an object holds bytes whose CRC-32C isn't the one that is kept for its page. (Ceph: a `bad csum` of a blob, EIO.)
#[derive(Clone, Copy)]
pub struct BadSum {
    pub unit: UnitNo,
    /// The checksum that the object's extents keep.
    pub kept: u32,
    /// That of the bytes that were read.
    pub found: u32,
}

/// A value of an object under its name: an attribute, or a pair of its omap under its key.
#[derive(Drop)]
pub struct ValueView {
    pub name: Name,
    pub value: Bytes,
}

/// An object, as a walk shows it.
#[derive(Drop)]
pub struct ObjectView {
    pub name: Name,
    /// Its bytes.
    pub size: u64,
    /// Their CRC-32C, or the first of its units whose bytes aren't the ones that were written.
    pub sum: Result<u32, BadSum>,
    /// All its attributes, in the byte order of their names.
    pub attrs: Items<ValueView>,
    /// The header of its omap, which has no bytes where there is none.
    pub header: Bytes,
    /// All pairs of its omap, in the byte order of their keys.
    pub omap: Items<ValueView>,
}

/// A collection and its objects in byte order: all of them, or those that a walk came to.
#[derive(Drop)]
pub struct CollView {
    pub coll: CollName,
    pub objects: Items<ObjectView>,
}
