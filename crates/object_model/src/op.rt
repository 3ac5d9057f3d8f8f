//! The operations of a transaction, as the ObjectStore interface has them, and why one is refused.
use byte_maps::{Bytes, Items};
use bytes::Bytes as SharedBytes;
use unit_fields::Name;

/// An omap key and its value.
#[derive(Drop)]
pub struct Pair {
    pub key: Name,
    pub value: Bytes,
}

/// One operation on the collection of its transaction, or on an object of it.
///
/// Offsets, lengths and sizes are bytes of the object. Which operations make a missing object, refuse it or pass
/// over it is the table `effect_on` of `specs/Effect.antt`.
#[derive(Drop)]
pub enum Op {
    /// Makes the collection.
    MkColl,
    /// Takes the collection away, which must hold no object.
    RmColl,
    /// Makes the object if it is missing.
    Touch {
        object: Name,
    },
    /// Replaces bytes from `off` on. The object grows to their end. The bytes are shared with the data writes that they become.
    Write {
        object: Name,
        off: u64,
        bytes: SharedBytes,
    },
    /// As a write of `len` zeros.
    Zero {
        object: Name,
        off: u64,
        len: u64,
    },
    /// Sets the size, with zeros where the object grows.
    Truncate {
        object: Name,
        size: u64,
    },
    /// Takes the object away, with its attributes and its omap.
    Remove {
        object: Name,
    },
    /// Sets an attribute.
    SetAttr {
        object: Name,
        name: Name,
        value: Bytes,
    },
    /// Takes an attribute away.
    RmAttr {
        object: Name,
        name: Name,
    },
    /// Takes all attributes away.
    RmAttrs {
        object: Name,
    },
    /// Makes `to` a copy of the object: bytes, attributes, header and omap.
    Clone {
        object: Name,
        to: Name,
    },
    /// Copies `len` bytes from `src` on to the place `dst` of `to`, and nothing else.
    CloneRange {
        object: Name,
        to: Name,
        src: u64,
        len: u64,
        dst: u64,
    },
    /// Sets omap values. Of two pairs of one key the later wins.
    OmapSet {
        object: Name,
        pairs: Items<Pair>,
    },
    /// Takes omap keys away.
    OmapRm {
        object: Name,
        keys: Items<Name>,
    },
    /// Takes the omap keys from `first` on and below `last` away, in byte order.
    OmapRmRange {
        object: Name,
        first: Name,
        last: Name,
    },
    /// Takes all omap keys and the header away.
    OmapClear {
        object: Name,
    },
    /// Sets the omap header.
    OmapHeader {
        object: Name,
        value: Bytes,
    },
}

/// Why an operation or a read is refused.
#[derive(Clone, Copy, Debug)]
pub enum Refusal {
    /// The collection is missing.
    NoCollection,
    /// `mkcoll` of a collection that is there.
    CollectionExists,
    /// `rmcoll` of a collection that holds an object.
    NotEmpty,
    /// The object is missing.
    NoObject,
    /// A read of an attribute or an omap key that is missing.
    NoAttr,
    /// A clone of an object to itself.
    SameObject,
    /// A clone range past the end of its source, or a read past the limit of an object.
    BadRange,
    /// An object, a value or a transaction past its limit.
    TooBig,
}
