//! One object as plain bytes and maps, and what the operations make of its parts.
ghost use Rattle.std.specs.Prelude.{◌≡◌, ◌+◌, ◌<◌, ◌^◌, length, IfOk, OnOk};
ghost use Rattle.std.specs.FinMap as finite;
ghost use Rattle.object_model.specs.Prelude.{empty_object, resized, overwritten, with_pairs, without_keys, without_range};

use byte_maps::{ByteMap, Bytes, Duplicate};
use object_model::Pair;
use std::alloc::{AllocError, Global};
use std::marker::Model;
use unit_fields::Name;

/// An object of the reference store.
#[derive(Drop)]
pub struct PlainObject {
    /// Its data; its size is their number.
    pub bytes: Bytes,
    /// Attributes by name.
    pub attrs: ByteMap<Bytes>,
    /// The omap header, empty where none was set.
    pub header: Bytes,
    /// Omap values by key.
    pub omap: ByteMap<Bytes>,
}

impl Model for PlainObject {
    ghost use Rattle.object_model.specs.Prelude.{Object, coded_object};

    ghost Value = { Object };

    ghost coded = { coded_object };

    ghost view = { λ a. record { bytes = a.bytes; attrs = a.attrs; header = a.header; omap = a.omap } };
}

impl PlainObject {
    /// An object without bytes, attributes and omap.
    pub fn new(alloc: Global) -> PlainObject
        ensures { result ≡ empty_object }
    {
        PlainObject {
            bytes: Bytes::new(alloc),
            attrs: ByteMap::new(alloc),
            header: Bytes::new(alloc),
            omap: ByteMap::new(alloc),
        }
    }
}

impl Duplicate for PlainObject {
    fn duplicate(&self, alloc: Global) -> Result<PlainObject, AllocError> {
        Ok(PlainObject {
            bytes: self.bytes.duplicate(alloc)?,
            attrs: self.attrs.duplicate(alloc)?,
            header: self.header.duplicate(alloc)?,
            omap: self.omap.duplicate(alloc)?,
        })
    }
}

/// Bytes cut at a size, or filled up to it with zeros.
pub fn resized(alloc: Global, bytes: &[u8], size: usize) -> Result<Vec<u8>, AllocError>
    ensures { IfOk result (λ v. v.items ≡ resized bytes.now size) }
{
    let mut out = Vec::from_slice(alloc, bytes)?;
    out.resize(size, 0)?;
    Ok(out)
}

/// Bytes with a piece laid over them.
pub fn overwritten(
    alloc: Global,
    bytes: &[u8],
    off: usize,
    piece: &[u8],
) -> Result<Vec<u8>, AllocError>
    requires { off + length piece.now < 2 ^ 64 }
    ensures { IfOk result (λ v. v.items ≡ overwritten bytes.now off piece.now) }
{
    if piece.is_empty() {
        return Vec::from_slice(alloc, bytes);
    }
    let end = off + piece.len();
    let mut out = resized(alloc, bytes, off)?;
    out.extend_from_slice(piece)?;
    if end < bytes.len() {
        out.extend_from_slice(&bytes[end..])?;
    }
    Ok(out)
}

/// Sets a copy of a value under a copy of a name.
pub fn set_value(
    alloc: Global,
    map: &mut ByteMap<Bytes>,
    key: &Name,
    value: &Bytes,
) -> Result<(), AllocError>
    ensures { OnOk result (map.new ≡ finite.insert map.old key.now value.now) }
{
    let key = Bytes::from_slice(alloc, key.as_slice())?;
    map.insert(key, value.duplicate(alloc)?)
}

/// Sets copies of the pairs in the omap, one after the other.
pub fn set_pairs(alloc: Global, omap: &mut ByteMap<Bytes>, pairs: &[Pair]) -> Result<(), AllocError>
    ensures { OnOk result (omap.new ≡ with_pairs omap.old pairs.now) }
{
    for pair in pairs {
        set_value(alloc, omap, &pair.key, &pair.value)?;
    }
    Ok(())
}

/// Takes these keys out of the omap.
pub fn take_keys(omap: &mut ByteMap<Bytes>, keys: &[Name])
    ensures { omap.new ≡ without_keys omap.old keys.now }
{
    for key in keys {
        drop(omap.take(key.as_slice()));
    }
}

/// Takes the keys from `first` on and below `last` out of the omap.
pub fn take_range(omap: &mut ByteMap<Bytes>, first: &Name, last: &Name)
    ensures { omap.new ≡ without_range omap.old first.now last.now }
{
    omap.remove_range(first.as_slice(), last.as_slice());
}
