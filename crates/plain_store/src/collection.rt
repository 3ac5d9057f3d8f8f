//! What each operation makes of a collection that is there. A function for each row of the table `effect_on`.
ghost use Rattle.std.specs.Prelude.{◌≡◌, ◌+◌, Some, Ok, Err, nat_lt, length, take, drop, IfOk, unwrap_or, if◌then◌else◌};
ghost use Rattle.std.specs.FinMap as finite;
ghost use Rattle.object_model.specs.declared.op.Op.TheVariants as does;
ghost use Rattle.object_model.specs.declared.op.Refusal.TheVariants.{BadRange};
ghost use Rattle.object_model.specs.Prelude.{empty_object, effect_on, any_value_long, is_same};
ghost use Rattle.plain_store.specs.Gives.{Applies, GivesFound, GivesBy};

use crate::fault::ArgFault;
use crate::object::{
    PlainObject, overwritten, resized, set_pairs, set_value, take_keys, take_range,
};
use byte_maps::{ByteMap, Bytes, Duplicate};
use object_model::{Pair, Refusal, ends_too_far};
use std::alloc::{AllocError, Global};
use std::cmp::Ordering;
use std::mem;
use unit_fields::Name;
use unit_fields::limits::{OBJECT_LIMIT, VALUE_LIMIT};

/// The objects of one collection, by name.
pub type Collection = ByteMap<PlainObject>;

fn is_same(a: &Name, b: &Name) -> bool
    ensures { result ≡ is_same a.now b.now }
{
    a.as_slice().cmp(b.as_slice()) == Ordering::Equal
}

fn any_value_long(pairs: &[Pair]) -> bool
    ensures { result ≡ any_value_long pairs.now }
{
    pairs.iter().any(|pair| VALUE_LIMIT < pair.value.len())
}

// A copy of the object, or an empty one where it is missing.
fn copy_or_new(alloc: Global, c: &Collection, name: &Name) -> Result<PlainObject, AllocError>
    ensures { IfOk result (λ b. b ≡ unwrap_or (finite.get c.now name.now) empty_object) }
{
    match c.get(name.as_slice()) {
        Some(object) => object.duplicate(alloc),
        None => Ok(PlainObject::new(alloc)),
    }
}

// A copy of the object, if it is there.
fn copy_of(alloc: Global, c: &Collection, name: &Name) -> Result<Option<PlainObject>, AllocError>
    ensures { IfOk result (λ b. b ≡ finite.get c.now name.now) }
{
    match c.get(name.as_slice()) {
        Some(object) => object.duplicate(alloc).map(Some),
        None => Ok(None),
    }
}

fn put(alloc: Global, c: &mut Collection, name: &Name, object: PlainObject) -> Result<(), ArgFault>
    ensures { Applies result (Ok (Some (finite.insert c.old name.now object))) (Some c.new) }
{
    let name = Bytes::from_slice(alloc, name.as_slice())?;
    c.insert(name, object).map_err(ArgFault::from)
}

// Gives an object other bytes.
fn set_bytes(object: &mut PlainObject, bytes: Vec<u8>)
    ensures { object.new ≡ record object.old { bytes = bytes.items } }
{
    drop(mem::replace(&mut object.bytes, Bytes::from_vec(bytes)));
}

// A copy of the object, which is refused where it is missing.
fn found(alloc: Global, c: &Collection, name: &Name) -> Result<PlainObject, ArgFault>
    ensures { GivesFound result (finite.get c.now name.now) }
{
    match c.get(name.as_slice()) {
        Some(object) => object.duplicate(alloc).map_err(ArgFault::from),
        None => Err(ArgFault::Refused(Refusal::NoObject)),
    }
}

/// Makes the object if it is missing.
pub fn touch(alloc: Global, c: &mut Collection, object: &Name) -> Result<(), ArgFault>
    ensures { Applies result (effect_on (does.Touch object.now) c.old) (Some c.new) }
{
    let touched = copy_or_new(alloc, c, object)?;
    put(alloc, c, object, touched)
}

/// Replaces bytes from an offset on.
pub fn write(
    alloc: Global,
    c: &mut Collection,
    object: &Name,
    off: u64,
    bytes: &[u8],
) -> Result<(), ArgFault>
    ensures { Applies result (effect_on (does.Write object.now off bytes.now) c.old) (Some c.new) }
{
    if ends_too_far(off, bytes.len() as u64) {
        return Err(ArgFault::Refused(Refusal::TooBig));
    }
    let mut changed = copy_or_new(alloc, c, object)?;
    let written = overwritten(alloc, changed.bytes.as_slice(), off as usize, bytes)?;
    set_bytes(&mut changed, written);
    put(alloc, c, object, changed)
}

/// As a write of zeros.
pub fn zero(
    alloc: Global,
    c: &mut Collection,
    object: &Name,
    off: u64,
    len: u64,
) -> Result<(), ArgFault>
    ensures { Applies result (effect_on (does.Zero object.now off len) c.old) (Some c.new) }
{
    if ends_too_far(off, len) {
        return Err(ArgFault::Refused(Refusal::TooBig));
    }
    let zeros = vec![in alloc; 0u8; len as usize]?;
    write(alloc, c, object, off, &zeros)
}

/// Sets the size of an object that is there.
pub fn truncate(alloc: Global, c: &mut Collection, object: &Name, size: u64) -> Result<(), ArgFault>
    ensures { Applies result (effect_on (does.Truncate object.now size) c.old) (Some c.new) }
{
    if OBJECT_LIMIT < size {
        return Err(ArgFault::Refused(Refusal::TooBig));
    }
    let Some(old) = c.get(object.as_slice()) else {
        return Ok(());
    };
    let bytes = resized(alloc, old.bytes.as_slice(), size as usize)?;
    let mut changed = old.duplicate(alloc)?;
    set_bytes(&mut changed, bytes);
    put(alloc, c, object, changed)
}

/// Takes an object away.
pub fn remove(c: &mut Collection, object: &Name)
    ensures { c.new ≡ finite.remove c.old object.now }
{
    drop(c.take(object.as_slice()));
}

/// Sets an attribute of an object that is there.
pub fn set_attr(
    alloc: Global,
    c: &mut Collection,
    object: &Name,
    name: &Name,
    value: &Bytes,
) -> Result<(), ArgFault>
    ensures { Applies result (effect_on (does.SetAttr object.now name.now value.now) c.old) (Some c.new) }
{
    if VALUE_LIMIT < value.len() {
        return Err(ArgFault::Refused(Refusal::TooBig));
    }
    let mut changed = found(alloc, c, object)?;
    set_value(alloc, &mut changed.attrs, name, value)?;
    put(alloc, c, object, changed)
}

/// Takes an attribute of an object that is there away.
pub fn rm_attr(
    alloc: Global,
    c: &mut Collection,
    object: &Name,
    name: &Name,
) -> Result<(), ArgFault>
    ensures { Applies result (effect_on (does.RmAttr object.now name.now) c.old) (Some c.new) }
{
    let mut changed = found(alloc, c, object)?;
    drop(changed.attrs.take(name.as_slice()));
    put(alloc, c, object, changed)
}

/// Takes all attributes of an object away, if it is there.
pub fn rm_attrs(alloc: Global, c: &mut Collection, object: &Name) -> Result<(), ArgFault>
    ensures { Applies result (effect_on (does.RmAttrs object.now) c.old) (Some c.new) }
{
    let Some(mut changed) = copy_of(alloc, c, object)? else {
        return Ok(());
    };
    drop(mem::replace(&mut changed.attrs, ByteMap::new(alloc)));
    put(alloc, c, object, changed)
}

/// Makes another object a copy of an object that is there.
pub fn clone(alloc: Global, c: &mut Collection, object: &Name, to: &Name) -> Result<(), ArgFault>
    ensures { Applies result (effect_on (does.Clone object.now to.now) c.old) (Some c.new) }
{
    if is_same(object, to) {
        return Err(ArgFault::Refused(Refusal::SameObject));
    }
    let copy = found(alloc, c, object)?;
    put(alloc, c, to, copy)
}

// The bytes of a range, which is refused where it ends outside the object.
fn piece_of(alloc: Global, object: &PlainObject, src: u64, len: u64) -> Result<Vec<u8>, ArgFault>
    ensures { GivesBy (λ v. v.items) result
        (if nat_lt (length object.now.bytes) (src + len) then Err BadRange else Ok (take len (drop src object.now.bytes))) }
{
    let bytes = object.bytes.as_slice();
    let size = bytes.len() as u64;
    if size < len || size - len < src {
        return Err(ArgFault::Refused(Refusal::BadRange));
    }
    let from = &bytes[src as usize..];
    Vec::from_slice(alloc, &from[..len as usize]).map_err(ArgFault::from)
}

/// Copies a range of bytes of an object that is there to another one.
pub fn clone_range(
    alloc: Global,
    c: &mut Collection,
    object: &Name,
    to: &Name,
    src: u64,
    len: u64,
    dst: u64,
) -> Result<(), ArgFault>
    ensures { Applies result (effect_on (does.CloneRange object.now to.now src len dst) c.old) (Some c.new) }
{
    if is_same(object, to) {
        return Err(ArgFault::Refused(Refusal::SameObject));
    }
    let Some(source) = c.get(object.as_slice()) else {
        return Err(ArgFault::Refused(Refusal::NoObject));
    };
    let piece = piece_of(alloc, source, src, len)?;
    write(alloc, c, to, dst, &piece)
}

/// Sets omap values of an object that is there.
pub fn omap_set(
    alloc: Global,
    c: &mut Collection,
    object: &Name,
    pairs: &[Pair],
) -> Result<(), ArgFault>
    ensures { Applies result (effect_on (does.OmapSet object.now pairs.now) c.old) (Some c.new) }
{
    if any_value_long(pairs) {
        return Err(ArgFault::Refused(Refusal::TooBig));
    }
    let mut changed = found(alloc, c, object)?;
    set_pairs(alloc, &mut changed.omap, pairs)?;
    put(alloc, c, object, changed)
}

/// Takes omap keys of an object that is there away.
pub fn omap_rm(
    alloc: Global,
    c: &mut Collection,
    object: &Name,
    keys: &[Name],
) -> Result<(), ArgFault>
    ensures { Applies result (effect_on (does.OmapRm object.now keys.now) c.old) (Some c.new) }
{
    let mut changed = found(alloc, c, object)?;
    take_keys(&mut changed.omap, keys);
    put(alloc, c, object, changed)
}

/// Takes a range of omap keys of an object that is there away.
pub fn omap_rm_range(
    alloc: Global,
    c: &mut Collection,
    object: &Name,
    first: &Name,
    last: &Name,
) -> Result<(), ArgFault>
    ensures { Applies result (effect_on (does.OmapRmRange object.now first.now last.now) c.old) (Some c.new) }
{
    let mut changed = found(alloc, c, object)?;
    take_range(&mut changed.omap, first, last);
    put(alloc, c, object, changed)
}

/// Takes all omap keys and the header of an object away, if it is there.
pub fn omap_clear(alloc: Global, c: &mut Collection, object: &Name) -> Result<(), ArgFault>
    ensures { Applies result (effect_on (does.OmapClear object.now) c.old) (Some c.new) }
{
    let Some(mut changed) = copy_of(alloc, c, object)? else {
        return Ok(());
    };
    drop(mem::replace(&mut changed.header, Bytes::new(alloc)));
    drop(mem::replace(&mut changed.omap, ByteMap::new(alloc)));
    put(alloc, c, object, changed)
}

/// Sets the omap header of an object that is there.
pub fn omap_header(
    alloc: Global,
    c: &mut Collection,
    object: &Name,
    value: &Bytes,
) -> Result<(), ArgFault>
    ensures { Applies result (effect_on (does.OmapHeader object.now value.now) c.old) (Some c.new) }
{
    if VALUE_LIMIT < value.len() {
        return Err(ArgFault::Refused(Refusal::TooBig));
    }
    let mut changed = found(alloc, c, object)?;
    let header = value.duplicate(alloc)?;
    drop(mem::replace(&mut changed.header, header));
    put(alloc, c, object, changed)
}
