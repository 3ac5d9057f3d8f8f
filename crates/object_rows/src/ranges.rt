//! Where the keys of an object's values begin, and where they end.
ghost use Rattle.std.specs.Prelude.{◌≡◌, ◌∷◌, ◌++◌, IfOk};
ghost use Rattle.unit_fields.specs.Prelude.{IsName, IsCollName};
ghost use Rattle.object_rows.specs.Fronts.{kind_byte, values_first, values_end, pairs_first, pairs_end};

use byte_maps::Bytes;
use onode_codec::RowKind;
use std::alloc::{AllocError, Global};
use unit_fields::{CollName, Name};

// It ends a name within a key. No name has it.
const END: u8 = 0;

// The least byte above it.
const BEHIND_END: u8 = 1;

// It stands before the key of a pair of the omap.
const PAIR: u8 = b'.';

// The least byte above it.
const BEHIND_PAIR: u8 = b'/';

/// Which of an object's values.
#[derive(Clone, Copy)]
pub enum ValueKind {
    /// Its attributes.
    Attributes,
    /// The header of its omap and the pairs.
    Omap,
}

impl ValueKind {
    // The first byte of their keys.
    fn byte(self) -> u8
        ensures { result ≡ kind_byte self }
    {
        match self {
            ValueKind::Attributes => RowKind::Attribute as u8,
            ValueKind::Omap => RowKind::Omap as u8,
        }
    }
}

// The names of a collection and of an object in it behind the byte of a kind, and what stands behind them.
fn front(
    alloc: Global,
    kind: ValueKind,
    coll: &CollName,
    object: &Name,
    rest: &[u8],
) -> Result<Bytes, AllocError>
    ensures key { IfOk result (λ key. key ≡ kind_byte kind ∷ (coll.now ++ 0 ∷ (object.now ++ rest.now))) }
    ensures names { IsCollName coll.now × IsName object.now }
{
    let coll = coll.as_slice();
    let object = object.as_slice();
    let mut key = Vec::new(alloc);
    key.push(kind.byte())?;
    key.extend_from_slice(coll)?;
    key.push(END)?;
    key.extend_from_slice(object)?;
    key.extend_from_slice(rest)?;
    Ok(Bytes::from_vec(key))
}

/// Where the keys of an object's values of a kind begin. The names are names.
pub fn values_first(
    alloc: Global,
    kind: ValueKind,
    coll: &CollName,
    object: &Name,
) -> Result<Bytes, AllocError>
    ensures key { IfOk result (λ key. key ≡ values_first (kind_byte kind) coll.now object.now) }
    ensures names { IsCollName coll.now × IsName object.now }
{
    front(alloc, kind, coll, object, &[END])
}

/// Where they end.
pub fn values_end(
    alloc: Global,
    kind: ValueKind,
    coll: &CollName,
    object: &Name,
) -> Result<Bytes, AllocError>
    ensures { IfOk result (λ key. key ≡ values_end (kind_byte kind) coll.now object.now) }
{
    front(alloc, kind, coll, object, &[BEHIND_END])
}

/// Where the keys of the pairs of an object's omap begin, behind that of its header. The names are names.
pub fn pairs_first(alloc: Global, coll: &CollName, object: &Name) -> Result<Bytes, AllocError>
    ensures key { IfOk result (λ key. key ≡ pairs_first coll.now object.now) }
    ensures names { IsCollName coll.now × IsName object.now }
{
    front(alloc, ValueKind::Omap, coll, object, &[END, PAIR])
}

/// Where they end.
pub fn pairs_end(alloc: Global, coll: &CollName, object: &Name) -> Result<Bytes, AllocError>
    ensures { IfOk result (λ key. key ≡ pairs_end coll.now object.now) }
{
    front(alloc, ValueKind::Omap, coll, object, &[END, BEHIND_PAIR])
}
