//! Names of objects, attributes and omap keys.
ghost use Rattle.std.specs.Prelude.{◌≡◌, IfOk, MatchOption, IsTrue, ◌↔◌};
ghost use Rattle.unit_fields.specs.Names.{IsName};

use crate::limits::NAME_LIMIT;
use byte_maps::{Bytes, Duplicate};
use std::alloc::{AllocError, Global};
use std::marker::Model;

/// A name of an object, an attribute or an omap key, seen as the list of its bytes: 1 to 255, none of them zero.
#[derive(Drop)]
pub struct Name {
    bytes: Bytes,
}

impl Model for Name {
    ghost use Rattle.std.specs.Prelude.{List, ℕ};
    ghost use Rattle.unit_fields.specs.Names.{IsName};

    ghost Value = { List ℕ };

    ghost view = { λ a. a.bytes };

    ghost invariant = { λ a. IsName a.bytes };
}

fn is_name(bytes: &[u8]) -> bool
    ensures { IsTrue result ↔ IsName bytes.now }
{
    !bytes.is_empty() && bytes.len() <= NAME_LIMIT && bytes.iter().all(|byte| *byte > 0)
}

impl Name {
    /// The name with these bytes, if they are one.
    pub fn read(alloc: Global, bytes: &[u8]) -> Result<Option<Name>, AllocError>
        ensures { IfOk result (λ found. MatchOption found (¬ (IsName bytes.now)) (λ name. (name ≡ bytes.now) × IsName bytes.now)) }
    {
        if !is_name(bytes) {
            return Ok(None);
        }
        let bytes = Bytes::from_slice(alloc, bytes)?;
        Ok(Some(Name { bytes }))
    }

    /// Its bytes, lent.
    pub fn as_slice(&self) -> &[u8]
        ensures bytes { result.now ≡ self.now }
        ensures name { IsName self.now }
    {
        self.bytes.as_slice()
    }

    /// The same name in memory of its own.
    pub fn copy(&self, alloc: Global) -> Result<Name, AllocError>
        ensures { IfOk result (λ copy. copy ≡ self.now) }
    {
        let bytes = self.bytes.duplicate(alloc)?;
        Ok(Name { bytes })
    }
}

impl Duplicate for Name {
    fn duplicate(&self, alloc: Global) -> Result<Name, AllocError> {
        self.copy(alloc)
    }
}
