//! Names of collections.
ghost use Rattle.std.specs.Prelude.{◌≡◌, ◌<◌, ◌^◌, ℕ, Some, IfOk, MatchOption};
ghost use Rattle.unit_fields.specs.Names.{IsCollName, coll_name};

use byte_maps::{Bytes, Duplicate};
use std::alloc::{AllocError, Global};
use std::marker::Model;

/// A collection's name, seen as the list of its bytes: `<pool>.<seed>_head`, as the placement group that it holds is named.
///
/// The pool is a decimal u64, the seed a lower-case hexadecimal u32, neither with leading zeros.
#[derive(Drop)]
pub struct CollName {
    bytes: Bytes,
}

impl Model for CollName {
    ghost use Rattle.std.specs.Prelude.{List, ℕ};
    ghost use Rattle.unit_fields.specs.Names.{IsCollName};

    ghost Value = { List ℕ };

    ghost view = { λ a. a.bytes };

    ghost invariant = { λ a. IsCollName a.bytes };
}

// The pool and the seed that a name spells. Other bytes may be read as numbers too: whoever calls spells them again.
fn numbers(bytes: &[u8]) -> Option<(u64, u32)>
    ensures { (pool seed : ℕ) → pool < 2 ^ 64 → seed < 2 ^ 32 → bytes.now ≡ coll_name pool seed → result ≡ Some (pool, seed) }
{
    let text = std::str::from_utf8(bytes).ok()?;
    let (pool, rest) = text.split_once('.')?;
    let (seed, _head) = rest.split_once('_')?;
    let pool = pool.parse::<u64>().ok()?;
    let seed = u32::from_str_radix(seed, 16).ok()?;
    Some((pool, seed))
}

fn spelling(alloc: Global, pool: u64, seed: u32) -> Result<Vec<u8>, AllocError>
    ensures { IfOk result (λ bytes. bytes.items ≡ coll_name pool seed) }
{
    let text = format!(in alloc; "{pool}.{seed:x}_head")?;
    Ok(text.into_bytes())
}

impl CollName {
    /// The name of the collection of this pool and seed.
    pub fn new(alloc: Global, pool: u64, seed: u32) -> Result<CollName, AllocError>
        ensures { IfOk result (λ name. name ≡ coll_name pool seed) }
    {
        let bytes = Bytes::from_vec(spelling(alloc, pool, seed)?);
        Ok(CollName { bytes })
    }

    /// The name with these bytes, if they are one.
    pub fn read(alloc: Global, bytes: &[u8]) -> Result<Option<CollName>, AllocError>
        ensures { IfOk result (λ found. MatchOption found (¬ (IsCollName bytes.now)) (λ name. (name ≡ bytes.now) × IsCollName bytes.now)) }
    {
        match numbers(bytes) {
            Some((pool, seed)) => {
                let name = CollName::new(alloc, pool, seed)?;
                if name.as_slice() == bytes {
                    Ok(Some(name))
                } else {
                    Ok(None)
                }
            }
            None => Ok(None),
        }
    }

    /// Its bytes, lent.
    pub fn as_slice(&self) -> &[u8]
        ensures bytes { result.now ≡ self.now }
        ensures name { IsCollName self.now }
    {
        self.bytes.as_slice()
    }

    /// The same name in memory of its own.
    pub fn copy(&self, alloc: Global) -> Result<CollName, AllocError>
        ensures { IfOk result (λ copy. copy ≡ self.now) }
    {
        let bytes = self.bytes.duplicate(alloc)?;
        Ok(CollName { bytes })
    }
}

impl Duplicate for CollName {
    fn duplicate(&self, alloc: Global) -> Result<CollName, AllocError> {
        self.copy(alloc)
    }
}
