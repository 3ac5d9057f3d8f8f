//! A finite map from byte strings, kept as a list of entries in the order of their keys.
ghost use Rattle.std.specs.Prelude.{◌↔◌, ◌≡◌, OnOk, OnErr, IsOk, IsTrue, option_copied, is_some, not, length};
ghost use Rattle.std.specs.FinMap as map;
ghost use Rattle.byte_maps.specs.ByteMap.{byte_order, in_range};
ghost use Rattle.std.specs.List.Sorted.{IsSearchInRange, IsBinarySearchResult};

use crate::bytes::{Bytes, Duplicate};
use crate::comparing::byte_order;
use std::alloc::{AllocError, Global};
use std::marker::Model;

/// A map from byte strings, seen as a finite map: names to objects, keys to rows, and the like.
///
/// It is a list of entries sorted by key, so that a look-up bisects, an insert or a removal moves the entries behind it, and a listing is in byte order.
#[derive(Drop)]
pub struct ByteMap<V> {
    entries: Vec<(Bytes, V)>,
}

impl<V> Model for ByteMap<V> {
    ghost use Rattle.std.specs.Prelude.{T};
    ghost use Rattle.std.specs.FinMap as map;
    ghost use Rattle.std.specs.Coded.{coded_ℕ, coded_list};
    ghost use Rattle.byte_maps.specs.ByteMap.{byte_order};

    ghost Value = { map.FinMap byte_order V };

    ghost coded = { map.code (coded_list coded_ℕ) V.code };

    ghost view = { λ a. map.from_sorted a.entries.items };

    ghost invariant = { λ a. T (map.is_sorted byte_order a.entries.items) };
}

// Where a key stands among entries in order, or where it would go.
fn place_of<V>(entries: &[(Bytes, V)], key: &[u8]) -> Result<usize, usize>
    ensures bound { IsSearchInRange result (length entries.now) }
    ensures position { IsBinarySearchResult (λ e. byte_order e.0 key.now) entries.now result }
{
    entries.binary_search_by(|entry| byte_order(entry.0.as_slice(), key))
}

fn is_in_range(first: &[u8], last: &[u8], key: &[u8]) -> bool
    ensures { result ≡ in_range first.now last.now key.now }
{
    !byte_order(key, first).is_lt() && byte_order(key, last).is_lt()
}

impl<V> ByteMap<V> {
    /// The map without keys. It takes no memory.
    pub fn new(alloc: Global) -> ByteMap<V>
        ensures { result ≡ map.empty }
    {
        ByteMap {
            entries: Vec::new(alloc),
        }
    }

    /// The value of a key, lent. The look-up takes as many comparisons as the number of keys has bits.
    pub fn get(&self, key: &[u8]) -> Option<&V>
        ensures { option_copied result ≡ map.get self.now key.now }
    {
        match place_of(&self.entries, key) {
            Ok(at) => Some(&self.entries[at].1),
            Err(_) => None,
        }
    }

    /// Whether the key is there.
    pub fn contains_key(&self, key: &[u8]) -> bool
        ensures { result ≡ map.contains_key self.now key.now }
    {
        self.get(key).is_some()
    }

    /// The keys in byte order, each with its value.
    pub fn entries(&self) -> &[(Bytes, V)]
        ensures { result.now ≡ map.entries self.now }
    {
        &self.entries
    }

    /// How many keys there are.
    pub fn len(&self) -> usize
        ensures { result ≡ map.len self.now }
    {
        let entries: &[(Bytes, V)] = &self.entries;
        entries.len()
    }

    /// Whether there is no key.
    pub fn is_empty(&self) -> bool
        ensures { IsTrue result ↔ (self.now ≡ map.empty) }
    {
        self.len() == 0
    }

    /// Takes a key away, and gives the value that it had.
    pub fn take(&mut self, key: &[u8]) -> Option<V>
        ensures was { result ≡ map.get self.old key.now }
        ensures taken { self.new ≡ map.remove self.old key.now }
    {
        match place_of(&self.entries, key) {
            Ok(at) => {
                let (key, value) = self.entries.remove(at);
                drop(key);
                Some(value)
            }
            Err(_) => None,
        }
    }
}

impl<V: Drop> ByteMap<V> {
    /// Sets the value of a key, and drops the one that it had. Memory can run out only at a key that isn't there; the key and the value are then dropped.
    pub fn insert(&mut self, key: Bytes, value: V) -> Result<(), AllocError>
        ensures ok { OnOk result (self.new ≡ map.insert self.old key value) }
        ensures err { OnErr result (self.new ≡ self.old) }
        ensures overwrites { IsTrue (map.contains_key self.old key) → IsOk result }
    {
        match place_of(&self.entries, key.as_slice()) {
            Ok(at) => {
                let entry = &mut self.entries[at];
                entry.1 = value;
                drop(key);
                Ok(())
            }
            Err(at) => Ok(self.entries.insert(at, (key, value))?),
        }
    }

    /// Removes the keys from `first` on that are below `last`, in byte order: none where `last` isn't above `first`.
    ///
    /// It takes no memory, and looks at each key once.
    pub fn remove_range(&mut self, first: &[u8], last: &[u8])
        ensures { self.new ≡ map.retain_keys self.old (λ k. not (in_range first.now last.now k)) }
    {
        self.entries
            .retain(|entry| !is_in_range(first, last, entry.0.as_slice()));
    }
}

impl<V: Duplicate + Drop> Duplicate for ByteMap<V> {
    fn duplicate(&self, alloc: Global) -> Result<ByteMap<V>, AllocError> {
        let mut entries = Vec::new(alloc);
        for entry in self.entries() {
            let key = entry.0.duplicate(alloc)?;
            let value = entry.1.duplicate(alloc)?;
            entries.push((key, value))?;
        }
        Ok(ByteMap { entries })
    }
}
