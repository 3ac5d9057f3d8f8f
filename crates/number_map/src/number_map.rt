//! A finite map from numbers, kept as a list of entries in ascending order.
ghost use Rattle.std.specs.Prelude.{◌≡◌, ◌≤◌, ◌-◌, T, not, length, IfOk, take, drop, ◌++◌, ◌==◌, OnOk, OnErr, IsOk, IsTrue, option_copied};
ghost use Rattle.std.specs.List.{insert};
ghost use Rattle.std.specs.Ordering.{nat_cmp};
ghost use Rattle.std.specs.FinMap as map;
ghost use Rattle.number_map.specs.NumberMap.{place_from, is_key_in, IsFront, IsBack};
ghost use Rattle.std.specs.FinMap.Entries.{where_key};

use std::alloc::{AllocError, Global};
use std::marker::Model;
use std::mem::replace;

/// A map from numbers below 2^32, seen as a finite map: pages to places, units to bytes, and the like.
///
/// It is a list of entries in ascending order: a look-up bisects it, and an insert or a removal moves the entries behind. A key above all
/// others is put behind them at once.
#[derive(Drop)]
pub struct NumberMap<V> {
    entries: Vec<(u32, V)>,
}

impl<V> Model for NumberMap<V> {
    ghost use Rattle.std.specs.Prelude.{T};
    ghost use Rattle.std.specs.FinMap as map;
    ghost use Rattle.std.specs.Coded.{coded_ℕ};
    ghost use Rattle.std.specs.Ordering.{nat_cmp};

    ghost Value = { map.FinMap nat_cmp V };

    ghost coded = { map.code coded_ℕ V.code };

    ghost view = { λ a. map.from_sorted a.entries.items };

    ghost invariant = { λ a. T (map.is_sorted nat_cmp a.entries.items) };
}

// Keys that are below this one, as far as the last key tells: all of them, or none. The keys of a map that is made in order are each
// behind all others.
fn surely_below<V>(entries: &[(u32, V)], key: u32) -> usize
    requires { T (map.is_sorted nat_cmp entries.now) }
    ensures within { result ≤ length entries.now }
    ensures front { IsFront key result entries.now }
{
    let count = entries.len();
    if count > 0 && entries[count - 1].0 < key {
        count
    } else {
        0
    }
}

// How many keys are below this one.
fn below<V>(entries: &[(u32, V)], key: u32) -> usize
    requires { T (map.is_sorted nat_cmp entries.now) }
    ensures within { result ≤ length entries.now }
    ensures front { IsFront key result entries.now }
    ensures back { IsBack key result entries.now }
{
    let mut low = surely_below(entries, key);
    let mut high = entries.len();
    while low < high {
        let mid = low + (high - low) / 2;
        if entries[mid].0 < key {
            low = mid + 1;
        } else {
            high = mid;
        }
    }
    low
}

// Where a key stands, or where it would go.
fn place_of<V>(entries: &[(u32, V)], key: u32) -> Result<usize, usize>
    requires { T (map.is_sorted nat_cmp entries.now) }
    ensures { result ≡ place_from key 0 entries.now }
{
    let at = below(entries, key);
    if at < entries.len() && entries[at].0 == key {
        Ok(at)
    } else {
        Err(at)
    }
}

impl<V> NumberMap<V> {
    /// The map without keys. It takes no memory.
    pub fn new(alloc: Global) -> NumberMap<V>
        ensures { result ≡ map.empty }
    {
        NumberMap {
            entries: Vec::new(alloc),
        }
    }

    /// The value of a key, lent. The look-up takes as many comparisons as the number of keys has bits.
    pub fn get(&self, key: u32) -> Option<&V>
        ensures { option_copied result ≡ map.get self.now key }
    {
        match place_of(&self.entries, key) {
            Ok(at) => Some(&self.entries[at].1),
            Err(_) => None,
        }
    }
}

// Puts an entry in at a place. Behind all others nothing is moved.
fn put_in<V: Drop>(
    entries: &mut Vec<(u32, V)>,
    at: usize,
    entry: (u32, V),
) -> Result<(), AllocError>
    requires { at ≤ length entries.old.items }
    ensures ok { OnOk result (entries.new.items ≡ insert entries.old.items at entry) }
    ensures err { OnErr result (entries.new.items ≡ entries.old.items) }
{
    if at == entries.len() {
        Ok(entries.push(entry)?)
    } else {
        Ok(entries.insert(at, entry)?)
    }
}

impl<V: Drop> NumberMap<V> {
    /// Sets the value of a key, and drops the one that it had. Memory can run out only at a key that isn't there.
    pub fn insert(&mut self, key: u32, value: V) -> Result<(), AllocError>
        ensures ok { OnOk result (self.new ≡ map.insert self.old key value) }
        ensures err { OnErr result (self.new ≡ self.old) }
        ensures overwrites { IsTrue (map.contains_key self.old key) → IsOk result }
    {
        match place_of(&self.entries, key) {
            Ok(at) => {
                let entry = &mut self.entries[at];
                entry.1 = value;
                Ok(())
            }
            Err(at) => Ok(put_in(&mut self.entries, at, (key, value))?),
        }
    }
}

impl<V> NumberMap<V> {
    /// Makes room for so many keys more, so that the list needn't grow as they are inserted. The map is as it was, also where memory
    /// runs out.
    pub fn reserve(&mut self, more: usize) -> Result<(), AllocError>
        ensures { self.new ≡ self.old }
    {
        self.entries.reserve(more)
    }

    /// Takes a key away, and gives the value that it had.
    pub fn take(&mut self, key: u32) -> Option<V>
        ensures was { result ≡ map.get self.old key }
        ensures taken { self.new ≡ map.remove self.old key }
    {
        match place_of(&self.entries, key) {
            Ok(at) => {
                let (_key, value) = self.entries.remove(at);
                Some(value)
            }
            Err(_) => None,
        }
    }

    /// The keys in ascending order, each with its value.
    pub fn entries(&self) -> &[(u32, V)]
        ensures { result.now ≡ map.entries self.now }
    {
        &self.entries
    }

    /// How many keys there are.
    pub fn len(&self) -> usize
        ensures { result ≡ map.len self.now }
    {
        let entries: &[(u32, V)] = &self.entries;
        entries.len()
    }

    /// Whether there is no key.
    pub fn is_empty(&self) -> bool
        ensures { result ≡ (map.len self.now == 0) }
    {
        self.len() == 0
    }
}

// Where the entries in a range of keys begin and end.
fn span<V>(entries: &[(u32, V)], from: u32, end: u32) -> (usize, usize)
    requires order { from ≤ end }
    requires sorted { T (map.is_sorted nat_cmp entries.now) }
    ensures order { result.0 ≤ result.1 }
    ensures within { result.1 ≤ length entries.now }
    ensures cut { where_key nat_cmp (is_key_in from end) entries.now ≡ take (result.1 - result.0) (drop result.0 entries.now) }
    ensures rest { where_key nat_cmp (λ k. not (is_key_in from end k)) entries.now ≡ take result.0 entries.now ++ drop result.1 entries.now }
{
    let at = below(entries, from);
    let to = below(entries, end);
    (at, to)
}

// Takes out the entries from one place on that are before another. Of a single one only what stands behind it is moved.
fn remove_between<V: Copy + Drop>(
    alloc: Global,
    entries: &mut Vec<(u32, V)>,
    at: usize,
    to: usize,
) -> Result<(), AllocError>
    requires order { at ≤ to }
    requires within { to ≤ length entries.old.items }
    ensures ok { OnOk result (entries.new.items ≡ take at entries.old.items ++ drop to entries.old.items) }
    ensures err { OnErr result (entries.new ≡ entries.old) }
{
    if at == to {
        return Ok(());
    }
    if at + 1 == to {
        entries.remove(at);
        return Ok(());
    }
    let mut rest = Vec::from_slice(alloc, &entries[..at])?;
    rest.extend_from_slice(&entries[to..])?;
    drop(replace(entries, rest));
    Ok(())
}

impl<V: Copy + Drop> NumberMap<V> {
    /// Takes away the keys from `from` on that are below `end`, and gives them with their values, ascending. Where memory runs out
    /// the map is as it was.
    pub fn cut(&mut self, alloc: Global, from: u32, end: u32) -> Result<Vec<(u32, V)>, AllocError>
        requires { from ≤ end }
        ensures ok { OnOk result (self.new ≡ map.retain_keys self.old (λ k. not (is_key_in from end k))) }
        ensures cut { IfOk result (λ v. v.items ≡ where_key nat_cmp (is_key_in from end) (map.entries self.old)) }
        ensures err { OnErr result (self.new ≡ self.old) }
    {
        let (at, to) = span(&self.entries, from, end);
        let cut = Vec::from_slice(alloc, &self.entries[at..to])?;
        remove_between(alloc, &mut self.entries, at, to)?;
        Ok(cut)
    }

    /// A copy of the map.
    pub fn copy(&self, alloc: Global) -> Result<NumberMap<V>, AllocError>
        ensures { IfOk result (λ copy. copy ≡ self.now) }
    {
        Ok(NumberMap {
            entries: Vec::from_slice(alloc, &self.entries)?,
        })
    }
}
