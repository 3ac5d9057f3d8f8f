//! The chunks of the table, and spare ones.
//!
//! A chunk has its buffer of 128 rows from the first on, and is split into a spare one, so that no operation takes memory. An operation
//! may split one chunk; but a part of a split one has at most 96 rows, and takes 32 more before it is full again. So what n operations
//! need is n spare chunks, or, where there are few chunks, one for each, two, and one for each 32 operations: with s spare chunks and b
//! rows beyond 96 in each, n + b stays at most 32 s, since an operation adds one to b, and a split takes 32 from both sides. `reserve`
//! makes those, and the promised number is a field, so that a failed `reserve` leaves it. A later `reserve` sets the number anew; `apply`
//! gives spare chunks back that it doesn't need, but for 32.
//!
//! An operation looks for its key first beside the row of the one before: two comparisons tell whether it is that row, the next one or
//! between both, as it is where a transaction's operations come in the order of their keys. Where it isn't, the chunk of the one before is
//! asked, and then all are bisected. What is remembered of the one before is no part of what the chunks mean, and may be any numbers.
//!
//! A chunk is split where the key comes that makes it too full, or as near to there as parts of 32 to 96 rows allow: rows that come in
//! the order of their keys in one place move at most 32 others from then on, and in several places by turns (collections that are written
//! beside each other) soon have chunks of their own. No clause says so: which rows there are is all that one sees. A chunk that loses a
//! row is joined with a neighbour where they have 64 rows together or fewer.
ghost use Rattle.std.specs.Prelude.{◌≡◌, ◌+◌, ◌-◌, ◌<◌, ◌≤◌, ℕ, suc, List, [], length, take, get_or, T, false, OnOk, IsTrue, IfSome, option_copied, ◌⊎◌};
ghost use Rattle.std.specs.FinMap as map;
ghost use Rattle.std.specs.FinMap.{find};
ghost use Rattle.std.specs.Vec.{vec_len, vec_capacity};
ghost use Rattle.std.specs.List.Sorted.{IsSearchInRange, IsBinarySearchResult};
ghost use Rattle.byte_maps.specs.ByteMap.{byte_order};
ghost use Rattle.meta_rows.specs.Table.{entries_after, GrowsBy};
ghost use Rattle.std.specs.declared.cmp.Ordering.TheVariants.{Greater};
ghost use Rattle.meta_rows.specs.Chunks.{joined, first_order, NoneEmpty, BelongsIn, IsChunked, HasSpares, IsMadeReady, IsKeyPlace, IsSplit, IsRearranged};

use crate::chunk::{Chunk, place_for, place_near};
use crate::row_op::RowOp;
use byte_maps::Bytes;
use std::alloc::{AllocError, Global};
use std::cmp::Ordering;

/// Where the next operation is looked for first. It may be any place.
#[derive(Clone, Copy, Debug)]
pub struct Near {
    /// The chunk of the operation before.
    pub chunk: usize,
    /// The place behind its row there.
    pub place: usize,
}

/// The front of the table.
pub const FRONT: Near = Near { chunk: 0, place: 0 };

/// Chunks in the order of their keys, none empty, and empty ones for those that are to be split.
#[derive(Debug, Drop)]
pub struct ChunkList {
    /// Those that hold the rows.
    pub list: Vec<Chunk>,
    /// Those that hold none.
    pub spare: Vec<Chunk>,
    /// Where the next operation is looked for first.
    pub near: Near,
}

/// The most rows that either part of a split chunk has.
const MOST_OF_A_PART: usize = 96;

// The most rows of two neighbours that are joined. Those of a split chunk have twice as many.
const FEW: usize = 64;

/// The rows that either part of a split chunk takes at least before it is full.
pub const FEWEST: usize = 32;

// Which chunk begins with a key, or before which one it would.
fn begins_at(chunks: &[Chunk], key: &[u8]) -> Result<usize, usize>
    ensures bound { IsSearchInRange result (length chunks.now) }
    ensures position { IsBinarySearchResult (λ chunk. first_order key.now chunk) chunks.now result }
{
    chunks.binary_search_by(|chunk| chunk.first_order(key))
}

/// The chunk that a key belongs into.
pub fn chunk_of(chunks: &[Chunk], key: &[u8]) -> usize
    requires some { 0 < length chunks.now }
    requires none_empty { NoneEmpty chunks.now }
    requires order { T (map.is_sorted byte_order (joined chunks.now)) }
    ensures { BelongsIn key.now chunks.now result }
{
    match begins_at(chunks, key) {
        Ok(at) => at,
        Err(0) => 0,
        Err(at) => at - 1,
    }
}

// Whether the chunk at a place, if there is one, begins with a key above this one.
fn begins_above(chunks: &[Chunk], at: usize, key: &[u8]) -> bool
    ensures above { IsTrue result → first_order key.now (get_or chunks.now at []) ≡ Greater }
    ensures not_above { result ≡ false → first_order key.now (get_or chunks.now at []) ≡ Greater → ⊥ }
{
    match chunks.get(at) {
        Some(chunk) => matches!(chunk.first_order(key), Ordering::Greater),
        None => false,
    }
}

// Whether the chunk behind the one at a place, if there is one, begins with a key above this one.
fn ends_above(chunks: &[Chunk], at: usize, key: &[u8]) -> bool
    requires { at < length chunks.now }
    ensures { IsTrue result → (at + 1 ≡ length chunks.now) ⊎ (first_order key.now (get_or chunks.now (at + 1) []) ≡ Greater) }
{
    if at + 1 == chunks.len() {
        return true;
    }
    begins_above(chunks, at + 1, key)
}

// Whether a key belongs into the chunk at a place.
fn is_chunk_of(chunks: &[Chunk], at: usize, key: &[u8]) -> bool
    requires none_empty { NoneEmpty chunks.now }
    requires order { T (map.is_sorted byte_order (joined chunks.now)) }
    ensures { IsTrue result → BelongsIn key.now chunks.now at }
{
    if chunks.len() <= at {
        return false;
    }
    if 0 < at && begins_above(chunks, at, key) {
        return false;
    }
    ends_above(chunks, at, key)
}

// The chunk that a key belongs into, where it may be the one at a place: two comparisons tell.
fn chunk_near(chunks: &[Chunk], at: usize, key: &[u8]) -> usize
    requires some { 0 < length chunks.now }
    requires none_empty { NoneEmpty chunks.now }
    requires order { T (map.is_sorted byte_order (joined chunks.now)) }
    ensures { BelongsIn key.now chunks.now result }
{
    if is_chunk_of(chunks, at, key) {
        at
    } else {
        chunk_of(chunks, key)
    }
}

// Whether a key belongs into the chunk at a place, in which it has this place.
fn is_place_of(chunks: &[Chunk], at: usize, place: Result<usize, usize>, key: &[u8]) -> bool
    requires none_empty { NoneEmpty chunks.now }
    requires order { T (map.is_sorted byte_order (joined chunks.now)) }
    requires within { at < length chunks.now }
    requires place { IsKeyPlace key.now (get_or chunks.now at []) place }
    ensures { IsTrue result → BelongsIn key.now chunks.now at }
{
    match place {
        Ok(_) => true,
        Err(before) => {
            if before == 0 {
                return false;
            }
            if before < chunks[at].len() {
                return true;
            }
            ends_above(chunks, at, key)
        }
    }
}

// The place of a key in a chunk, where that is next to a place in it and the key belongs there: two comparisons tell.
fn place_beside(chunks: &[Chunk], near: Near, key: &[u8]) -> Option<Result<usize, usize>>
    requires none_empty { NoneEmpty chunks.now }
    requires order { T (map.is_sorted byte_order (joined chunks.now)) }
    ensures belongs { IfSome result (λ _. BelongsIn key.now chunks.now near.chunk) }
    ensures place { IfSome result (λ place. IsKeyPlace key.now (get_or chunks.now near.chunk []) place) }
{
    if chunks.len() <= near.chunk {
        return None;
    }
    let place = place_near(chunks[near.chunk].rows(), near.place, key)?;
    if is_place_of(chunks, near.chunk, place, key) {
        Some(place)
    } else {
        None
    }
}

// The chunk that a key belongs into and its place there. They are looked for next to a place first.
fn place_in(chunks: &[Chunk], near: Near, key: &[u8]) -> (usize, Result<usize, usize>)
    requires some { 0 < length chunks.now }
    requires none_empty { NoneEmpty chunks.now }
    requires order { T (map.is_sorted byte_order (joined chunks.now)) }
    ensures belongs { BelongsIn key.now chunks.now result.0 }
    ensures place { IsKeyPlace key.now (get_or chunks.now result.0 []) result.1 }
{
    if let Some(place) = place_beside(chunks, near, key) {
        return (near.chunk, place);
    }
    let at = chunk_near(chunks, near.chunk, key);
    (at, place_for(chunks[at].rows(), key))
}

// How many rows the lower part of a full chunk keeps that is split for a key with this place: those before the key, as far as neither
// part has too many. So rows that come in the order of their keys in one place move at most 32 others from then on.
fn cut_of(place: Result<usize, usize>) -> usize
    ensures { (32 ≤ result) × (result ≤ 96) }
{
    match place {
        Ok(at) => at.clamp(FEWEST, MOST_OF_A_PART),
        Err(at) => at.clamp(FEWEST, MOST_OF_A_PART),
    }
}

// The place behind the row of an operation.
fn behind(place: Result<usize, usize>) -> usize {
    match place {
        Ok(at) => at.saturating_add(1),
        Err(at) => at.saturating_add(1),
    }
}

impl ChunkList {
    /// The value of a row, lent.
    pub fn get(&self, key: &[u8]) -> Option<&Bytes>
        requires { IsChunked self.now }
        ensures { option_copied result ≡ find byte_order key.now (joined self.now.list.items) }
    {
        let chunks = self.list.as_slice();
        if chunks.is_empty() {
            return None;
        }
        chunks[chunk_of(chunks, key)].get(key)
    }

    // Splits a full chunk, by a spare one.
    fn split(&mut self, at: usize, from: usize)
        requires chunked { IsChunked self.old }
        requires place { at < vec_len self.old.list }
        requires full { 128 ≤ length (get_or self.old.list.items at []) }
        requires from { (32 ≤ from) × (from ≤ 96) }
        requires spare { 0 < vec_len self.old.spare }
        ensures { IsSplit at self.old self.new }
    {
        match self.spare.pop() {
            Some(chunk) => {
                let mut upper = chunk;
                self.list[at].split(from, &mut upper);
                match self.list.insert(at + 1, upper) {
                    Ok(()) => {}
                    Err(_) => unreachable!(),
                }
            }
            None => unreachable!(),
        }
    }

    // The first chunk, where there is none.
    fn begin(&mut self)
        requires chunked { IsChunked self.old }
        requires none { self.old.list.items ≡ [] }
        requires room { 0 < vec_len self.old.spare }
        ensures opened { (key : List ℕ) → IsMadeReady key self.old self.new 0 }
        ensures empty { get_or self.new.list.items 0 [] ≡ [] }
    {
        match self.spare.pop() {
            Some(chunk) => self.list.push_reserved(chunk),
            None => unreachable!(),
        }
    }

    // Splits the full chunk of a key, which has this place in it, by a spare one. The part that it belongs into has room for one row more.
    fn open_part(&mut self, at: usize, place: Result<usize, usize>, key: &[u8]) -> usize
        requires chunked { IsChunked self.old }
        requires belongs { BelongsIn key.now self.old.list.items at }
        requires full { 128 ≤ length (get_or self.old.list.items at []) }
        requires spare { 0 < vec_len self.old.spare }
        ensures { IsMadeReady key.now self.old self.new result }
    {
        self.split(at, cut_of(place));
        match self.list[at + 1].first_order(key) {
            Ordering::Greater => at,
            _ => at + 1,
        }
    }

    // Makes the chunk of a key ready for one row more, by a spare chunk if it must. The chunk, and the place of the key in it.
    fn open(&mut self, key: &[u8]) -> (usize, Result<usize, usize>)
        requires chunked { IsChunked self.old }
        requires room { HasSpares 1 self.old }
        ensures opened { IsMadeReady key.now self.old self.new result.0 }
        ensures place { IsKeyPlace key.now (get_or self.new.list.items result.0 []) result.1 }
    {
        if self.list.as_slice().is_empty() {
            self.begin();
            return (0, Err(0));
        }
        let (at, place) = place_in(self.list.as_slice(), self.near, key);
        if !self.list[at].is_full() {
            return (at, place);
        }
        let part = self.open_part(at, place, key);
        (part, place_for(self.list[part].rows(), key))
    }

    // The rows after an operation, by how many bytes they grew, in 64 bits, and the chunk that has fewer rows than before, if one has.
    fn change(&mut self, op: RowOp) -> (u64, Option<usize>)
        requires chunked { IsChunked self.old }
        requires room { HasSpares 1 self.old }
        ensures rows { joined self.new.list.items ≡ entries_after (joined self.old.list.items) op }
        ensures chunked { IsChunked self.new }
        ensures room { (n : ℕ) → HasSpares (suc n) self.old → HasSpares n self.new }
        ensures grows { GrowsBy result.0 (joined self.old.list.items) (joined self.new.list.items) }
    {
        let (at, place) = self.open(op.key());
        self.near = Near {
            chunk: at,
            place: behind(place),
        };
        let had = self.len_at(at);
        let more = self.list[at].change(op, place);
        if self.list[at].is_empty() {
            let chunk = self.list.remove(at);
            self.spare.push_reserved(chunk);
            return (more, None);
        }
        let is_fewer = self.len_at(at) < had;
        (more, is_fewer.then_some(at))
    }

    // How many rows a chunk has; none where there is no chunk.
    fn len_at(&self, at: usize) -> usize
        ensures { result ≡ length (get_or self.now.list.items at []) }
    {
        match self.list.as_slice().get(at) {
            Some(chunk) => chunk.len(),
            None => 0,
        }
    }

    // Joins a chunk and the one behind it. The buffer of that one is spare then.
    fn join_next(&mut self, at: usize)
        requires chunked { IsChunked self.old }
        requires place { at + 1 < vec_len self.old.list }
        requires few { length (get_or self.old.list.items at []) + length (get_or self.old.list.items (at + 1) []) ≤ 64 }
        ensures { IsRearranged self.old self.new }
    {
        let mut behind = self.list.remove(at + 1);
        self.list[at].take_from(&mut behind);
        self.spare.push_reserved(behind);
    }

    // The same where they have few rows together, and there are both.
    fn join_if_few(&mut self, at: usize)
        requires { IsChunked self.old }
        ensures { IsRearranged self.old self.new }
    {
        if self.list.len().saturating_sub(at) < 2 {
            return;
        }
        if self.len_at(at) + self.len_at(at + 1) <= FEW {
            self.join_next(at);
        }
    }

    // Joins a chunk that lost a row with the one behind it and the one before it, where they have few rows together.
    fn join_around(&mut self, at: usize)
        requires { IsChunked self.old }
        ensures { IsRearranged self.old self.new }
    {
        self.join_if_few(at);
        if at == 0 {
            return;
        }
        self.join_if_few(at - 1);
    }

    /// The rows after an operation, and by how many bytes they grew, in 64 bits. A chunk that loses a row is joined with a neighbour where
    /// both have 64 rows at most, so that any two neighbours have more.
    pub fn apply_one(&mut self, op: RowOp) -> u64
        requires chunked { IsChunked self.old }
        requires room { HasSpares 1 self.old }
        ensures rows { joined self.new.list.items ≡ entries_after (joined self.old.list.items) op }
        ensures chunked { IsChunked self.new }
        ensures room { (n : ℕ) → HasSpares (suc n) self.old → HasSpares n self.new }
        ensures grows { GrowsBy result (joined self.old.list.items) (joined self.new.list.items) }
    {
        let (more, fewer) = self.change(op);
        let Some(at) = fewer else {
            return more;
        };
        self.join_around(at);
        more
    }

    /// Gives spare chunks back until there are so many at most.
    pub fn give_back(&mut self, most: usize)
        ensures list { self.new.list ≡ self.old.list }
        ensures items { self.new.spare.items ≡ take most self.old.spare.items }
        ensures len { vec_len self.new.spare + (vec_len self.old.spare - most) ≡ vec_len self.old.spare }
        ensures places { vec_capacity self.new.spare ≡ vec_capacity self.old.spare }
    {
        self.spare.truncate(most);
    }

    /// Makes spare chunks until there are so many, and places for all.
    pub fn reserve(&mut self, alloc: Global, spare: usize) -> Result<(), AllocError>
        requires { IsChunked self.old }
        ensures rows { self.new.list.items ≡ self.old.list.items }
        ensures chunked { IsChunked self.new }
        ensures more { vec_len self.old.spare ≤ vec_len self.new.spare }
        ensures ok { OnOk result (spare ≤ vec_len self.new.spare) }
    {
        let had = self.spare.len();
        let most = if had < spare { spare } else { had };
        self.list.reserve(most)?;
        self.spare.reserve(self.list.capacity())?;
        for _ in had..most {
            self.spare.push_reserved(Chunk::new(alloc)?);
        }
        Ok(())
    }
}
