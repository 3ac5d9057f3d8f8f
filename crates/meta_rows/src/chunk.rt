//! A few rows in the order of their keys: a part of the table.
ghost use Rattle.std.specs.Prelude.{◌≡◌, ◌+◌, ◌%◌, ◌^◌, ◌<◌, ◌≤◌, [], ◌++◌, ◌∷◌, length, get_or, reverse, Some, None, T, false, IsTrue, IfOk, IfSome, option_copied};
ghost use Rattle.std.specs.FinMap as map;
ghost use Rattle.std.specs.FinMap.{find};
ghost use Rattle.std.specs.Vec.{vec_len, vec_capacity};
ghost use Rattle.std.specs.List.Sorted.{IsSearchInRange, IsBinarySearchResult};
ghost use Rattle.byte_maps.specs.ByteMap.{byte_order};
ghost use Rattle.meta_rows.specs.Rows.{key_of};
ghost use Rattle.meta_rows.specs.Table.{entries_after, value_left, left_at, come_at, GrowsBy, StartsAt};
ghost use Rattle.std.specs.declared.cmp.Ordering.TheVariants.{Less, Equal};
ghost use Rattle.meta_rows.specs.Chunks.{Entry, first_order, IsPastLast, IsLastKey, IsKeyPlace};

use crate::row_change::left_by;
use crate::row_op::RowOp;
use byte_maps::{Bytes, Duplicate, byte_order};
use std::alloc::{AllocError, Global};
use std::cmp::Ordering;
use std::marker::Model;
use std::mem::replace;

/// The most rows of a chunk.
pub const MOST: usize = 128;

/// Rows in a list, seen as the list. The buffer has room for 128 of them from the first on, so that rows come without memory.
#[derive(Debug, Drop)]
pub struct Chunk {
    rows: Vec<(Bytes, Bytes)>,
}

impl Model for Chunk {
    ghost use Rattle.std.specs.Prelude.{ℕ, List, ◌≤◌};
    ghost use Rattle.std.specs.Vec.{vec_capacity};
    ghost use Rattle.std.specs.Coded.{coded×, coded_ℕ, coded_list};

    ghost Value = { List (List ℕ × List ℕ) };

    ghost coded = { coded_list (coded× (coded_list coded_ℕ) (coded_list coded_ℕ)) };

    ghost view = { λ a. a.rows.items };

    ghost invariant = { λ a. 128 ≤ vec_capacity a.rows };
}

// Where a key stands among entries in order, or where it would go.
fn place_of(entries: &[(Bytes, Bytes)], key: &[u8]) -> Result<usize, usize>
    ensures bound { IsSearchInRange result (length entries.now) }
    ensures position { IsBinarySearchResult (λ e. byte_order e.0 key.now) entries.now result }
{
    entries.binary_search_by(|entry| byte_order(entry.0.as_slice(), key))
}

// How the last key compares with this one, or as one above it where there is none.
fn last_order(entries: &[(Bytes, Bytes)], key: &[u8]) -> Ordering
    ensures less { result ≡ Less → IsPastLast key.now entries.now }
    ensures equal { result ≡ Equal → IsLastKey key.now entries.now }
{
    match entries.last() {
        Some(last) => byte_order(last.0.as_slice(), key),
        None => Ordering::Greater,
    }
}

// The same place as `place_of` finds, by one comparison where the key is the last one or comes behind all others.
pub fn place_for(entries: &[(Bytes, Bytes)], key: &[u8]) -> Result<usize, usize>
    ensures { IsKeyPlace key.now entries.now result }
{
    match last_order(entries, key) {
        Ordering::Less => Err(entries.len()),
        Ordering::Equal => Ok(entries.len() - 1),
        Ordering::Greater => place_of(entries, key),
    }
}

// The place of a key, behind a row whose key is below it, where that is the next one or before the next one.
fn place_behind(
    entries: &[(Bytes, Bytes)],
    before: usize,
    key: &[u8],
) -> Option<Result<usize, usize>>
    requires before { before < length entries.now }
    requires below { (d : Entry) → byte_order (get_or entries.now before d).0 key.now ≡ Less }
    ensures { IfSome result (λ place. IsKeyPlace key.now entries.now place) }
{
    let next = before + 1;
    if next == entries.len() {
        return Some(Err(next));
    }
    match byte_order(entries[next].0.as_slice(), key) {
        Ordering::Less => None,
        Ordering::Equal => Some(Ok(next)),
        Ordering::Greater => Some(Err(next)),
    }
}

/// The place of a key, where that is next to this place: two comparisons tell.
pub fn place_near(
    entries: &[(Bytes, Bytes)],
    near: usize,
    key: &[u8],
) -> Option<Result<usize, usize>>
    ensures { IfSome result (λ place. IsKeyPlace key.now entries.now place) }
{
    if near == 0 || entries.len() < near {
        return None;
    }
    let before = near - 1;
    match byte_order(entries[before].0.as_slice(), key) {
        Ordering::Less => place_behind(entries, before, key),
        Ordering::Equal => Some(Ok(before)),
        Ordering::Greater => None,
    }
}

/// Where the keys begin that are at least this one.
pub fn start_of(entries: &[(Bytes, Bytes)], key: &[u8]) -> usize
    requires { T (map.is_sorted byte_order entries.now) }
    ensures { StartsAt key.now entries.now result }
{
    match place_of(entries, key) {
        Ok(at) => at,
        Err(at) => at,
    }
}

/// The bytes of a row, spelled as an operation that sets it.
pub fn row_size(key: &Bytes, value: &Bytes) -> u64
    ensures { result ≡ (7 + length key.now + length value.now) % 2 ^ 64 }
{
    7u64.wrapping_add(key.len() as u64)
        .wrapping_add(value.len() as u64)
}

// The row at a place after an operation of its key, and by how many bytes it grew.
fn change_there(rows: &mut Vec<(Bytes, Bytes)>, at: usize, op: RowOp) -> u64
    requires { at < vec_len rows.old }
    ensures rows { rows.new.items ≡ left_at rows.old.items at (value_left (Some (get_or rows.old.items at ([], [])).1) op) }
    ensures grows { GrowsBy result rows.old.items rows.new.items }
    ensures capacity { vec_capacity rows.new ≡ vec_capacity rows.old }
{
    let alloc = *rows.allocator();
    let row = &mut rows[at];
    let before = row_size(&row.0, &row.1);
    let held = replace(&mut row.1, Bytes::new(alloc));
    let (_, left) = left_by(Some(held), op);
    match left {
        Some(value) => {
            let after = row_size(&row.0, &value);
            row.1 = value;
            after.wrapping_sub(before)
        }
        None => {
            rows.remove(at);
            0u64.wrapping_sub(before)
        }
    }
}

// The row that an operation makes where there is none of its key, put in at a place, and its bytes.
fn come_in(rows: &mut Vec<(Bytes, Bytes)>, at: usize, op: RowOp) -> u64
    requires place { at ≤ vec_len rows.old }
    requires room { vec_len rows.old < vec_capacity rows.old }
    ensures rows { rows.new.items ≡ come_at rows.old.items at (key_of op) (value_left None op) }
    ensures grows { GrowsBy result rows.old.items rows.new.items }
    ensures capacity { vec_capacity rows.old ≤ vec_capacity rows.new }
{
    let (key, left) = left_by(None, op);
    match left {
        Some(value) => {
            let size = row_size(&key, &value);
            match rows.insert(at, (key, value)) {
                Ok(()) => size,
                Err(_) => unreachable!(),
            }
        }
        None => 0,
    }
}

// Moves the rows from a place on into an empty list with room.
fn move_upper(rows: &mut Vec<(Bytes, Bytes)>, from: usize, upper: &mut Vec<(Bytes, Bytes)>)
    requires from { from ≤ vec_len rows.old }
    requires empty { upper.old.items ≡ [] }
    requires room { vec_len rows.old ≤ vec_capacity upper.old }
    ensures rows { rows.old.items ≡ rows.new.items ++ upper.new.items }
    ensures lower { vec_len rows.new ≡ from }
    ensures capacity { vec_capacity rows.new ≡ vec_capacity rows.old }
    ensures room_left { vec_capacity upper.new ≡ vec_capacity upper.old }
{
    while from < rows.len() {
        match rows.pop() {
            Some(row) => upper.push_reserved(row),
            None => unreachable!(),
        }
    }
    upper.reverse();
}

impl Chunk {
    /// No rows, and the buffer.
    pub fn new(alloc: Global) -> Result<Chunk, AllocError>
        ensures { IfOk result (λ chunk. chunk ≡ []) }
    {
        Ok(Chunk {
            rows: Vec::with_capacity(alloc, MOST)?,
        })
    }

    /// The same rows once more, in buffers of their own.
    pub fn copy(&self, alloc: Global) -> Result<Chunk, AllocError>
        ensures { IfOk result (λ chunk. chunk ≡ self.now) }
    {
        let mut rows = Vec::with_capacity(alloc, MOST)?;
        for row in &self.rows {
            let key = row.0.duplicate(alloc)?;
            let value = row.1.duplicate(alloc)?;
            rows.push((key, value))?;
        }
        Ok(Chunk { rows })
    }

    /// The rows, lent.
    pub fn rows(&self) -> &[(Bytes, Bytes)]
        ensures { result.now ≡ self.now }
    {
        self.rows.as_slice()
    }

    /// How many rows there are.
    pub fn len(&self) -> usize
        ensures { result ≡ length self.now }
    {
        self.rows.as_slice().len()
    }

    /// The rows.
    pub fn into_rows(self) -> Vec<(Bytes, Bytes)>
        ensures { result.items ≡ self }
    {
        self.rows
    }

    /// Whether there is no row.
    pub fn is_empty(&self) -> bool
        ensures none { IsTrue result → self.now ≡ [] }
        ensures some { result ≡ false → 0 < length self.now }
    {
        self.rows.as_slice().is_empty()
    }

    /// Whether it has to be split before a row comes.
    pub fn is_full(&self) -> bool
        ensures full { IsTrue result → 128 ≤ length self.now }
        ensures short { result ≡ false → length self.now < 128 }
    {
        MOST <= self.rows.as_slice().len()
    }

    /// How its first key compares with this one.
    pub fn first_order(&self, key: &[u8]) -> Ordering
        ensures { result ≡ first_order key.now self.now }
    {
        match self.rows.as_slice().split_first() {
            Some((row, _)) => byte_order(row.0.as_slice(), key),
            None => Ordering::Less,
        }
    }

    /// The value of a row, lent.
    pub fn get(&self, key: &[u8]) -> Option<&Bytes>
        requires { T (map.is_sorted byte_order self.now) }
        ensures { option_copied result ≡ find byte_order key.now self.now }
    {
        match place_of(&self.rows, key) {
            Ok(at) => Some(&self.rows[at].1),
            Err(_) => None,
        }
    }

    /// The rows after an operation, and by how many bytes they grew, in 64 bits. The place of its key is given.
    pub fn change(&mut self, op: RowOp, place: Result<usize, usize>) -> u64
        requires order { T (map.is_sorted byte_order self.old) }
        requires room { length self.old < 128 }
        requires place { IsKeyPlace (key_of op) self.old place }
        ensures rows { self.new ≡ entries_after self.old op }
        ensures grows { GrowsBy result self.old self.new }
    {
        match place {
            Ok(at) => change_there(&mut self.rows, at, op),
            Err(at) => come_in(&mut self.rows, at, op),
        }
    }

    /// Moves the rows from a place on into an empty chunk.
    pub fn split(&mut self, from: usize, upper: &mut Chunk)
        requires from { from ≤ length self.old }
        requires room { length self.old ≤ 128 }
        requires empty { upper.old ≡ [] }
        ensures rows { self.old ≡ self.new ++ upper.new }
        ensures lower { length self.new ≡ from }
    {
        move_upper(&mut self.rows, from, &mut upper.rows);
    }

    /// Puts a row behind the others.
    pub fn push(&mut self, row: (Bytes, Bytes))
        requires { length self.old < 128 }
        ensures { self.new ≡ self.old ++ row ∷ [] }
    {
        self.rows.push_reserved(row);
    }

    /// Takes the rows of the chunk behind, which has none then.
    pub fn take_from(&mut self, behind: &mut Chunk)
        requires { length self.old + length behind.old ≤ 128 }
        ensures rows { self.new ≡ self.old ++ behind.old }
        ensures none { behind.new ≡ [] }
    {
        match self.rows.append(&mut behind.rows) {
            Ok(()) => {}
            Err(_) => unreachable!(),
        }
    }
}
