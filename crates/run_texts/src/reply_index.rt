//! Where the entries of each client are among those of a book, and which of them are acknowledged.
ghost use Rattle.std.specs.Prelude.{◌≡◌, ℕ, ◌+◌, ◌<◌, ◌≤◌, false, length, slice_index_or, IfOk, IfSome};
ghost use Rattle.object_model.specs.Prelude.{is_acknowledged};
ghost use Rattle.run_texts.specs.ReplyIndex.{clients_of, client_place_from, AreLinked, IsIndexOf};

use object_model::{Commit, Entry};
use std::alloc::{AllocError, Global};
use unit_fields::limits::CLIENT_LIMIT;

/// How many clients there are at most: they are numbered from 0 on.
pub const CLIENTS: usize = CLIENT_LIMIT as usize;

/// What is noted of the entries of a book before their lines are printed.
#[derive(Drop)]
pub struct ReplyIndex {
    /// For each entry, whether its commit is acknowledged.
    acked: Vec<bool>,
    /// For each client, the place of its first entry, or the number of entries.
    first: [usize; CLIENTS],
    /// For each entry, the place of the next one of its client, or the number of entries.
    next: Vec<usize>,
}

/// For each of so many entries, whether its commit is acknowledged: one pass over the commits.
fn acked_entries(alloc: Global, commits: &[Commit], count: usize) -> Result<Vec<bool>, AllocError>
    ensures count { IfOk result (λ flags. length flags.items ≡ count) }
    ensures acked { IfOk result (λ flags. (place : ℕ) → place < count → slice_index_or flags.items place false ≡ is_acknowledged commits.now place) }
{
    let mut flags = vec![in alloc; false; count]?;
    for commit in commits {
        let place = commit.place as usize;
        if place < count && commit.acked_at.is_some() {
            flags[place] = true;
        }
    }
    Ok(flags)
}

/// Links each entry to the next one of its client, and gives the place of each client's first entry: one pass over the entries,
/// from the last one on.
fn link_entries(entries: &[Entry], next: &mut [usize]) -> [usize; CLIENTS]
    requires { length next.old ≡ length entries.now }
    ensures { AreLinked (clients_of entries.now) 0 result next.new }
{
    let mut first = [entries.len(); CLIENTS];
    for place in (0..entries.len()).rev() {
        let client = entries[place].client as usize;
        if client < CLIENTS {
            next[place] = first[client];
            first[client] = place;
        }
    }
    first
}

impl ReplyIndex {
    /// The index of these entries.
    pub fn of(
        alloc: Global,
        commits: &[Commit],
        entries: &[Entry],
    ) -> Result<ReplyIndex, AllocError>
        ensures { IfOk result (λ index. IsIndexOf index commits.now entries.now) }
    {
        let acked = acked_entries(alloc, commits, entries.len())?;
        let mut next = vec![in alloc; 0; entries.len()]?;
        let first = link_entries(entries, next.as_mut_slice());
        Ok(ReplyIndex { acked, first, next })
    }
}

/// Whether the commit of the entry at this place is acknowledged, looked for among all commits.
fn is_acked(commits: &[Commit], place: usize) -> bool
    ensures { result ≡ is_acknowledged commits.now place }
{
    commits.iter().any(|commit| commit.place as usize == place && commit.acked_at.is_some())
}

/// Whether the commit of the entry at this place is acknowledged: looked up in the index, or looked for where there is none.
pub fn is_acked_at(commits: &[Commit], index: &Option<ReplyIndex>, place: usize) -> bool
    requires place { IfSome index.now (λ index. place < length index.acked.items) }
    requires index { IfSome index.now (λ index. slice_index_or index.acked.items place false ≡ is_acknowledged commits.now place) }
    ensures { result ≡ is_acknowledged commits.now place }
{
    match index {
        Some(index) => index.acked[place],
        None => is_acked(commits, place),
    }
}

/// The first place with an entry of this client from this place on, or the number of entries: looked for.
fn find_place(entries: &[Entry], client: usize, from: usize) -> usize
    requires { from ≤ length entries.now }
    ensures { result ≡ client_place_from (clients_of entries.now) client from }
{
    for place in from..entries.len() {
        if entries[place].client as usize == client {
            return place;
        }
    }
    entries.len()
}

/// The place of the first entry of a client, or the number of entries: looked up in the index, or looked for where there is none.
pub fn first_place(entries: &[Entry], index: &Option<ReplyIndex>, client: usize) -> usize
    requires client { client < 64 }
    requires index { IfSome index.now (λ index. AreLinked (clients_of entries.now) 0 index.first index.next.items) }
    ensures { result ≡ client_place_from (clients_of entries.now) client 0 }
{
    match index {
        Some(index) => index.first[client],
        None => find_place(entries, client, 0),
    }
}

/// The place of the next entry of a client behind this one of it.
pub fn place_behind(
    entries: &[Entry],
    index: &Option<ReplyIndex>,
    client: usize,
    place: usize,
) -> usize
    requires client { client < 64 }
    requires place { place < length entries.now }
    requires own { slice_index_or (clients_of entries.now) place 64 ≡ client }
    requires index { IfSome index.now (λ index. AreLinked (clients_of entries.now) 0 index.first index.next.items) }
    ensures { result ≡ client_place_from (clients_of entries.now) client (place + 1) }
{
    match index {
        Some(index) => index.next[place],
        None => find_place(entries, client, place + 1),
    }
}
