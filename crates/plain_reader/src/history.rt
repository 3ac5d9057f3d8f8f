//! The runs that a store has behind it, and the objects that it is to have.

use case_text::CaseError;
use object_model::{Book, Transaction};
use plain_store::Plain;
use std::alloc::Global;

/// A transaction that a run accepted, as the case said it. The run's book doesn't keep it.
#[derive(Drop)]
pub struct Told {
    /// Its place in the book.
    pub place: u32,
    pub change: Transaction,
}

/// A run whose first commits a store has.
#[derive(Drop)]
pub struct Past {
    pub book: Book,
    /// Its accepted transactions, by place.
    pub told: Vec<Told>,
    /// How many of its commits.
    pub count: usize,
}

/// Applies a transaction that was accepted, if there is one.
pub fn apply(alloc: Global, plain: &mut Plain, told: Option<&Told>) -> Result<(), CaseError> {
    let Some(told) = told else {
        return Err(CaseError::Line("a commit of no transaction"));
    };
    match plain.apply(alloc, &told.change) {
        Ok(()) => Ok(()),
        Err(_) => Err(CaseError::Line("a commit that isn't applied")),
    }
}

/// The transaction that was accepted at a place, of those that are given by place.
fn told_at(told: &[Told], place: u32) -> Option<&Told> {
    match told.binary_search_by_key(&place, |it| it.place) {
        Ok(at) => told.get(at),
        Err(_) => None,
    }
}

/// Applies the commit of this number of a book, whose accepted transactions are these.
pub fn apply_commit(
    alloc: Global,
    plain: &mut Plain,
    book: &Book,
    told: &[Told],
    at: usize,
) -> Result<(), CaseError> {
    let commits = &book.commits;
    match commits.as_slice().get(at) {
        Some(commit) => apply(alloc, plain, told_at(told, commit.place)),
        None => Err(CaseError::Line("no such commit")),
    }
}

/// Applies the commits that a store has of a run.
fn apply_past(alloc: Global, plain: &mut Plain, past: &Past) -> Result<(), CaseError> {
    for at in 0..past.count {
        apply_commit(alloc, plain, &past.book, &past.told, at)?;
    }
    Ok(())
}

/// Applies the commits that a store has of these runs.
fn apply_all(alloc: Global, plain: &mut Plain, history: &[Past]) -> Result<(), CaseError> {
    for past in history {
        apply_past(alloc, plain, past)?;
    }
    Ok(())
}

/// The objects behind these runs, of which the first one began with a store without objects.
pub fn objects_behind(alloc: Global, history: &[Past]) -> Result<Plain, CaseError> {
    let mut plain = Plain::new(alloc);
    match apply_all(alloc, &mut plain, history) {
        Ok(()) => Ok(plain),
        Err(wrong) => Err(wrong),
    }
}

/// How many commits an image must have at least: those up to the last one that was acknowledged by the cut, if each was
/// acknowledged so many events earlier.
pub fn acknowledged(book: &Book, cut: u64, earlier: u64) -> usize {
    let commits = &book.commits;
    let mut least = 0usize;
    let mut count = 0usize;
    for commit in commits.as_slice() {
        count = count.wrapping_add(1);
        match commit.acked_at {
            Some(at) if at.saturating_sub(earlier) <= cut => least = count,
            _ => {}
        }
    }
    least
}
