//! What becomes of an object's pages under an edit, and which of them get new bytes. Of a range that is cleared only its first and its last page
//! may get some: it covers those between wholly.
ghost use Rattle.std.specs.Prelude.{◌≡◌, ◌++◌, ◌∷◌, ◌+◌, ◌<◌, ◌≤◌, ◌&&◌, true, false, [], filter, IfOk};
ghost use Rattle.std.specs.Option.{option_to_list};
ghost use Rattle.std.specs.FinMap as finite;
ghost use Rattle.object_model.specs.Prelude.{object_limit};
ghost use Rattle.plan_drafts.specs.Edits.{has_bytes_of, covers_whole, pages_touched, fate_there, gets_bytes, takes_unit, needs_old};
ghost use Rattle.page_edits.specs.Ranges.{fate_on};

use crate::ranges::{covers_whole, has_bytes_of, pages_touched};
use crate::spans::Span;
use byte_maps::Items;
use plan_drafts::{Draft, Fate};
use std::alloc::{AllocError, Global};

// What becomes of a page that has bytes of a range, all or some, and of which not all bytes are cleared.
fn fate_there(draft: &Draft, clears: bool, whole: bool, page: u32) -> Fate
    requires { (clears && whole) ≡ false }
    ensures { result ≡ fate_there clears whole (finite.get draft.now.puts page) (finite.get draft.now.kept page) }
{
    if let Some(taking) = draft.puts.get(page).copied() {
        return Fate::Changed {
            taking,
            old: !whole,
        };
    }
    if whole || draft.kept.find(page).is_some() {
        return Fate::Takes { old: !whole };
    }
    if clears {
        Fate::Hole
    } else {
        Fate::Takes { old: false }
    }
}

/// What a span makes of a page of the draft.
pub fn fate_of(draft: &Draft, span: &Span, page: u32) -> Fate
    ensures { result ≡ fate_on span.now draft.now page }
{
    if !has_bytes_of(span.off, span.end, page) {
        return Fate::Stays;
    }
    let whole = covers_whole(span.off, span.end, page);
    if span.clears && whole {
        return Fate::Hole;
    }
    fate_there(draft, span.clears, whole, page)
}

// Whether it gets new bytes.
fn gets_bytes(fate: Fate) -> bool
    ensures { result ≡ gets_bytes fate }
{
    match fate {
        Fate::Stays | Fate::Hole => false,
        Fate::Changed { .. } | Fate::Takes { .. } => true,
    }
}

/// Whether it takes a unit.
pub fn takes_unit(fate: Fate) -> bool
    ensures { result ≡ takes_unit fate }
{
    match fate {
        Fate::Stays | Fate::Hole | Fate::Changed { .. } => false,
        Fate::Takes { .. } => true,
    }
}

/// Whether some of its old bytes stay beside new ones.
pub fn needs_old(fate: Fate) -> bool
    ensures { result ≡ needs_old fate }
{
    match fate {
        Fate::Stays | Fate::Hole => false,
        Fate::Changed { taking: _, old } => old,
        Fate::Takes { old } => old,
    }
}

// The page, if it gets new bytes.
fn page_put(draft: &Draft, span: &Span, page: u32) -> Option<u32>
    ensures { option_to_list result ≡ filter (λ page. gets_bytes (fate_on span.now draft.now page)) (page ∷ []) }
{
    if gets_bytes(fate_of(draft, span, page)) {
        Some(page)
    } else {
        None
    }
}

// The first and the last page of a range that is cleared, each if it gets new bytes.
fn ends_put(draft: &Draft, span: &Span) -> (Option<u32>, Option<u32>)
    requires clears { span.now.clears ≡ true }
    requires limit { span.now.end ≤ object_limit }
    ensures { option_to_list result.0 ++ option_to_list result.1
        ≡ filter (λ page. gets_bytes (fate_on span.now draft.now page)) (pages_touched span.now.off span.now.end) }
{
    if span.end <= span.off {
        return (None, None);
    }
    let touched = pages_touched(span.off, span.end);
    let first = page_put(draft, span, touched.start);
    let last = touched.end - 1;
    if touched.start == last {
        return (first, None);
    }
    (first, page_put(draft, span, last))
}

// The pages of a range that is cleared that get new bytes, in order.
fn pages_in_part(alloc: Global, draft: &Draft, span: &Span) -> Result<Items<u32>, AllocError>
    requires clears { span.now.clears ≡ true }
    requires limit { span.now.end ≤ object_limit }
    ensures { IfOk result (λ pages. pages
        ≡ filter (λ page. gets_bytes (fate_on span.now draft.now page)) (pages_touched span.now.off span.now.end)) }
{
    let (first, last) = ends_put(draft, span);
    let mut pages = Items::new(alloc);
    if let Some(page) = first {
        pages.push(page)?;
    }
    if let Some(page) = last {
        pages.push(page)?;
    }
    Ok(pages)
}

/// The pages that get new bytes, in order.
pub fn pages_put(alloc: Global, draft: &Draft, span: &Span) -> Result<Items<u32>, AllocError>
    requires { span.now.end ≤ object_limit }
    ensures { IfOk result (λ pages. pages
        ≡ filter (λ page. gets_bytes (fate_on span.now draft.now page)) (pages_touched span.now.off span.now.end)) }
{
    if span.clears {
        return pages_in_part(alloc, draft, span);
    }
    let touched = pages_touched(span.off, span.end);
    let mut pages = Items::new(alloc);
    for page in touched.start..touched.end {
        pages.push(page)?;
    }
    Ok(pages)
}
