//! What touches, writes, zeros and truncates make of an object's pages while a transaction is planned.
ghost use Rattle.std.specs.Prelude.{◌≡◌, ℕ, ◌+◌, ◌<◌, ◌≤◌, ◌^◌, ◌&&◌, List, length, map, not, filter, IfOk, OnOk};
ghost use Rattle.std.specs.List.{AllByRecursion, flat_map};
ghost use Rattle.std.specs.Option.{option_to_list};
ghost use Rattle.std.specs.Ordering.{nat_cmp};
ghost use Rattle.std.specs.FinMap as finite;
ghost use Rattle.std.specs.FinMap.Entries.{where_key};
ghost use Rattle.object_model.specs.declared.op.Op.{Op};
ghost use Rattle.object_model.specs.Prelude.{object_limit};
ghost use Rattle.plan_rows.specs.Stores.{AreRowsOfWidth};
ghost use Rattle.plan_rows.specs.declared.plan.ReadUnit.{ReadUnit};
ghost use Rattle.plan_drafts.specs.Edits.{Held, page_unit, has_bytes_of, covers_whole, edit_of, is_touched, takes_unit, pages_taking, place_read, places_read, drafted, writes_of, IsInLimits};
ghost use Rattle.page_edits.specs.Ranges.{IsOnBytes, fate_on};
ghost use Rattle.page_edits.specs.Takings.{IsNumbered, PutsWholePages};
ghost use Rattle.page_edits.specs.Writes.{old_where, taking_by, planned, with_puts, op_at, made_by, IsWriteBy, CanBeMade};

use crate::fate::{fate_of, needs_old, pages_put, takes_unit};
use crate::ranges::{pages_covered, pages_touched};
use crate::spans::{Span, span_of};
use crate::writes::{OldBytes, PageWrite};
use blob_map::{PageMap, Place};
use byte_maps::Items;
use meta_rows::RowTable;
use number_map::NumberMap;
use object_model::Op;
use place_units::page_unit;
use plan_drafts::{Draft, Fate};
use plan_rows::PageUnit;
use std::alloc::{AllocError, Global};
use unit_fields::Width;

/// What an edit writes, reads and leaves.
#[derive(Drop)]
pub struct Edited {
    /// The pages that get new bytes, in order.
    pub writes: Items<PageWrite>,
    /// Where the old bytes are that it needs, in the order of their pages.
    pub places: Items<PageUnit>,
    /// The pages that don't stand any more where they stood, in order, each with its place.
    pub left: Items<(u32, Place)>,
    /// How many units the transaction has taken then.
    pub taken: u32,
}

// Pages to be written, where their old bytes are read, and how many units are taken then.
#[derive(Drop)]
struct Planned {
    writes: Items<PageWrite>,
    places: Items<PageUnit>,
    taken: u32,
}

// Where a page is read, if some of its old bytes stay.
fn place_read(
    width: Width,
    rows: &RowTable,
    draft: &Draft,
    fate: Fate,
    page: u32,
) -> Option<PageUnit>
    requires { AreRowsOfWidth width rows.now.rows }
    ensures { result ≡ place_read (page_unit width rows.now.rows) fate (finite.get draft.now.kept page) }
{
    if !needs_old(fate) {
        return None;
    }
    match draft.kept.find(page) {
        Some(place) => Some(page_unit(width, rows, &place)),
        None => None,
    }
}

// Where the old bytes of a page are, by what becomes of it and by the place where they are read.
fn old_where(fate: Fate, place: Option<PageUnit>) -> OldBytes
    ensures { result ≡ old_where fate place }
{
    if let Fate::Changed { taking, old } = fate {
        return if old {
            OldBytes::Put(taking)
        } else {
            OldBytes::Zeros
        };
    }
    match place {
        Some(on) => OldBytes::Read(on.unit),
        None => OldBytes::Zeros,
    }
}

// The taking of a page's unit, where this is the next one.
fn taking_by(fate: Fate, next: u32) -> u32
    ensures { result ≡ taking_by fate next }
{
    match fate {
        Fate::Changed { taking, old: _ } => taking,
        Fate::Stays | Fate::Hole | Fate::Takes { .. } => next,
    }
}

// The writes of these pages by the operation at this place, where so many units had been taken before.
fn plan_pages(
    alloc: Global,
    width: Width,
    rows: &RowTable,
    at: u32,
    draft: &Draft,
    span: &Span,
    pages: &[u32],
    taken: u32,
) -> Result<Planned, AllocError>
    requires good { AreRowsOfWidth width rows.now.rows }
    requires few { taken + length pages.now < 2 ^ 32 }
    ensures writes { IfOk result (λ p. p.writes ≡ planned (page_unit width rows.now.rows) at span.now draft.now taken pages.now) }
    ensures places { IfOk result (λ p. p.places
        ≡ flat_map (λ page. option_to_list (place_read (page_unit width rows.now.rows) (fate_on span.now draft.now page)
        (finite.get draft.now.kept page))) pages.now) }
    ensures taken { IfOk result (λ p. p.taken ≡ taken + length (filter (λ page. takes_unit (fate_on span.now draft.now page)) pages.now)) }
{
    let mut planned = Planned {
        writes: Items::new(alloc),
        places: Items::new(alloc),
        taken,
    };
    for page in pages {
        let fate = fate_of(draft, span, *page);
        let place = place_read(width, rows, draft, fate, *page);
        planned.writes.push(PageWrite {
            op: at,
            page: *page,
            taking: taking_by(fate, planned.taken),
            old: old_where(fate, place),
        })?;
        if let Some(place) = &place {
            planned.places.push(*place)?;
        }
        if takes_unit(fate) {
            planned.taken += 1;
        }
    }
    Ok(planned)
}

// Takes away the pages that have bytes of a range, and gives them with their places. Where memory runs out the map is as it was.
fn leave(
    alloc: Global,
    kept: &mut PageMap,
    off: u64,
    end: u64,
) -> Result<Items<(u32, Place)>, AllocError>
    requires { end ≤ object_limit }
    ensures kept { OnOk result (kept.new ≡ finite.retain_keys kept.old (λ page. not (has_bytes_of off end page))) }
    ensures left { IfOk result (λ left. left ≡ where_key nat_cmp (has_bytes_of off end) (finite.entries kept.old)) }
{
    if end <= off {
        return Ok(Items::new(alloc));
    }
    let touched = pages_touched(off, end);
    let left = kept.punch(alloc, touched.start, touched.end - touched.start)?;
    Ok(Items::from_vec(left))
}

// Takes away the pages that a range covers wholly. Where memory runs out the map is as it was.
fn clear_whole(
    alloc: Global,
    puts: &mut NumberMap<u32>,
    off: u64,
    end: u64,
) -> Result<(), AllocError>
    requires order { off ≤ end }
    requires limit { end ≤ object_limit }
    ensures { OnOk result (puts.new ≡ finite.retain_keys puts.old (λ page. not (covers_whole off end page))) }
{
    let covered = pages_covered(off, end);
    let _ = puts.cut(alloc, covered.start, covered.end.max(covered.start))?;
    Ok(())
}

// Takes away the pages that an edit clears. Where memory runs out the map is as it was.
fn clear(alloc: Global, puts: &mut NumberMap<u32>, span: &Span) -> Result<(), AllocError>
    requires order { span.now.off ≤ span.now.end }
    requires limit { span.now.end ≤ object_limit }
    ensures { OnOk result (puts.new
        ≡ finite.retain_keys puts.old (λ page. not (span.now.clears && covers_whole span.now.off span.now.end page))) }
{
    if span.clears {
        clear_whole(alloc, puts, span.off, span.end)
    } else {
        Ok(())
    }
}

// Puts the pages of writes, each by its taking. Where memory runs out, some of them are put.
fn put_pages(puts: &mut NumberMap<u32>, writes: &[PageWrite]) -> Result<(), AllocError>
    ensures { OnOk result (puts.new ≡ with_puts puts.old writes.now) }
{
    for write in writes {
        puts.insert(write.page, write.taking)?;
    }
    Ok(())
}

/// What an operation on an object's bytes makes of its pages, where the transaction has taken so many units before: each page that gets new
/// bytes and wasn't put before takes the next one. It goes over the pages that get new bytes and over those that stand on units, never over
/// holes. Where memory runs out, some of the draft may have changed.
///
/// `at` is the operation's place in its transaction. The rows say on which units old bytes are that it needs.
pub fn edit(
    alloc: Global,
    width: Width,
    rows: &RowTable,
    op: &Op,
    at: u32,
    draft: &mut Draft,
    taken: u32,
) -> Result<Edited, AllocError>
    requires rows { AreRowsOfWidth width rows.now.rows }
    requires on_bytes { IsOnBytes op.now }
    requires within { IsInLimits op.now }
    requires few { taken ≤ 2 ^ 24 }
    ensures draft { OnOk result (draft.new ≡ drafted (edit_of op.now draft.old.size) taken draft.old) }
    ensures taken { IfOk result (λ e. e.taken ≡ taken + length (pages_taking (edit_of op.now draft.old.size) draft.old)) }
    ensures places { IfOk result (λ e. e.places ≡ places_read (page_unit width rows.now.rows) (edit_of op.now draft.old.size) draft.old) }
    ensures left { IfOk result (λ e. e.left ≡ where_key nat_cmp (is_touched (edit_of op.now draft.old.size)) (finite.entries draft.old.kept)) }
    ensures writes { IfOk result (λ e. (read : List ReadUnit) (held : Held) → PutsWholePages held draft.old
        → map (made_by op.now read held) e.writes
        ≡ writes_of (page_unit width rows.now.rows) (edit_of op.now draft.old.size) read held taken draft.old) }
    ensures of { IfOk result (λ e. AllByRecursion (IsWriteBy at) e.writes) }
    ensures can { IfOk result (λ e. (ops : List Op) → at < length ops → op_at ops at ≡ op.now → IsNumbered taken draft.old
        → AllByRecursion (CanBeMade ops e.taken) e.writes) }
{
    let span = span_of(op, draft.size);
    let pages = pages_put(alloc, draft, &span)?;
    let planned = plan_pages(
        alloc,
        width,
        rows,
        at,
        draft,
        &span,
        pages.as_slice(),
        taken,
    )?;
    let left = leave(alloc, &mut draft.kept, span.off, span.end)?;
    clear(alloc, &mut draft.puts, &span)?;
    put_pages(&mut draft.puts, planned.writes.as_slice())?;
    draft.size = span.size;
    Ok(Edited {
        writes: planned.writes,
        places: planned.places,
        left,
        taken: planned.taken,
    })
}
