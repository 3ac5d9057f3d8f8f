//! What a walk over rows in the order of their keys keeps of those that it has passed.
ghost use Rattle.std.specs.Prelude.{◌≡◌, ◌↔◌, ◌+◌, ◌<◌, ◌≤◌, ◌^◌, Some, None, IsTrue, OnOk, false};
ghost use Rattle.std.specs.List.{AllByRecursion};
ghost use Rattle.row_format.specs.Prelude.{page_end};
ghost use Rattle.std.specs.FinMap as map;
ghost use Rattle.row_check.specs.Bad.{IsShardOf, EndsBefore, IsEndOf, EndsWith, HasLowPages};
ghost use Rattle.row_check.specs.Named.{row_named};

use crate::blobs::note_row;
use crate::namers::Namers;
use onode_codec::Extent;
use row_reading::Row;
use std::alloc::{AllocError, Global};
use unit_fields::{CollName, Name};

/// What is kept of the rows that were passed, good and bad ones.
#[derive(Drop)]
pub(crate) struct Passed {
    /// The last one that is a row of the table.
    pub(crate) last: Option<Row>,
    /// Whether it is in its place.
    pub(crate) in_place: bool,
    /// Where it is a shard, the page at which the pages of its object's shards so far end: a shard behind it must not begin before.
    pub(crate) end: u64,
    /// For each blob that a shard has named, under the key of the blob's row, the collection of the first such shard.
    pub(crate) namers: Namers,
}

pub(crate) fn is_of_object(
    row_coll: &CollName,
    row_object: &Name,
    coll: &CollName,
    object: &Name,
) -> bool
    ensures { IsTrue result ↔ ((row_coll.now ≡ coll.now) × (row_object.now ≡ object.now)) }
{
    row_coll.as_slice() == coll.as_slice() && row_object.as_slice() == object.as_slice()
}

// Whether a row is a shard of this object.
fn is_shard_of(last: &Option<Row>, coll: &CollName, object: &Name) -> bool
    ensures { IsTrue result ↔ IsShardOf last.now coll.now object.now }
{
    match last {
        Some(
            Row::Shard {
                coll: of_coll,
                object: of_object,
                page: _page,
                extents: _extents,
            },
        ) => is_of_object(of_coll, of_object, coll, object),
        _ => false,
    }
}

// The page behind an extent's last.
fn page_behind(extent: &Extent) -> u64
    requires { page_end extent.now < 2 ^ 33 }
    ensures { result ≡ page_end extent.now }
{
    u64::from(extent.first) + extent.body.page_count()
}

// The greatest page behind an extent.
fn end_of(extents: &[Extent]) -> u64
    requires { AllByRecursion (λ e. page_end e < 2 ^ 33) extents.now }
    ensures { IsEndOf extents.now result }
{
    let mut end = 0;
    for extent in extents {
        end = page_behind(extent).max(end);
    }
    end
}

impl Passed {
    /// Before any row.
    pub(crate) fn new(alloc: Global) -> Passed
        ensures { result ≡ record { last = None; in_place = false; end = 0; namers = map.empty } }
    {
        Passed {
            last: None,
            in_place: false,
            end: 0,
            namers: Namers::new(alloc),
        }
    }

    /// Whether the pages of the object's shards so far are all before this one.
    pub(crate) fn ends_before(&self, coll: &CollName, object: &Name, page: u32) -> bool
        ensures { IsTrue result ↔ EndsBefore self.now coll.now object.now page }
    {
        !is_shard_of(&self.last, coll, object) || self.end <= u64::from(page)
    }

    // Where the pages of the row's object end once the row was passed.
    fn end_with(&self, row: &Row) -> u64
        requires { HasLowPages row.now }
        ensures { EndsWith self.now row.now result }
    {
        let Row::Shard {
            coll,
            object,
            page: _page,
            extents,
        } = row
        else {
            return 0;
        };
        let end = end_of(extents.as_slice());
        if is_shard_of(&self.last, coll, object) {
            end.max(self.end)
        } else {
            end
        }
    }

    /// The row was passed, which is in its place or isn't.
    pub(crate) fn pass(&mut self, alloc: Global, row: Row, in_place: bool) -> Result<(), AllocError>
        requires { HasLowPages row }
        ensures last { OnOk result (self.new.last ≡ Some row) }
        ensures placed { OnOk result (self.new.in_place ≡ in_place) }
        ensures end { OnOk result (EndsWith self.old row self.new.end) }
        ensures namers { OnOk result (self.new.namers ≡ row_named self.old.namers row) }
    {
        self.end = self.end_with(&row);
        self.in_place = in_place;
        let noted = note_row(alloc, &mut self.namers, &row);
        self.last = Some(row);
        noted
    }
}
