//! Pages looked up in an object's shards.
ghost use Rattle.std.specs.Prelude.{◌≡◌};
ghost use Rattle.page_lookup.specs.Bytes.{rows_read};
ghost use Rattle.row_format.specs.Prelude.{ExtentsAscend};
ghost use Rattle.page_lookup.specs.Found.{place_found, LeavesOut, HasNumber};

use crate::shard::{begins_by, is_done, place_at_front, skip_to};
use blob_map::Place;
use meta_rows::RowRange;
use std::marker::Model;
use unit_fields::Width;

// What is left of shards: the bytes of the first one, and the rows of the others.
#[derive(Drop)]
struct Rest<'a> {
    width: Width,
    front: &'a [u8],
    rows: RowRange<'a>,
}

impl<'a> Model for Rest<'a> {
    ghost use Rattle.std.specs.Prelude.{List, ◌++◌};
    ghost use Rattle.row_format.specs.Prelude.{Extent, ExtentsAscend};
    ghost use Rattle.page_lookup.specs.Bytes.{extents_read, rows_read};

    ghost Value = { List Extent };

    ghost view = { λ a. extents_read a.width a.front.now ++ rows_read a.width a.rows };

    ghost invariant = { λ a. ExtentsAscend (extents_read a.width a.front.now ++ rows_read a.width a.rows) };
}

// Leaves out shards that end in front of a page, by bisecting the rows.
fn skip_rows(rows: &mut RowRange, width: Width, page: u32)
    requires { ExtentsAscend (rows_read width rows.old) }
    ensures { LeavesOut page (rows_read width rows.old) (rows_read width rows.new) }
{
    rows.skip_to(|value| begins_by(width, value.as_slice(), page));
}

impl<'a> Rest<'a> {
    // All of the shards that these rows are.
    #[tactic(auto, unfolding(crate::specs::Bytes::extents_read))]
    fn new(width: Width, rows: RowRange<'a>) -> Rest<'a>
        requires { ExtentsAscend (rows_read width rows) }
        ensures { result ≡ rows_read width rows.entry }
    {
        Rest {
            width,
            front: &[],
            rows,
        }
    }

    // The same once more.
    fn again(&self) -> Rest<'a>
        ensures { result ≡ self.now }
    {
        Rest {
            width: self.width,
            front: self.front,
            rows: self.rows.again(),
        }
    }

    // Where a page stands. The extents that end in front of it are left out.
    fn find(&mut self, page: u32) -> Option<Place>
        requires { HasNumber self.old page }
        ensures place { result ≡ place_found self.old page }
        ensures left { LeavesOut page self.old self.new }
    {
        self.front = skip_to(self.width, self.front, page);
        if is_done(self.width, self.front) {
            skip_rows(&mut self.rows, self.width, page);
        }
        'shards: while is_done(self.width, self.front) {
            match self.rows.next() {
                Some((_, value)) => self.front = skip_to(self.width, value.as_slice(), page),
                None => return None,
            }
        }
        place_at_front(self.width, self.front, page)
    }
}

/// The pages of an object, lent with the rows of its shards, and seen as the extents that the rows' values spell, one row's behind the
/// other's. A look-up bisects the shards and goes over the extents of one, and looks at no checksum but those that are asked for. Pages that
/// ascend are looked up from the last one on; a page in front of it begins again.
#[derive(Drop)]
pub struct ShardPages<'a> {
    width: Width,
    rows: RowRange<'a>,
    rest: Rest<'a>,
    from: u32,
}

impl<'a> Model for ShardPages<'a> {
    ghost use Rattle.std.specs.Prelude.{List};
    ghost use Rattle.row_format.specs.Prelude.{Extent, ExtentsAscend};
    ghost use Rattle.page_lookup.specs.Bytes.{rows_read};
    ghost use Rattle.page_lookup.specs.Found.{LeavesOut};

    ghost Value = { List Extent };

    ghost view = { λ a. rows_read a.width a.rows };

    ghost invariant = { λ a. ExtentsAscend (rows_read a.width a.rows) × LeavesOut a.from (rows_read a.width a.rows) a.rest };
}

impl<'a> ShardPages<'a> {
    /// The pages of an object whose shards these rows are, with checksums of this width.
    pub fn new(width: Width, rows: RowRange<'a>) -> ShardPages<'a>
        requires { ExtentsAscend (rows_read width rows) }
        ensures { result ≡ rows_read width rows.entry }
    {
        ShardPages {
            width,
            rest: Rest::new(width, rows.again()),
            rows,
            from: 0,
        }
    }

    /// The same pages once more, to look ahead of them.
    pub fn again(&self) -> ShardPages<'a>
        ensures { result ≡ self.now }
    {
        ShardPages {
            width: self.width,
            rows: self.rows.again(),
            rest: self.rest.again(),
            from: self.from,
        }
    }

    // What is left without extents that end in front of a page. It goes on from the last look-up, unless that was of a later page.
    fn rest_for(&self, page: u32) -> Rest<'a>
        ensures { LeavesOut page self.now result }
    {
        if page < self.from {
            Rest::new(self.width, self.rows.again())
        } else {
            self.rest.again()
        }
    }

    /// Where a page stands. None: it is a hole.
    pub fn find(&mut self, page: u32) -> Option<Place>
        requires { HasNumber self.old page }
        ensures place { result ≡ place_found self.old page }
        ensures same { self.new ≡ self.old }
    {
        let mut rest = self.rest_for(page);
        let place = rest.find(page);
        self.rest = rest;
        self.from = page;
        place
    }
}
