//! Objects that a transaction has looked at.
ghost use Rattle.std.specs.Prelude.{◌≡◌, ℕ, List, Option, Some, None, true, false, IfOk};
ghost use Rattle.std.specs.Option.{option_map};
ghost use Rattle.plan_drafts.specs.Prelude.{Layout, HasLayout, draft_of, or_empty, size_at};
ghost use Rattle.object_rows.specs.Stores.{AreRowsOfWidth};
ghost use Rattle.txn_planner.specs.Touching.{IsTouched};
ghost use Rattle.txn_planner.specs.Laying.{is_moved};

use blob_map::PageMap;
use meta_rows::RowTable;
use number_map::NumberMap;
use object_rows::name_is_one;
use onode_state::{ObjectState, object_state};
use plan_drafts::Draft;
use std::alloc::{AllocError, Global};
use unit_fields::{CollName, Name, Width};

/// An object that operations of a transaction have looked at: what its rows say of it, and how it stands now.
#[derive(Drop)]
pub struct Touched {
    /// How many bytes its rows say. None: it was missing.
    pub before: Option<u64>,
    /// The first page of each of its shards, ascending.
    pub shards: Vec<u32>,
    /// How it stands now. None: it is missing.
    pub now: Option<Draft>,
    /// Whether a page of it doesn't stand any more where it stood.
    pub left: bool,
}

// A draft of an object of so many bytes, or of a missing one, all of whose pages stand where they stand.
fn standing_draft(alloc: Global, size: Option<u64>, pages: PageMap) -> Option<Draft>
    ensures { (layout : Option Layout) → size ≡ size_at layout → pages ≡ (or_empty layout).pages → result ≡ option_map draft_of layout }
{
    match size {
        Some(size) => Some(Draft {
            size,
            kept: pages,
            puts: NumberMap::new(alloc),
        }),
        None => None,
    }
}

/// The object as its rows have it. Its shards are read once, straight into the map.
pub fn load(
    alloc: Global,
    width: Width,
    rows: &RowTable,
    coll: &CollName,
    object: &Name,
) -> Result<Touched, AllocError>
    requires { AreRowsOfWidth width rows.now.rows }
    ensures { IfOk result (λ t. (layout : Option Layout) → HasLayout width rows.now.rows coll.now object.now layout
        → IsTouched rows.now.rows coll.now object.now layout (option_map draft_of layout) t) }
{
    name_is_one(object);
    let ObjectState {
        size: before,
        pages,
        shards,
    } = object_state(alloc, width, rows, coll, object)?;
    let now = standing_draft(alloc, before, pages);
    Ok(Touched {
        before,
        shards,
        now,
        left: false,
    })
}

impl Touched {
    /// Whether a page of it has come, gone or moved.
    pub fn is_moved(&self) -> bool
        ensures { result ≡ is_moved self.entry.now.left self.entry.now.now }
    {
        match &self.now {
            Some(now) => self.left || !now.puts.is_empty(),
            None => self.left,
        }
    }
}
