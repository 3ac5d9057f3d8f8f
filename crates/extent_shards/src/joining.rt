//! The shards of an object, joined as the values of their rows are read.
ghost use Rattle.std.specs.Prelude.{◌≡◌, [], List, OnOk};
ghost use Rattle.std.specs.FinMap as map;
ghost use Rattle.row_format.specs.Prelude.{Extent, BeginsAt};
ghost use Rattle.onode_codec.specs.Reading.{SpellExtents};
ghost use Rattle.extent_shards.specs.Reading.{IsShardValue, AddsShard};

use crate::pushing::lone_bytes;
use crate::reading::put_value;
use blob_map::PageMap;
use onode_codec::Head;
use std::alloc::{AllocError, Global};
use unit_fields::{Fields, Width};

// The first page of the extents that the value of a shard's row spells, however wide their checksums are.
fn first_page(value: &[u8]) -> u32
    requires { (width : Width) × IsShardValue width value.now }
    ensures { (width : Width) (es : List Extent) → SpellExtents width value.now es → BeginsAt result es }
{
    match Head::read(&mut Fields::new(value)) {
        Some(head) => head.first,
        None => unreachable!(),
    }
}

/// An object's shards, joined: the first page of each, and where the pages of all of them stand.
#[derive(Drop)]
pub struct JoinedShards {
    /// The first pages, in the order in which the shards were added.
    pub firsts: Vec<u32>,
    /// The pages of all of them.
    pub pages: PageMap,
}

impl JoinedShards {
    /// No shards. It takes no memory.
    pub fn new(alloc: Global) -> JoinedShards
        ensures firsts { result.firsts.items ≡ [] }
        ensures pages { result.pages ≡ map.empty }
    {
        JoinedShards {
            firsts: Vec::new(alloc),
            pages: PageMap::new(alloc),
        }
    }

    /// Makes room for so many pages more. The shards are as they were, also where memory runs out.
    pub fn reserve(&mut self, more: usize) -> Result<(), AllocError>
        ensures firsts { self.new.firsts.items ≡ self.old.firsts.items }
        ensures pages { self.new.pages ≡ self.old.pages }
    {
        self.pages.reserve(more)
    }

    /// Adds the shard whose row has this value, with checksums of this width. There is room for its pages before they are put, if each has
    /// an extent of its own. Where memory runs out, some of its pages are put.
    pub fn add(&mut self, width: Width, value: &[u8]) -> Result<(), AllocError>
        requires { IsShardValue width value.now }
        ensures { OnOk result (AddsShard width value.now self.old.firsts.items self.old.pages self.new.firsts.items self.new.pages) }
    {
        self.firsts.push(first_page(value))?;
        self.pages.reserve(value.len() / lone_bytes(width))?;
        put_value(&mut self.pages, width, value)
    }
}
