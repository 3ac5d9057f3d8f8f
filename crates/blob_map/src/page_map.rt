//! The page map of an object.
ghost use Rattle.std.specs.Prelude.{◌≡◌, ◌<◌, ◌+◌, ◌^◌, not, OnOk, OnErr, IfOk};
ghost use Rattle.std.specs.Ordering.{nat_cmp};
ghost use Rattle.std.specs.List.{AllByRecursion};
ghost use Rattle.std.specs.FinMap as map;
ghost use Rattle.std.specs.FinMap.Entries.{where_key};
ghost use Rattle.number_map.specs.NumberMap.{is_key_in};
ghost use Rattle.row_format.specs.Prelude.{Place, FitsExtent};
ghost use Rattle.blob_map.specs.Normal.{extents_of};

use crate::extents::extents_of;
use crate::place::Place;
use number_map::NumberMap;
use onode_codec::Extent;
use std::alloc::{AllocError, Global};
use std::marker::Model;
use unit_fields::Width;

/// Where each page of an object stands that stands anywhere, seen as a finite map from pages to places. The other pages are holes.
#[derive(Drop)]
pub struct PageMap {
    pages: NumberMap<Place>,
}

impl Model for PageMap {
    ghost use Rattle.std.specs.FinMap as map;
    ghost use Rattle.std.specs.Ordering.{nat_cmp};
    ghost use Rattle.std.specs.Coded.{coded_ℕ};
    ghost use Rattle.row_format.specs.Prelude.{Place};
    ghost use Rattle.blob_map.specs.Pages.{coded_place};

    ghost Value = { map.FinMap nat_cmp Place };

    ghost coded = { map.code coded_ℕ coded_place };

    ghost view = { λ a. a.pages };
}

impl PageMap {
    /// The map of an object that has holes alone. It takes no memory.
    pub fn new(alloc: Global) -> PageMap
        ensures { result ≡ map.empty }
    {
        PageMap {
            pages: NumberMap::new(alloc),
        }
    }

    /// Where a page stands. None: it is a hole.
    pub fn find(&self, page: u32) -> Option<Place>
        ensures { result ≡ map.get self.now page }
    {
        self.pages.get(page).copied()
    }

    /// Puts a page in its place, wherever it stood. Memory can run out only at a page that was a hole.
    pub fn set(&mut self, page: u32, place: Place) -> Result<(), AllocError>
        ensures ok { OnOk result (self.new ≡ map.insert self.old page place) }
        ensures err { OnErr result (self.new ≡ self.old) }
    {
        self.pages.insert(page, place)
    }

    /// Makes room for so many pages more that stand somewhere. The map is as it was, also where memory runs out.
    pub fn reserve(&mut self, more: usize) -> Result<(), AllocError>
        ensures { self.new ≡ self.old }
    {
        self.pages.reserve(more)
    }

    /// Makes a hole of so many pages from the first on, and gives where those stood that weren't holes, ascending. Where memory runs
    /// out the map is as it was.
    pub fn punch(
        &mut self,
        alloc: Global,
        first: u32,
        count: u32,
    ) -> Result<Vec<(u32, Place)>, AllocError>
        requires { first + count < 2 ^ 32 }
        ensures ok { OnOk result (self.new ≡ map.retain_keys self.old (λ k. not (is_key_in first (first + count) k))) }
        ensures was { IfOk result (λ v. v.items ≡ where_key nat_cmp (is_key_in first (first + count)) (map.entries self.old)) }
        ensures err { OnErr result (self.new ≡ self.old) }
    {
        self.pages.cut(alloc, first, first + count)
    }

    /// A copy of the map.
    pub fn copy(&self, alloc: Global) -> Result<PageMap, AllocError>
        ensures { IfOk result (λ copy. copy ≡ self.now) }
    {
        let pages = self.pages.copy(alloc)?;
        Ok(PageMap { pages })
    }

    /// The pages that aren't holes, ascending, and where each stands.
    pub fn pages(&self) -> &[(u32, Place)]
        ensures { result.now ≡ map.entries self.now }
    {
        self.pages.entries()
    }

    /// The extents that say this map: runs as long as they get of consecutive pages on consecutive units, cut at 256 pages. They can
    /// be written with checksums of this width.
    pub fn extents(&self, alloc: Global, width: Width) -> Result<Vec<Extent>, AllocError>
        ensures extents { IfOk result (λ es. es.items ≡ extents_of (map.entries self.now)) }
        ensures fit { IfOk result (λ es. AllByRecursion (FitsExtent width) es.items) }
    {
        extents_of(alloc, width, self.pages.entries())
    }
}
