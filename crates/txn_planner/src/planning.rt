//! What a transaction is known to do after some of its operations.
ghost use Rattle.std.specs.Prelude.{◌≡◌, ◌⊎◌, ℕ, List, Option, Some, None, true, false, [], is_some, IfOk, OnOk};
ghost use Rattle.std.specs.Option.{option_map};
ghost use Rattle.std.specs.FinMap as finite;
ghost use Rattle.unit_fields.specs.Prelude.{IsName};
ghost use Rattle.store_image.specs.Prelude.{HasKey};
ghost use Rattle.plan_drafts.specs.Prelude.{Layout, HasLayout, draft_of, HasSome, IsBare, CollDraft};
ghost use Rattle.object_rows.specs.Stores.{AreRowsOfAStore, AreRowsOfWidth};
ghost use Rattle.unit_fields.specs.declared.width.Width.{Width};
ghost use Rattle.txn_planner.specs.Touching.{IsTouched};
ghost use Rattle.txn_planner.specs.Planning.{IsStateOf, first_draft, any_there, HasUntouched, AllTouched};

use crate::touched::{Touched, load};
use byte_maps::{ByteMap, Bytes};
use meta_rows::RowTable;
use object_rows::{has_collection, has_onode, next_name};
use page_edits::PageWrite;
use plan_rows::{PageUnit, SlotNo};
use row_changes::RowChanges;
use std::alloc::{AllocError, Global};
use unit_fields::{CollName, Name, UnitNo, Width};

/// What the operations so far come to. The rows stay as they are.
#[derive(Drop)]
pub struct Planning {
    /// Whether the collection is there.
    pub there: bool,
    /// The objects whose layout an operation has looked at, by name. All others stand as their rows say.
    pub objects: ByteMap<Touched>,
    /// The values that were changed, by the keys of their rows.
    pub values: RowChanges,
    /// The writes of pages, in order.
    pub writes: Vec<PageWrite>,
    /// Where the pages stand whose old bytes these need, in order.
    pub places: Vec<PageUnit>,
    /// The units of objects' own that pages have left on which they stood.
    pub left: Vec<UnitNo>,
    /// The slots of shared blobs that pages have left, one for each page.
    pub unshared: Vec<SlotNo>,
    /// How many units were taken.
    pub taken: u32,
}

impl Planning {
    /// Before the first operation.
    pub fn new(alloc: Global, rows: &RowTable, coll: &CollName) -> Result<Planning, AllocError>
        ensures state { IfOk result (λ p. (width : Width) (layouts : List ℕ → Option Layout) → IsStateOf rows.now.rows coll.now layouts
            (first_draft width rows.now.rows coll.now layouts) p) }
        ensures writes { IfOk result (λ p. p.writes.items ≡ []) }
        ensures places { IfOk result (λ p. p.places.items ≡ []) }
        ensures taken { IfOk result (λ p. p.taken ≡ 0) }
    {
        let there = has_collection(alloc, rows, coll)?;
        Ok(Planning {
            there,
            objects: ByteMap::new(alloc),
            values: RowChanges::new(alloc),
            writes: Vec::new(alloc),
            places: Vec::new(alloc),
            left: Vec::new(alloc),
            unshared: Vec::new(alloc),
            taken: 0,
        })
    }

    /// Whether an object is there. Where no operation has looked at it, only its onode is looked up.
    pub fn has_object(
        &self,
        alloc: Global,
        rows: &RowTable,
        coll: &CollName,
        object: &Name,
    ) -> Result<bool, AllocError>
        ensures { IfOk result (λ there. (width : Width) (layouts : List ℕ → Option Layout) (d : CollDraft)
            → IsStateOf rows.now.rows coll.now layouts d self.now → HasLayout width rows.now.rows coll.now object.now (layouts object.now)
            → there ≡ is_some (d.layout object.now)) }
    {
        match self.objects.get(object.as_slice()) {
            Some(touched) => Ok(touched.now.is_some()),
            None => has_onode(alloc, rows, coll, object),
        }
    }

    /// Takes an object out of those that were looked at, or reads it from its rows.
    pub fn take_object(
        &mut self,
        alloc: Global,
        width: Width,
        rows: &RowTable,
        coll: &CollName,
        object: &Name,
    ) -> Result<Touched, AllocError>
        requires { AreRowsOfWidth width rows.now.rows }
        ensures object { IfOk result (λ t. (layouts : List ℕ → Option Layout) (d : CollDraft) → IsStateOf rows.now.rows coll.now layouts d self.old
            → HasLayout width rows.now.rows coll.now object.now (layouts object.now)
            → IsTouched rows.now.rows coll.now object.now (layouts object.now) (d.layout object.now) t) }
        ensures same { self.new ≡ record self.old { objects = finite.remove self.old.objects object.now } }
    {
        match self.objects.take(object.as_slice()) {
            Some(touched) => Ok(touched),
            None => load(alloc, width, rows, coll, object),
        }
    }

    /// Puts an object back, as it stands now.
    pub fn put_object(
        &mut self,
        alloc: Global,
        object: &Name,
        touched: Touched,
    ) -> Result<(), AllocError>
        ensures { OnOk result (self.new ≡ record self.old { objects = finite.insert self.old.objects object.now touched }) }
    {
        let name = Bytes::from_slice(alloc, object.as_slice())?;
        self.objects.insert(name, touched)
    }

    // Whether one of the objects that were looked at is there.
    fn has_touched(&self) -> bool
        ensures { result ≡ any_there (finite.entries self.now.objects) }
    {
        self.objects
            .entries()
            .iter()
            .any(|entry| entry.1.now.is_some())
    }

    // Whether an object is there that no operation has looked at. The objects are gone through by their names up to the first such one.
    fn has_untouched(
        &self,
        alloc: Global,
        rows: &RowTable,
        coll: &CollName,
    ) -> Result<bool, AllocError>
        requires { AreRowsOfAStore rows.now.rows }
        ensures some { IfOk result (λ some. some ≡ true → HasUntouched rows.now.rows coll.now self.now) }
        ensures none { IfOk result (λ some. some ≡ false → AllTouched rows.now.rows coll.now self.now) }
    {
        let mut last: Option<Name> = None;
        'names: while let Some(name) = next_name(alloc, rows, coll, last.as_ref())? {
            if !self.objects.contains_key(name.as_slice()) {
                return Ok(true);
            }
            last = Some(name);
        }
        Ok(false)
    }

    /// Whether there is an object in the collection.
    pub fn has_objects(
        &self,
        alloc: Global,
        rows: &RowTable,
        coll: &CollName,
    ) -> Result<bool, AllocError>
        requires { AreRowsOfAStore rows.now.rows }
        ensures some { IfOk result (λ some. some ≡ true → (w : Width) (layouts : List ℕ → Option Layout) (d : CollDraft)
            → IsStateOf rows.now.rows coll.now layouts d self.now
            → ((o : List ℕ) → IsName o → HasLayout w rows.now.rows coll.now o (layouts o)) → HasSome d) }
        ensures none { IfOk result (λ some. some ≡ false → (w : Width) (layouts : List ℕ → Option Layout) (d : CollDraft)
            → IsStateOf rows.now.rows coll.now layouts d self.now
            → ((o : List ℕ) → IsName o → HasLayout w rows.now.rows coll.now o (layouts o)) → IsBare d) }
    {
        Ok(self.has_touched() || self.has_untouched(alloc, rows, coll)?)
    }
}
