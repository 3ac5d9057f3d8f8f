//! How many pages name each slot of each shared blob.
ghost use Rattle.std.specs.Prelude.{◌≡◌, ◌+◌, ◌≤◌, ◌<◌, ◌++◌, ◌∷◌, [], Some, IfOk, OnOk, length, replicate, slice_index_or};
ghost use Rattle.std.specs.FinMap as map;
ghost use Rattle.std.specs.List.{AllByRecursion};
ghost use Rattle.row_check.specs.Tallies.{no_tally, new_tally, tally_one_more, tally_raised, raised_place, body_tallied, extents_tallied, HasPlaces};

use byte_maps::{ByteMap, Bytes, Items};
use onode_codec::{Body, Extent, shared_key};
use row_reading::Slot;
use std::alloc::{AllocError, Global};
use std::marker::Model;
use unit_fields::UnitNo;

/// A shared blob, and how many pages name each of its slots.
#[derive(Drop)]
pub struct Tally {
    sbid: u64,
    first: UnitNo,
    slots: Items<Slot>,
    named: Vec<u64>,
}

impl Model for Tally {
    ghost use Rattle.row_check.specs.Tallies.{Tally, coded_tally};

    ghost Value = { Tally };

    ghost coded = { coded_tally };

    ghost view = { λ a. record { sbid = a.sbid; first = a.first; slots = a.slots; named = a.named.items } };
}

// One more. Where the number is too great, which no memory has rows for, it is as if memory ran out.
fn one_named_more(count: u64) -> Result<u64, AllocError>
    ensures { IfOk result (λ more. more ≡ count + 1) }
{
    match count.checked_add(1) {
        Some(more) => Ok(more),
        None => Err(AllocError),
    }
}

fn zeros(alloc: Global, count: usize) -> Result<Vec<u64>, AllocError>
    ensures { IfOk result (λ v. v.items ≡ replicate count 0) }
{
    vec![in alloc; 0; count]
}

impl Tally {
    /// A blob with these slots from this unit on, which no page names yet.
    pub fn new(alloc: Global, sbid: u64, first: UnitNo, slots: &[Slot]) -> Result<Tally, AllocError>
        ensures { IfOk result (λ t. t ≡ new_tally sbid first slots.now) }
    {
        let named = zeros(alloc, slots.len())?;
        let slots = Items::from_slice(alloc, slots)?;
        Ok(Tally {
            sbid,
            first,
            slots,
            named,
        })
    }

    // One page more names the slot.
    fn name_one(&mut self, slot: usize) -> Result<(), AllocError>
        requires { slot < length self.old.named }
        ensures { OnOk result (self.new ≡ tally_one_more self.old slot) }
    {
        self.named[slot] = one_named_more(self.named[slot])?;
        Ok(())
    }

    // One page more names each of so many slots from this one on.
    fn name(&mut self, first: usize, count: usize) -> Result<(), AllocError>
        requires { first + count ≤ length self.old.named }
        ensures { OnOk result (self.new ≡ tally_raised self.old first count) }
    {
        // There is a number for each of the slots, so that their places fit.
        let _named = &self.named;
        for i in 0..count {
            self.name_one(first + i)?;
        }
        Ok(())
    }
}

/// The shared blobs of a store, and how many pages name each of their slots.
#[derive(Drop)]
pub struct Tallies {
    // Where each blob stands in the list, under the key of its row.
    places: ByteMap<usize>,
    list: Vec<Tally>,
}

impl Model for Tallies {
    ghost use Rattle.row_check.specs.Tallies.{Tallies, coded_tallies};

    ghost Value = { Tallies };

    ghost coded = { coded_tallies };

    ghost view = { λ a. record { places = a.places; list = a.list.items } };
}

impl Tallies {
    /// No blobs.
    pub fn new(alloc: Global) -> Tallies
        ensures { result ≡ record { places = map.empty; list = [] } }
    {
        Tallies {
            places: ByteMap::new(alloc),
            list: Vec::new(alloc),
        }
    }

    /// A blob more, with this key.
    pub fn push(&mut self, key: Bytes, tally: Tally) -> Result<(), AllocError>
        ensures { OnOk result (self.new ≡ record {
          places = map.insert self.old.places key (length self.old.list);
          list = self.old.list ++ tally ∷ [];
        }) }
    {
        let at = self.list.len();
        self.list.push(tally)?;
        self.places.insert(key, at)
    }

    /// The blobs.
    pub fn list(&self) -> &[Tally]
        ensures { result.now ≡ self.now.list }
    {
        &self.list
    }

    // One page more names each of so many slots of the blob at this place.
    fn name_at(&mut self, at: usize, first: usize, count: usize) -> Result<(), AllocError>
        requires within { at < length self.old.list }
        requires slots { first + count ≤ length (slice_index_or self.old.list at no_tally).named }
        ensures { OnOk result (self.new ≡ raised_place self.old (Some at) first count) }
    {
        self.list[at].name(first, count)
    }

    // The pages of an extent name the slots on which they stand.
    fn name(&mut self, alloc: Global, extent: &Extent) -> Result<(), AllocError>
        requires { HasPlaces self.old extent.now.body }
        ensures { OnOk result (self.new ≡ body_tallied self.old extent.now.body) }
    {
        let Body::Shared { sbid, first, count } = &extent.body else {
            return Ok(());
        };
        let key = shared_key(alloc, *sbid)?;
        let Some(at) = self.places.get(key.as_slice()) else {
            return Ok(());
        };
        let at = *at;
        self.name_at(at, usize::from(*first), usize::from(*count))
    }

    /// The pages of all these extents do.
    pub fn name_all(&mut self, alloc: Global, extents: &[Extent]) -> Result<(), AllocError>
        requires { AllByRecursion (λ e. HasPlaces self.old e.body) extents.now }
        ensures { OnOk result (self.new ≡ extents_tallied self.old extents.now) }
    {
        for extent in extents {
            self.name(alloc, extent)?;
        }
        Ok(())
    }
}

impl Tally {
    /// The blob's number.
    pub fn sbid(&self) -> u64
        ensures { result ≡ self.now.sbid }
    {
        self.sbid
    }

    /// Its first unit.
    pub fn first(&self) -> UnitNo
        ensures { result ≡ self.now.first }
    {
        self.first
    }

    /// Its slots.
    pub fn slots(&self) -> &[Slot]
        ensures { result.now ≡ self.now.slots }
    {
        self.slots.as_slice()
    }

    /// How many pages name each of them.
    pub fn named(&self) -> &[u64]
        ensures { result.now ≡ self.now.named }
    {
        &self.named
    }
}
