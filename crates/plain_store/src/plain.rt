//! The reference store: the objects themselves, in memory.
ghost use Rattle.std.specs.Prelude.{◌≡◌, IfOk, OnErr, option_copied};
ghost use Rattle.std.specs.FinMap as finite;
ghost use Rattle.object_model.specs.Prelude.{effects, transaction_effect, object_under, submitted_effect, found_collection, found_object};
ghost use Rattle.plain_store.specs.Gives.{GivesResult, GivesExactly, Applies, Passes};

use crate::applying::effects;
use crate::collection::Collection;
use crate::fault::ArgFault;
use crate::object::PlainObject;
use byte_maps::{ByteMap, Bytes, Duplicate};
use object_model::{Refusal, Transaction};
use std::alloc::{AllocError, Global};
use std::marker::Model;
use unit_fields::{CollName, Name};

/// Objects by name in collections by name.
#[derive(Drop)]
pub struct Plain {
    colls: ByteMap<Collection>,
}

impl Model for Plain {
    ghost use Rattle.std.specs.FinMap as map;
    ghost use Rattle.std.specs.Coded.{coded_ℕ, coded_list};
    ghost use Rattle.object_model.specs.Prelude.{Objects, coded_object};

    ghost Value = { Objects };

    ghost coded = { map.code (coded_list coded_ℕ) (map.code (coded_list coded_ℕ) coded_object) };

    ghost view = { λ a. a.colls };
}

fn copy_of(
    alloc: Global,
    colls: &ByteMap<Collection>,
    name: &CollName,
) -> Result<Option<Collection>, AllocError>
    ensures { IfOk result (λ c. c ≡ finite.get colls.now name.now) }
{
    match colls.get(name.as_slice()) {
        None => Ok(None),
        Some(c) => c.duplicate(alloc).map(Some),
    }
}

impl Plain {
    /// A store without collections.
    pub fn new(alloc: Global) -> Plain
        ensures { result ≡ finite.empty }
    {
        Plain {
            colls: ByteMap::new(alloc),
        }
    }

    /// What stands under two names.
    pub fn find(&self, coll: &CollName, name: &Name) -> Option<&PlainObject>
        ensures { option_copied result ≡ object_under self.now coll.now name.now }
    {
        self.colls.get(coll.as_slice())?.get(name.as_slice())
    }

    /// The collection under a name.
    pub fn collection(&self, coll: &CollName) -> Result<&Collection, Refusal>
        ensures { GivesExactly (λ c. c.now) result (found_collection self.now coll.now) }
    {
        match self.colls.get(coll.as_slice()) {
            Some(c) => Ok(c),
            None => Err(Refusal::NoCollection),
        }
    }

    /// The object under two names.
    pub fn object(&self, coll: &CollName, name: &Name) -> Result<&PlainObject, Refusal>
        ensures { GivesExactly (λ o. o.now) result (found_object self.now coll.now name.now) }
    {
        let Some(c) = self.colls.get(coll.as_slice()) else {
            return Err(Refusal::NoCollection);
        };
        match c.get(name.as_slice()) {
            Some(object) => Ok(object),
            None => Err(Refusal::NoObject),
        }
    }

    // What a transaction makes of its collection.
    fn collection_after(
        &self,
        alloc: Global,
        change: &Transaction,
    ) -> Result<Option<Collection>, ArgFault>
        ensures { GivesResult result (effects change.now.ops (finite.get self.now change.now.coll)) }
    {
        let start = copy_of(alloc, &self.colls, change.coll())?;
        effects(alloc, change.ops(), start)
    }

    /// Applies a transaction whole, or leaves the objects as they are. It doesn't ask whether it is too large.
    pub fn apply(&mut self, alloc: Global, change: &Transaction) -> Result<(), ArgFault>
        ensures applied { Applies result (transaction_effect change.now self.old) self.new }
        ensures unchanged { OnErr result (self.new ≡ self.old) }
    {
        let name = Bytes::from_slice(alloc, change.coll().as_slice())?;
        match self.collection_after(alloc, change)? {
            None => {
                drop(self.colls.take(name.as_slice()));
                Ok(())
            }
            Some(c) => self.colls.insert(name, c).map_err(ArgFault::from),
        }
    }

    /// Whether the store would accept a transaction: whether it is too large, and then the first refusal of its operations.
    pub fn check(&self, alloc: Global, change: &Transaction) -> Result<(), ArgFault>
        ensures { Passes result (submitted_effect change.now self.now) }
    {
        if change.is_too_large() {
            return Err(ArgFault::Refused(Refusal::TooBig));
        }
        let _after = self.collection_after(alloc, change)?;
        Ok(())
    }
}
