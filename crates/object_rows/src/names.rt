//! Names are names: a function for each kind, which does nothing, for proofs alone.
ghost use Rattle.unit_fields.specs.Prelude.{IsName, IsCollName};

use unit_fields::{CollName, Name};

/// The name of a collection is one.
pub fn coll_name_is_one(coll: &CollName)
    ensures { IsCollName coll.now }
{
    let _bytes = coll.as_slice();
}

/// The name of an object is one.
pub fn name_is_one(object: &Name)
    ensures { IsName object.now }
{
    let _bytes = object.as_slice();
}
