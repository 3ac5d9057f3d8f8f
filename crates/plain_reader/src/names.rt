//! Names of collections and objects.

use case_text::CaseError;
use std::alloc::Global;
use unit_fields::{CollName, Name};

/// A name of an object, an attribute or a key.
pub fn name_of(alloc: Global, bytes: &[u8]) -> Result<Name, CaseError> {
    let name = Name::read(alloc, bytes)?;
    name.ok_or(CaseError::Line("no name"))
}

/// A name of a collection.
pub fn coll_of(alloc: Global, bytes: &[u8]) -> Result<CollName, CaseError> {
    let coll = CollName::read(alloc, bytes)?;
    coll.ok_or(CaseError::Line("no collection's name"))
}
