//! Bytes under names.

use crate::CaseError;
use std::alloc::Global;

/// Bytes under a name.
#[derive(Drop)]
pub struct Named {
    pub name: String,
    pub bytes: Vec<u8>,
}

/// The bytes under a name, if there are any.
pub fn bytes_of<'a>(all: &'a [Named], name: &str) -> Option<&'a [u8]> {
    for named in all {
        if named.name.as_str() == name {
            return Some(named.bytes.as_slice());
        }
    }
    None
}

/// Puts bytes under a name, in place of what stood there.
pub fn put(
    alloc: Global,
    all: &mut Vec<Named>,
    name: &str,
    bytes: Vec<u8>,
) -> Result<(), CaseError> {
    all.retain(|named| named.name.as_str() != name);
    match String::from_str(alloc, name) {
        Ok(name) => all.push(Named { name, bytes }).map_err(CaseError::from),
        Err(_) => Err(CaseError::OutOfMemory),
    }
}
