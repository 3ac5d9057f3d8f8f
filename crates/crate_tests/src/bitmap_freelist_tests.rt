//! Operations that turn bits, spelled by hand.

use crate::cases::first_false;
use bitmap_freelist::push_flips;
use meta_rows::encode;
use std::alloc::{AllocError, Global};
use unit_fields::UnitSet;

fn spelling(alloc: Global, units: &[u32]) -> Result<Vec<u8>, AllocError> {
    let mut set = UnitSet::new(alloc);
    for unit in units {
        set.insert(*unit)?;
    }
    let mut ops = Vec::new(alloc);
    push_flips(&mut ops, &set)?;
    encode(alloc, &ops)
}

const TURNED: &[u8] =
    b"\x03\x05\x00b\x00\x00\x00\x00\x10\x00\x00\x00\x01\0\0\0\0\0\0\0\0\0\0\0\0\0\0\x80\
    \x03\x05\x00b\x00\x00\x00\x01\x10\x00\x00\x00\x05\0\0\0\0\0\0\0\0\0\0\0\0\0\0\0\
    \x03\x05\x00b\x00\x00\x1f\xff\x10\x00\x00\x00\0\0\0\0\0\0\0\0\0\0\0\0\0\0\0\x80";

fn is_spelled_so(alloc: Global) -> Result<bool, AllocError> {
    let bytes = spelling(alloc, &[1048575, 130, 128, 127, 0])?;
    Ok(bytes.as_slice() == TURNED)
}

/// 0 where they are spelled otherwise.
pub fn first_wrong(alloc: Global) -> Result<Option<usize>, AllocError> {
    Ok(first_false(&[is_spelled_so(alloc)?]))
}
