//! A blob of two slots that pages come to and leave, spelled by hand.

use crate::cases::first_false;
use shared_blobs::SharedBlob;
use std::alloc::{AllocError, Global};
use unit_fields::{UnitNo, Width};

// Units 18 and 19, of which two pages name the second one.
const LEFT: &[u8] = b"\x12\0\0\0\x02\0\0\0\0\0\0\0\0\0\x49\x45\x08\x4c\x02\0\0\0";

/// The place of the first of these that comes out otherwise: the first page that leaves slot 0 frees nothing, the second frees unit 18, and the row
/// has the counts 0 and 2 then.
pub fn first_wrong(alloc: Global) -> Result<Option<usize>, AllocError> {
    let mut blob = SharedBlob::share(alloc, UnitNo::new(18), &[0xf2fe_02e9, 0x4c08_4549])?;
    blob.get(0);
    blob.get(1);
    let first = blob.put(0);
    let second = blob.put(0);
    let value = blob.encode(alloc, Width::FourBytes)?;
    let cases = [
        first.is_none(),
        second.map(UnitNo::number) == Some(18),
        value.is_some_and(|value| value.as_slice() == LEFT),
    ];
    Ok(first_false(&cases))
}
