//! Names of collections.

use std::alloc::{AllocError, Global};
use unit_fields::CollName;

static NAMES: [(&str, bool); 13] = [
    ("1.0_head", true),
    ("0.ffffffff_head", true),
    ("18446744073709551615.1f_head", true),
    ("18446744073709551616.1f_head", false),
    ("1.100000000_head", false),
    ("01.0_head", false),
    ("1.00_head", false),
    ("1.1F_head", false),
    ("+1.0_head", false),
    ("1.0_headx", false),
    ("1._head", false),
    ("1.0", false),
    ("meta", false),
];

/// The place of the first case that comes out otherwise.
pub fn first_wrong(alloc: Global) -> Result<Option<usize>, AllocError> {
    for (i, (text, is_name)) in NAMES.iter().enumerate() {
        if CollName::read(alloc, text.as_bytes())?.is_some() != *is_name {
            return Ok(Some(i));
        }
    }
    Ok(None)
}
