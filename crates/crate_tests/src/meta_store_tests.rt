//! What is said where the log is full. What becomes of records and rows are cases of the program `store_cases`.

use crate::cases::first_false;
use meta_store::MetaFull;
use std::alloc::{AllocError, Global};

/// 0 where another text comes.
pub fn first_wrong(alloc: Global) -> Result<Option<usize>, AllocError> {
    let full = MetaFull { need: 9, room: 8 };
    let text = format!(in alloc; "{full}")?;
    let wanted = "9 units of the log are needed, and 8 are free";
    Ok(first_false(&[text.as_str() == wanted]))
}
