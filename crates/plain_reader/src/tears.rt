//! Ways in which a crash tears what is dirty, by name.

use block_device::Tear;
use case_text::{CaseError, look_up};

/// All of them.
pub const TEARS: [Tear; 5] = [Tear::Old, Tear::New, Tear::First, Tear::Odd, Tear::Noise];

/// Their names.
static TEAR_NAMES: [(&str, Tear); 5] = [
    ("Old", Tear::Old),
    ("New", Tear::New),
    ("First", Tear::First),
    ("Odd", Tear::Odd),
    ("Noise", Tear::Noise),
];

/// The tear of this name.
pub fn tear_of(word: &str) -> Result<Tear, CaseError> {
    look_up(&TEAR_NAMES, word).ok_or(CaseError::Line("no tear"))
}
