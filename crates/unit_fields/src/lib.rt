//! The words of the store's outside: units by number and sets of them, names, the limits, the width of
//! checksums, and the fields that values and keys are made of.
//!
//! Proved: a field read is the number of its bytes and leaves the rest; `read` of a name is None exactly where the bytes are none.
#![tactic(auto)]

mod coll_name;
mod fields;
pub mod limits;
mod name;
mod unit;
mod unit_set;
mod width;
mod writing;

pub use coll_name::CollName;
pub use fields::Fields;
pub use name::Name;
pub use unit::UnitNo;
pub use unit_set::UnitSet;
pub use width::Width;
pub use writing::{push_u16_le, push_u32_le, push_u64_le};
