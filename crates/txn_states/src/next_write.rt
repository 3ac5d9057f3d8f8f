//! The data write that a context submits next.
ghost use Rattle.std.specs.Prelude.{◌≡◌, ◌≤◌, true, is_some, length, IfOk};
ghost use Rattle.store_steps.specs.Prelude.{run_bytes, unsent};
ghost use Rattle.txn_states.specs.Writes.{IsRunOf, IsWrite};

use std::alloc::{AllocError, Global};
use store_steps::{Context, FreshUnit};
use unit_fields::UnitNo;
use unit_fields::limits::{PIECE_UNITS, UNIT_BYTES};

/// A data write that is submitted next.
pub struct NextWrite {
    /// Whose it is, by the place of its entry in the book.
    pub place: u32,
    /// The first of its units, which stand one behind the other.
    pub unit: UnitNo,
    /// How many they are: 1 to 64.
    pub count: u32,
    /// A copy of the context's bytes for them.
    pub bytes: Vec<u8>,
}

// How many of these fresh units one write takes: the first and those that stand right behind it, at most 64.
fn run_length(fresh: &[FreshUnit]) -> usize
    ensures run { IsRunOf fresh.now result }
    ensures few { result ≤ 64 }
    ensures within { result ≤ length fresh.now }
{
    for (i, next) in fresh.iter().enumerate() {
        let wanted = u64::from(fresh[0].unit.number()) + i as u64;
        if i == PIECE_UNITS as usize || u64::from(next.unit.number()) != wanted {
            return i;
        }
    }
    fresh.len()
}

// The bytes of fresh units, one unit's behind the other's.
fn bytes_of(alloc: Global, fresh: &[FreshUnit]) -> Result<Vec<u8>, AllocError>
    requires { length fresh.now ≤ 64 }
    ensures { IfOk result (λ bytes. bytes.items ≡ run_bytes fresh.now) }
{
    let mut bytes = Vec::with_capacity(alloc, fresh.len() * UNIT_BYTES)?;
    for next in fresh {
        bytes.extend_from_slice(next.bytes.as_slice())?;
    }
    Ok(bytes)
}

/// The data write that is submitted next.
pub(crate) fn next_write(alloc: Global, context: &Context) -> Result<NextWrite, AllocError>
    requires { is_some (unsent context.now) ≡ true }
    ensures { IfOk result (IsWrite (unsent context.now)) }
{
    let left = &context.fresh.as_slice()[context.given as usize..];
    let run = &left[..run_length(left)];
    Ok(NextWrite {
        place: context.place,
        unit: run[0].unit,
        count: run.len() as u32,
        bytes: bytes_of(alloc, run)?,
    })
}
