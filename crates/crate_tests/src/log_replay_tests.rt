//! Runs of units that aren't zero, of a half of the log that is read in pieces of 64 units.

use crate::cases::first_false;
use block_device::{Device, MemoryDevice};
use log_replay::stale_runs;
use meta_log::UnitRun;
use std::alloc::{AllocError, Global};

const BYTES: usize = 4096 * 140;

// These units hold a byte that isn't zero: one before the half, which begins at unit 3, its first one, two in a row, three in a row, the first of
// which is the last one of a piece, the half's last one, and one behind it.
static STALE: [u16; 9] = [2, 3, 5, 6, 66, 67, 68, 132, 133];

static RUNS: [UnitRun; 4] = [
    UnitRun { first: 0, count: 1 },
    UnitRun { first: 2, count: 2 },
    UnitRun {
        first: 63,
        count: 3,
    },
    UnitRun {
        first: 129,
        count: 1,
    },
];

fn contents(alloc: Global) -> Result<Vec<u8>, AllocError> {
    let mut bytes = vec![in alloc; 0u8; BYTES]?;
    for unit in &STALE {
        if let Some(byte) = bytes.get_mut(4096 * usize::from(*unit) + 4095) {
            *byte = 1;
        }
    }
    Ok(bytes)
}

// The runs that are found, or None where no device was made or it gave no bytes.
fn found(alloc: Global) -> Result<Option<Vec<UnitRun>>, AllocError> {
    let bytes = contents(alloc)?;
    if bytes.len() != BYTES {
        return Ok(None);
    }
    let mut device = MemoryDevice::new(alloc, bytes, Vec::new(alloc), Vec::new(alloc))?;
    if device.in_flight() > 0 || device.units() < 133 {
        return Ok(None);
    }
    Ok(stale_runs(alloc, &mut device, 3, 130).ok())
}

/// 0 where others are found.
pub fn first_wrong(alloc: Global) -> Result<Option<usize>, AllocError> {
    let is_found = match found(alloc)? {
        Some(runs) => runs.as_slice() == RUNS.as_slice(),
        None => false,
    };
    Ok(first_false(&[is_found]))
}
