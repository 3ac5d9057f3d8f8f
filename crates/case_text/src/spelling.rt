//! Bytes that are spelled in memory, a part after another.

use crate::CaseError;
use std::alloc::Global;

/// The most bytes of one value that are added at a time.
const MOST: u64 = 1 << 30;

/// Bytes that are spelled into memory. Where a part of them can't be spelled, or memory runs out for it, that part is missing, which
/// `finish` tells.
#[derive(Drop)]
pub struct Spelling {
    bytes: Vec<u8>,
    wrong: Option<CaseError>,
}

impl Spelling {
    /// Nothing is spelled yet.
    pub fn new(alloc: Global) -> Spelling {
        Spelling {
            bytes: Vec::new(alloc),
            wrong: None,
        }
    }

    /// What is spelled so far.
    pub fn as_slice(&self) -> &[u8] {
        self.bytes.as_slice()
    }

    /// A part can't be spelled.
    pub fn fail(&mut self, why: CaseError) {
        self.wrong = Some(why);
    }

    /// What was read; or this where it couldn't be, so that the part that it stands in can't be spelled.
    pub fn read_or<T: Copy>(&mut self, read: Result<T, CaseError>, none: T) -> T {
        match read {
            Ok(value) => value,
            Err(wrong) => {
                self.fail(wrong);
                none
            }
        }
    }

    /// Adds bytes.
    pub fn push(&mut self, bytes: &[u8]) {
        if self.bytes.extend_from_slice(bytes).is_err() {
            self.fail(CaseError::OutOfMemory);
        }
    }

    /// Adds a number by its first so many bytes, the lowest one first.
    pub fn number(&mut self, number: u64, width: usize) {
        let bytes = number.to_le_bytes();
        self.push(&bytes[..width.min(8)]);
    }

    /// Cuts what is spelled at so many bytes, or fills it up to them with bytes of one value. Memory doesn't suffice for 2^30.
    pub fn resize(&mut self, count: u64, value: u8) {
        if MOST < count || self.bytes.resize(count as usize, value).is_err() {
            self.fail(CaseError::OutOfMemory);
        }
    }

    /// Fills up with zeros to whole units, but for so many bytes.
    pub fn fill_up(&mut self, but: u64) {
        let units = (self.bytes.len() as u64).div_ceil(4096);
        self.resize(units.saturating_mul(4096).saturating_sub(but), 0);
    }

    /// Adds what is spelled elsewhere.
    pub fn append(&mut self, other: &Spelling) {
        self.push(&other.bytes);
        if let Some(wrong) = other.wrong {
            self.fail(wrong);
        }
    }

    /// All that was spelled.
    pub fn finish(self) -> Result<Vec<u8>, CaseError> {
        match self.wrong {
            None => Ok(self.bytes),
            Some(wrong) => Err(wrong),
        }
    }
}
