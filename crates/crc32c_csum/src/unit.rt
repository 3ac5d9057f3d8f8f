//! A unit of 4096 bytes with its checksum.

ghost use Rattle.std.specs.Prelude.{◌≡◌, length};
ghost use Rattle.crc32c_csum.specs.Crc32c.{crc32c};

use crate::crc::crc32c;
use std::marker::Model;

/// A unit of the device, or what is to become one, with the CRC-32C of just these 4096 bytes: the sum is made once,
/// where the bytes come in, and the two stay together. Clauses see the bytes.
#[derive(Drop)]
pub struct CheckedUnit {
    bytes: Vec<u8>,
    sum: u32,
}

impl Model for CheckedUnit {
    ghost use Rattle.std.specs.Prelude.{List, ℕ, ◌≡◌, length};
    ghost use Rattle.crc32c_csum.specs.Crc32c.{crc32c};

    ghost Value = { List ℕ };

    ghost view = { λ u. u.bytes.items };

    ghost invariant = { λ u. (length u.bytes.items ≡ 4096) × (u.sum ≡ crc32c u.bytes.items) };
}

impl CheckedUnit {
    /// The unit of these bytes.
    pub fn make(bytes: Vec<u8>) -> CheckedUnit
        requires { length bytes.items ≡ 4096 }
        ensures { result ≡ bytes.items }
    {
        let sum = crc32c(&bytes);
        CheckedUnit { bytes, sum }
    }

    /// The checksum, which was made with the unit.
    pub fn sum(&self) -> u32
        ensures { result ≡ crc32c self.now }
    {
        self.sum
    }

    /// The 4096 bytes.
    pub fn bytes(&self) -> &[u8]
        ensures same { result.now ≡ self.now }
        ensures whole { length result.now ≡ 4096 }
    {
        &self.bytes
    }

    /// Gives the 4096 bytes back, without the sum.
    pub fn into_bytes(self) -> Vec<u8>
        ensures same { result.items ≡ self }
        ensures whole { length result.items ≡ 4096 }
    {
        let CheckedUnit { bytes, sum: _ } = self;
        bytes
    }
}
