//! Fields at the front of bytes, read one after another.
ghost use Rattle.std.specs.Prelude.{◌≡◌, ◌↔◌, ◌∷◌, [], IsTrue, MatchOption};
ghost use Rattle.std.specs.Int.{w16, w32, w64, from_le_bytes, to_le_bytes, from_be_bytes, to_be_bytes};
ghost use Rattle.unit_fields.specs.Fields.{IsTooShort, ReadsNumber, ReadsBytes};

use std::marker::Model;

/// What is left of bytes that are read from the front, seen as the list of the bytes left.
///
/// Values, records and slots have little-endian numbers. Keys have big-endian ones, so that the order of keys is that of the numbers.
#[derive(Drop)]
pub struct Fields<'a> {
    left: &'a [u8],
}

impl<'a> Model for Fields<'a> {
    ghost use Rattle.std.specs.Prelude.{List, ℕ};

    ghost Value = { List ℕ };

    ghost view = { λ a. a.left.now };
}

// Numbers and their bytes, both ways.
fn u16_from_le(bytes: [u8; 2]) -> u16
    ensures value { result ≡ from_le_bytes w16 bytes }
    ensures spelled { to_le_bytes w16 result ≡ bytes }
{
    u16::from_le_bytes(bytes)
}

fn u32_from_le(bytes: [u8; 4]) -> u32
    ensures value { result ≡ from_le_bytes w32 bytes }
    ensures spelled { to_le_bytes w32 result ≡ bytes }
{
    u32::from_le_bytes(bytes)
}

fn u64_from_le(bytes: [u8; 8]) -> u64
    ensures value { result ≡ from_le_bytes w64 bytes }
    ensures spelled { to_le_bytes w64 result ≡ bytes }
{
    u64::from_le_bytes(bytes)
}

fn u32_from_be(bytes: [u8; 4]) -> u32
    ensures value { result ≡ from_be_bytes w32 bytes }
    ensures spelled { to_be_bytes w32 result ≡ bytes }
{
    u32::from_be_bytes(bytes)
}

fn u64_from_be(bytes: [u8; 8]) -> u64
    ensures value { result ≡ from_be_bytes w64 bytes }
    ensures spelled { to_be_bytes w64 result ≡ bytes }
{
    u64::from_be_bytes(bytes)
}

impl<'a> Fields<'a> {
    /// All of these bytes, none of them read.
    pub fn new(bytes: &'a [u8]) -> Fields<'a>
        ensures { result ≡ bytes.now }
    {
        Fields { left: bytes }
    }

    /// The bytes that are left.
    pub fn rest(&self) -> &'a [u8]
        ensures { result.now ≡ self.now }
    {
        self.left
    }

    /// Whether all was read.
    pub fn is_empty(&self) -> bool
        ensures { IsTrue result ↔ (self.now ≡ []) }
    {
        self.left.is_empty()
    }

    /// One byte.
    pub fn u8(&mut self) -> Option<u8>
        ensures { MatchOption result (IsTooShort 1 self.old self.new) (λ byte. self.old ≡ byte ∷ self.new) }
    {
        let (byte, rest) = self.left.split_first()?;
        self.left = rest;
        Some(*byte)
    }

    /// A little-endian number of two bytes.
    pub fn u16(&mut self) -> Option<u16>
        ensures { MatchOption result (IsTooShort 2 self.old self.new) (ReadsNumber (from_le_bytes w16) (to_le_bytes w16) self.old self.new) }
    {
        let (front, rest) = self.left.split_first_chunk::<2>()?;
        self.left = rest;
        Some(u16_from_le(*front))
    }

    /// A little-endian number of four bytes.
    pub fn u32(&mut self) -> Option<u32>
        ensures { MatchOption result (IsTooShort 4 self.old self.new) (ReadsNumber (from_le_bytes w32) (to_le_bytes w32) self.old self.new) }
    {
        let (front, rest) = self.left.split_first_chunk::<4>()?;
        self.left = rest;
        Some(u32_from_le(*front))
    }

    /// A little-endian number of eight bytes.
    pub fn u64(&mut self) -> Option<u64>
        ensures { MatchOption result (IsTooShort 8 self.old self.new) (ReadsNumber (from_le_bytes w64) (to_le_bytes w64) self.old self.new) }
    {
        let (front, rest) = self.left.split_first_chunk::<8>()?;
        self.left = rest;
        Some(u64_from_le(*front))
    }

    /// A big-endian number of four bytes, as in a key.
    pub fn u32_be(&mut self) -> Option<u32>
        ensures { MatchOption result (IsTooShort 4 self.old self.new) (ReadsNumber (from_be_bytes w32) (to_be_bytes w32) self.old self.new) }
    {
        let (front, rest) = self.left.split_first_chunk::<4>()?;
        self.left = rest;
        Some(u32_from_be(*front))
    }

    /// A big-endian number of eight bytes, as in a key.
    pub fn u64_be(&mut self) -> Option<u64>
        ensures { MatchOption result (IsTooShort 8 self.old self.new) (ReadsNumber (from_be_bytes w64) (to_be_bytes w64) self.old self.new) }
    {
        let (front, rest) = self.left.split_first_chunk::<8>()?;
        self.left = rest;
        Some(u64_from_be(*front))
    }

    /// So many bytes as they stand, lent.
    pub fn bytes(&mut self, count: usize) -> Option<&'a [u8]>
        ensures { MatchOption result (IsTooShort count self.old self.new) (λ piece. ReadsBytes count self.old self.new piece.now) }
    {
        let (front, rest) = self.left.split_at_checked(count)?;
        self.left = rest;
        Some(front)
    }
}
