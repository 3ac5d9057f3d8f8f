//! The checksum itself: many bytes by folding, and what is left by tables, sixteen bytes a step.

ghost use Rattle.std.specs.Prelude.{◌≡◌, ◌∷◌, [], ◌++◌, ◌<◌, ◌+◌, ℕ, List, length, bit_xor};
ghost use Rattle.crc32c_csum.specs.Crc32c.{all_ones, remainder, crc32c};
ghost use Rattle.crc32c_csum.specs.Steps.{after_zeros, by_tables, listed};

use crate::behind::behind_page;
use crate::fold::after_folding;
use crate::tables::AFTER;
use std::marker::Model;

// What a byte leaves of a remainder that was zero, once `zeros` bytes of zeros have come behind it.
#[inline(always)]
fn after(zeros: usize, byte: u8) -> u32
    requires { zeros < 16 }
    ensures { result ≡ after_zeros (zeros + 1) byte }
{
    AFTER[zeros][byte as usize]
}

// The remainder after one more byte.
#[inline(always)]
fn after_one(r: u32, byte: u8) -> u32
    ensures { result ≡ remainder r (byte ∷ []) }
{
    after(0, (r % 256) as u8 ^ byte) ^ r / 256
}

// Eight bytes, one behind the other.
pub(crate) type Eight = (u8, u8, u8, u8, u8, u8, u8, u8);

// What eight bytes leave of a remainder that was zero.
#[inline(always)]
fn from_zero(b: Eight) -> u32
    ensures { result ≡ by_tables (listed b) }
{
    after(7, b.0)
        ^ (after(6, b.1)
            ^ (after(5, b.2)
                ^ (after(4, b.3)
                    ^ (after(3, b.4) ^ (after(2, b.5) ^ (after(1, b.6) ^ after(0, b.7)))))))
}

// The remainder after sixteen more bytes. What needs the remainder comes last, so that the rest is done while it is waited for.
#[inline(always)]
pub(crate) fn after_sixteen(r: u32, a: Eight, b: Eight) -> u32
    ensures { result ≡ remainder r (listed a ++ listed b) }
{
    let behind = after(11, a.4)
        ^ (after(10, a.5) ^ (after(9, a.6) ^ (after(8, a.7) ^ from_zero(b))));
    let r1 = r / 256;
    let r2 = r1 / 256;
    let r3 = r2 / 256;
    after(15, (r % 256) as u8 ^ a.0)
        ^ (after(14, (r1 % 256) as u8 ^ a.1)
            ^ (after(13, (r2 % 256) as u8 ^ a.2) ^ (after(12, r3 as u8 ^ a.3) ^ behind)))
}

// The remainder after all whole steps of sixteen bytes, and the bytes that are left.
fn after_steps(r: u32, bytes: &[u8]) -> (u32, &[u8])
    ensures { remainder result.0 result.1.now ≡ remainder r bytes.now }
{
    let mut r = r;
    let mut left = bytes;
    while let [
        a0,
        a1,
        a2,
        a3,
        a4,
        a5,
        a6,
        a7,
        b0,
        b1,
        b2,
        b3,
        b4,
        b5,
        b6,
        b7,
        rest @ ..,
    ] = left
    {
        r = after_sixteen(
            r,
            (*a0, *a1, *a2, *a3, *a4, *a5, *a6, *a7),
            (*b0, *b1, *b2, *b3, *b4, *b5, *b6, *b7),
        );
        left = rest;
    }
    (r, left)
}

// The remainder after more bytes.
fn after_bytes(r: u32, bytes: &[u8]) -> u32
    ensures { result ≡ remainder r bytes.now }
{
    let (r, left) = after_folding(r, bytes);
    let (mut r, left) = after_steps(r, left);
    for byte in left {
        r = after_one(r, *byte);
    }
    r
}

/// The CRC-32C of the bytes: the polynomial is 1EDC6F41 (82F63B78 with its bits reversed), it begins with all ones,
/// and all bits are turned in the end. For bytes that lie in several places there is `Digest`.
#[tactic(auto, unfolding(crate::specs::Crc32c::crc32c))]
pub fn crc32c(bytes: &[u8]) -> u32
    ensures { result ≡ crc32c bytes.now }
{
    after_bytes(u32::MAX, bytes) ^ u32::MAX
}

/// A checksum in the making, for bytes that come in several parts, as the head of a record and then its body.
/// What it is seen as is the remainder of the bytes so far.
#[derive(Clone, Copy)]
pub struct Digest {
    state: u32,
}

impl Model for Digest {
    ghost use Rattle.std.specs.Prelude.{ℕ};

    ghost Value = { ℕ };

    ghost view = { λ d. d.state };

    ghost inverse = { λ r. record { state = r } };
}

impl Digest {
    /// Of no bytes yet.
    pub fn new() -> Digest
        ensures { result ≡ all_ones }
    {
        Digest { state: u32::MAX }
    }

    /// Takes the next bytes in.
    pub fn update(&mut self, bytes: &[u8])
        ensures { self.new ≡ remainder self.old bytes.now }
    {
        self.state = after_bytes(self.state, bytes);
    }

    /// Takes a page of 4096 bytes in by its checksum alone.
    pub fn update_page(&mut self, sum: u32)
        ensures { (page : List ℕ) → length page ≡ 4096 → sum ≡ crc32c page → self.new ≡ remainder self.old page }
    {
        self.state = behind_page(self.state ^ u32::MAX) ^ (sum ^ u32::MAX);
    }

    /// The CRC-32C of all bytes that were taken in, one part behind the other.
    pub fn finish(self) -> u32
        ensures { result ≡ bit_xor self all_ones }
    {
        self.state ^ u32::MAX
    }
}
