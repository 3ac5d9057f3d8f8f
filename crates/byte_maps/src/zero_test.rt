//! Whether bytes are all zero, looked at many at a time.
ghost use Rattle.std.specs.Prelude.{◌≡◌, ◌↔◌, All, IsTrue, length};

use std::simd::prelude::*;

// The bytes that are looked at in one step.
const BLOCK: usize = 512;

// The bits that are 1 in one byte or another of 128, each 64th together.
#[inline(always)]
fn lanes_of(part: &[u8]) -> u8x64
    requires { length part.now ≡ 128 }
    ensures { All (λ b. b ≡ 0) result ↔ All (λ b. b ≡ 0) part.now }
{
    u8x64::from_slice(part) | u8x64::from_slice(&part[64..])
}

// The same of 256.
#[inline(always)]
fn lanes_of_both(part: &[u8]) -> u8x64
    requires { length part.now ≡ 256 }
    ensures { All (λ b. b ≡ 0) result ↔ All (λ b. b ≡ 0) part.now }
{
    lanes_of(&part[..128]) | lanes_of(&part[128..])
}

// Whether the bytes of one step are all zero.
#[inline(always)]
fn is_zero_block(block: &[u8; BLOCK]) -> bool
    ensures { IsTrue result ↔ All (λ b. b ≡ 0) block.now }
{
    let lanes = lanes_of_both(&block[..256]) | lanes_of_both(&block[256..]);
    lanes.reduce_or() == 0
}

// Whether each of the bytes is zero, step by step, and those behind the last whole step one by one.
fn is_zero_in_steps(bytes: &[u8]) -> bool
    ensures { IsTrue result ↔ All (λ b. b ≡ 0) bytes.now }
{
    let mut left = bytes;
    while let Some((block, rest)) = left.split_first_chunk::<BLOCK>() {
        if !is_zero_block(block) {
            return false;
        }
        left = rest;
    }
    left.iter().all(|b| *b == 0)
}

/// Whether each of the bytes is zero. It takes a fraction of an instruction a byte, and stops soon after the first byte that isn't. Bytes behind the
/// last whole step are looked at in one step with bytes before them, and not one by one.
pub fn is_zero(bytes: &[u8]) -> bool
    ensures { IsTrue result ↔ All (λ b. b ≡ 0) bytes.now }
{
    let size = bytes.len();
    if size < BLOCK {
        return is_zero_in_steps(bytes);
    }
    is_zero_in_steps(&bytes[size - BLOCK..]) && is_zero_in_steps(&bytes[..size / BLOCK * BLOCK])
}
