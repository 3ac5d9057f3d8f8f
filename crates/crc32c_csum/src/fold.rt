//! The remainder of many bytes by folding, which needs no instruction made for checksums.
//!
//! The polynomial has a multiple of six terms, y^290 + y^136 + y^113 + y^107 + y^32 + 1 in the powers y of one byte, and
//! a multiple leaves no remainder. So a byte may be taken out if it is put, by exclusive or, on the bytes 154, 177, 183,
//! 258 and 290 places behind it. All these are more than sixteen places off, so sixteen bytes go at once. Only the last
//! 304 bytes, with what was put on them, are left to the tables, and at most fifteen behind them.
//!
//! From 768 bytes on, bytes are summed by folding: a multiple of the polynomial with six terms says on which later bytes a byte may be
//! put, so that only the last 304 to 319 of a message go by tables. Its nearest term is 154 bytes off, so that sixteen bytes go at once
//! and none waits for one just written; a shorter multiple with a term 65 bytes off was slower. What was taken out stands in a buffer of
//! 1554 bytes, whose last 290 move to the front after each 1264.

ghost use Rattle.std.specs.Prelude.{
  ◌≡◌,
  ◌+◌,
  ◌++◌,
  ◌%◌,
  ◌≤◌,
  length,
  take,
  drop,
  replicate,
  bit_xor,
};
ghost use Rattle.std.specs.Simd.Lanes.{zip2};
ghost use Rattle.crc32c_csum.specs.Crc32c.{remainder};
ghost use Rattle.crc32c_csum.specs.Folding.{sixteen, put_on, of_taken};

use crate::crc::after_sixteen;
use std::simd::prelude::*;

// Fewer bytes than these are done sooner by the tables alone.
const FEW: usize = 768;

// The bytes that are taken out before the last 290 of them move to the front again.
const PIECE: usize = 1264;

// The bytes that stay, to be left to the tables.
const STAY: usize = 304;

// So many bytes that were taken out are all that is put on those behind them.
const REACH: usize = 290;

// The bytes that were taken out of a piece, behind the last 290 of those before it. So the piece's place t finds what
// was put on it at t + 136, t + 113, t + 107, t + 32 and t.
const TAKEN: usize = 1554;

// The last 290 bytes that were taken out, with zeros behind them for those that stay.
const LAST: usize = 594;

// Sixteen bytes from a place on.
#[inline(always)]
fn at(bytes: &[u8], place: usize) -> u8x16
    requires { place + 16 ≤ length bytes.now }
    ensures { result ≡ sixteen place bytes.now }
{
    u8x16::from_slice(&bytes[place..])
}

// Sixteen bytes, with what was put on them.
#[inline(always)]
fn with_put_on(bytes: &[u8], taken: &[u8], t: usize) -> u8x16
    requires there { t + 16 ≤ length bytes.now }
    requires room { t + 152 ≤ length taken.now }
    ensures { result ≡ zip2 bit_xor (sixteen t bytes.now) (put_on t taken.now) }
{
    at(bytes, t)
        ^ (at(taken, t + 136)
            ^ (at(taken, t + 113) ^ (at(taken, t + 107) ^ (at(taken, t + 32) ^ at(taken, t)))))
}

// Takes sixteen bytes out.
#[inline(always)]
fn take_out(bytes: &[u8], taken: &mut [u8; TAKEN], t: usize)
    requires there { t + 16 ≤ length bytes.now }
    requires room { t + 16 ≤ PIECE }
    ensures { remainder (of_taken (t + 16) taken.new) (drop (t + 16) bytes.now) ≡ remainder (of_taken t taken.old) (drop t bytes.now) }
{
    let out = with_put_on(bytes, taken, t);
    out.copy_to_slice(&mut taken[t + REACH..t + REACH + 16]);
}

// Takes all bytes of a piece out.
fn take_all_out(piece: &[u8], taken: &mut [u8; TAKEN])
    requires whole { length piece.now % 16 ≡ 0 }
    requires room { length piece.now ≤ PIECE }
    ensures { of_taken (length piece.now) taken.new ≡ remainder (of_taken 0 taken.old) piece.now }
{
    for i in 0..piece.len() / 16 {
        take_out(piece, taken, 16 * i);
    }
}

// The last bytes that were taken out before a place.
#[inline(always)]
fn last_before(taken: &[u8; TAKEN], t: usize) -> [u8; REACH]
    requires { t ≤ PIECE }
    ensures { result ≡ take REACH (drop t taken.now) }
{
    let mut last = [0u8; REACH];
    last.copy_from_slice(&taken[t..t + REACH]);
    last
}

// Lays bytes over the first ones.
#[inline(always)]
fn lay_over_front(bytes: &mut [u8], front: &[u8; REACH])
    requires { REACH ≤ length bytes.old }
    ensures { bytes.new ≡ front.now ++ drop REACH bytes.old }
{
    bytes[..REACH].copy_from_slice(front);
}

// Moves the last bytes that were taken out to the front.
fn move_to_front(taken: &mut [u8; TAKEN], t: usize)
    requires { t ≤ PIECE }
    ensures { of_taken 0 taken.new ≡ of_taken t taken.old }
{
    let last = last_before(taken, t);
    lay_over_front(taken, &last);
}

// The remainder before all bytes, where the first sixteen find it put on them.
#[inline(always)]
fn begun(r: u32) -> [u8; TAKEN]
    ensures { of_taken 0 result ≡ r }
{
    let r1 = r / 256;
    let r2 = r1 / 256;
    let r3 = r2 / 256;
    let mut taken = [0u8; TAKEN];
    taken[0] = (r % 256) as u8;
    taken[1] = (r1 % 256) as u8;
    taken[2] = (r2 % 256) as u8;
    taken[3] = (r3 % 256) as u8;
    taken
}

// Takes pieces out, until no more is left than one and the bytes that stay.
fn take_pieces_out<'a>(bytes: &'a [u8], taken: &mut [u8; TAKEN]) -> &'a [u8]
    requires { STAY ≤ length bytes.now }
    ensures same { remainder (of_taken 0 taken.new) result.now ≡ remainder (of_taken 0 taken.old) bytes.now }
    ensures left { (STAY ≤ length result.now) × (length result.now ≤ PIECE + STAY) }
{
    let mut left = bytes;
    while left.len() > PIECE + STAY {
        let (piece, rest) = left.split_at(PIECE);
        take_all_out(piece, taken);
        move_to_front(taken, PIECE);
        left = rest;
    }
    left
}

// The last bytes that were taken out, with zeros behind them.
#[inline(always)]
fn last_taken(taken: &[u8; TAKEN], t: usize) -> [u8; LAST]
    requires { t ≤ PIECE }
    ensures same { of_taken 0 result ≡ of_taken t taken.now }
    ensures zeros { drop REACH result ≡ replicate STAY 0 }
{
    let mut last = [0u8; LAST];
    lay_over_front(&mut last, &last_before(taken, t));
    last
}

// The remainder after sixteen more of the bytes that stay.
#[inline(always)]
fn after_stay(r: u32, stay: &[u8], last: &[u8; LAST], t: usize) -> u32
    requires room { t + 16 ≤ STAY }
    requires there { t + 16 ≤ length stay.now }
    requires zeros { drop REACH last.now ≡ replicate STAY 0 }
    ensures { remainder (bit_xor (of_taken (t + 16) last.now) result) (drop (t + 16) stay.now) ≡
        remainder (bit_xor (of_taken t last.now) r) (drop t stay.now) }
{
    let [
        a0,
        a1,
        a2,
        a3,
        a4,
        a5,
        a6,
        a7,
        b0,
        b1,
        b2,
        b3,
        b4,
        b5,
        b6,
        b7,
    ] = with_put_on(stay, last, t).to_array();
    after_sixteen(
        r,
        (a0, a1, a2, a3, a4, a5, a6, a7),
        (b0, b1, b2, b3, b4, b5, b6, b7),
    )
}

// The remainder of the bytes that stay, with what was put on them.
fn of_last(stay: &[u8], last: &[u8; LAST]) -> u32
    requires many { length stay.now ≡ STAY }
    requires zeros { drop REACH last.now ≡ replicate STAY 0 }
    ensures { result ≡ remainder (of_taken 0 last.now) stay.now }
{
    let mut r = 0;
    for i in 0..19usize {
        r = after_stay(r, stay, last, 16 * i);
    }
    r
}

// The remainder after all bytes but at most fifteen, and these: the bytes go out but for the last 304, which stay.
fn after_last<'a>(bytes: &'a [u8], taken: &mut [u8; TAKEN]) -> (u32, &'a [u8])
    requires many { STAY ≤ length bytes.now }
    requires room { length bytes.now ≤ PIECE + STAY }
    ensures { remainder result.0 result.1.now ≡ remainder (of_taken 0 taken.old) bytes.now }
{
    let out = (bytes.len() - STAY) / 16 * 16;
    let (piece, rest) = bytes.split_at(out);
    take_all_out(piece, taken);
    let (stay, left) = rest.split_at(STAY);
    (of_last(stay, &last_taken(taken, out)), left)
}

/// The remainder after all bytes but at most fifteen, and these. Few bytes are all left.
pub(crate) fn after_folding(r: u32, bytes: &[u8]) -> (u32, &[u8])
    ensures { remainder result.0 result.1.now ≡ remainder r bytes.now }
{
    if bytes.len() < FEW {
        return (r, bytes);
    }
    let mut taken = begun(r);
    let left = take_pieces_out(bytes, &mut taken);
    after_last(left, &mut taken)
}
