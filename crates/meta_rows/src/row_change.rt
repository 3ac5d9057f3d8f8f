//! What an operation makes of one row.
ghost use Rattle.std.specs.Prelude.{◌≡◌, ◌↔◌, ◌≤◌, ◌<◌, [], length, get_or, slice_set, bit_xor, unwrap_or, if◌then◌else◌, All, IsTrue};
ghost use Rattle.meta_rows.specs.Rows.{xor_bytes, all_zero, key_of};
ghost use Rattle.meta_rows.specs.Table.{value_left};

use crate::row_op::RowOp;
use byte_maps::Bytes;

// Whether no byte is other than zero.
fn is_all_zero(bytes: &[u8]) -> bool
    ensures { IsTrue result ↔ All (λ byte. byte ≡ 0) bytes.now }
{
    bytes.iter().all(|byte| *byte == 0)
}

// A byte takes the exclusive-or with one of a mask. Most bytes of a mask are zero, and leave it.
fn flip_byte(bytes: &mut Bytes, at: usize, mask: u8)
    requires { at < length bytes.old }
    ensures { bytes.new ≡ slice_set bytes.old at (bit_xor (get_or bytes.old at 0) mask) }
{
    if mask != 0 {
        let byte = bytes.as_slice()[at];
        bytes.set(at, byte ^ mask);
    }
}

// The longer buffer takes the exclusive-or.
fn xored_into(long: Bytes, short: &Bytes) -> Bytes
    requires { length short.now ≤ length long }
    ensures { result ≡ xor_bytes long short.now }
{
    let mut bytes = long;
    for (i, byte) in short.as_slice().iter().enumerate() {
        flip_byte(&mut bytes, i, *byte);
    }
    bytes
}

fn xored(value: Bytes, mask: Bytes) -> Bytes
    ensures { result ≡ xor_bytes value mask }
{
    if value.len() < mask.len() {
        xored_into(mask, &value)
    } else {
        xored_into(value, &mask)
    }
}

// The row's value under a mask, in the longer of the two buffers.
fn flipped(held: Option<Bytes>, mask: Bytes) -> Bytes
    ensures { result ≡ xor_bytes (unwrap_or held []) mask }
{
    match held {
        Some(value) => xored(value, mask),
        None => mask,
    }
}

// No value where no byte other than zero is left.
fn some_byte(value: Bytes) -> Option<Bytes>
    ensures { result ≡ (if all_zero value then None else Some value) }
{
    if is_all_zero(value.as_slice()) {
        None
    } else {
        Some(value)
    }
}

/// The key of an operation, and the value that it leaves of what was held there. It takes no memory: a set row keeps the buffer
/// of its operation, and a flipped one the longer of its value and its mask.
pub fn left_by(held: Option<Bytes>, op: RowOp) -> (Bytes, Option<Bytes>)
    ensures key { result.0 ≡ key_of op }
    ensures value { result.1 ≡ value_left held op }
{
    match op {
        RowOp::Set { key, value } => (key, Some(value)),
        RowOp::Drop { key } => (key, None),
        RowOp::Flip { key, mask } => (key, some_byte(flipped(held, mask))),
    }
}
