//! Checksums that other programs made.

use crc32c_csum::crc32c;

const RISING: &[u8] =
    b"\x00\x01\x02\x03\x04\x05\x06\x07\x08\x09\x0a\x0b\x0c\x0d\x0e\x0f\x10\x11\x12\x13\x14\x15\x16\x17\x18\x19\x1a\x1b\x1c\x1d\x1e\x1f";

static VECTORS: [(&[u8], u32); 6] = [
    (b"123456789", 0xe306_9283),
    (&[0; 32], 0x8a91_36aa),
    (&[0xff; 32], 0x62a8_ab43),
    (RISING, 0x46dd_794e),
    (&[0; 4096], 0x98f9_4189),
    (&[], 0),
];

/// The place of the first case that comes out otherwise.
pub fn first_wrong() -> Option<usize> {
    for (i, (bytes, want)) in VECTORS.iter().enumerate() {
        if crc32c(bytes) != *want {
            return Some(i);
        }
    }
    None
}
