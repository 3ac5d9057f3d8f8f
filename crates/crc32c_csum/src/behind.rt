//! A remainder behind a page of zeros, so that a page can be taken in by its checksum alone.

ghost use Rattle.std.specs.Prelude.{◌≡◌};
ghost use Rattle.crc32c_csum.specs.Steps.{after_zeros};

/// What each bit of a remainder is once 4096 bytes of zeros have come behind it, from the lowest on.
pub static BEHIND_PAGE: [u32; 32] = [
    0xc2a5b65e, 0x80a71a4d, 0x04a2426b, 0x094484d6, 0x128909ac, 0x25121358, 0x4a2426b0, 0x94484d60,
    0x2d7cec31, 0x5af9d862, 0xb5f3b0c4, 0x6e0b1779, 0xdc162ef2, 0xbdc02b15, 0x7e6c20db, 0xfcd841b6,
    0xfc5cf59d, 0xfd559dcb, 0xff474d67, 0xfb62ec3f, 0xf329ae8f, 0xe3bf2bef, 0xc292212f, 0x80c834af,
    0x047c1faf, 0x08f83f5e, 0x11f07ebc, 0x23e0fd78, 0x47c1faf0, 0x8f83f5e0, 0x1aeb9d31, 0x35d73a62,
];

/// The remainder after 4096 bytes of zeros.
pub(crate) fn behind_page(r: u32) -> u32
    ensures { result ≡ after_zeros 4096 r }
{
    let mut all = 0;
    let mut left = r;
    for i in 0..32usize {
        if left % 2 == 1 {
            all ^= BEHIND_PAGE[i];
        }
        left /= 2;
    }
    all
}
