//! How wide the checksums of pages are in the rows.
ghost use Rattle.std.specs.Prelude.{◌≡◌, ◌≤◌, ◌*◌};
ghost use Rattle.unit_fields.specs.Widths.{bytes_of};

/// How wide the checksum of a page is where its extent keeps it. No row tells it.
#[derive(Clone, Copy)]
pub enum Width {
    /// Four bytes: all of a CRC-32C.
    FourBytes,
}

impl Width {
    /// The bytes of so many checksums.
    pub fn bytes_of(self, count: usize) -> usize
        requires { count ≤ 65536 }
        ensures bytes { result ≡ bytes_of self count }
        ensures most { result ≤ 4 * count }
    {
        match self {
            Width::FourBytes => 4 * count,
        }
    }
}
