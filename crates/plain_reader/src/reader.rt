//! Numbers and pieces of bytes, which this reader takes apart by itself. Numbers have their lowest byte first.

/// The bytes that aren't read yet. Where fewer are left than are read, nothing is read, and none are left.
#[derive(Clone, Copy)]
pub struct Reader<'a> {
    left: &'a [u8],
    is_short: bool,
}

impl<'a> Reader<'a> {
    /// All of these bytes.
    pub fn new(bytes: &'a [u8]) -> Reader<'a> {
        Reader {
            left: bytes,
            is_short: false,
        }
    }

    /// Whether none are left.
    pub fn is_empty(&self) -> bool {
        self.left.is_empty()
    }

    /// Whether all are read, and there were as many as were read.
    pub fn is_done(&self) -> bool {
        self.left.is_empty() && !self.is_short
    }

    /// What stands here is nothing that can be read.
    pub fn fail(&mut self) {
        self.left = &[];
        self.is_short = true;
    }

    /// The next bytes, so many.
    pub fn bytes(&mut self, count: usize) -> &'a [u8] {
        match self.left.split_at_checked(count) {
            Some((piece, left)) => {
                self.left = left;
                piece
            }
            None => {
                self.fail();
                &[]
            }
        }
    }

    /// The next number of so many bytes.
    pub fn number(&mut self, width: usize) -> u64 {
        number_of(self.bytes(width))
    }

    /// The next bytes, as many as a number of this width before them says.
    pub fn counted(&mut self, width: usize) -> &'a [u8] {
        let count = self.number(width) as usize;
        self.bytes(count)
    }
}

/// The number that bytes are.
fn number_of(bytes: &[u8]) -> u64 {
    let mut number = 0u64;
    let mut weight = 1u64;
    for byte in bytes {
        number = number.wrapping_add(weight.wrapping_mul(*byte as u64));
        weight = weight.wrapping_mul(256);
    }
    number
}

/// The number of so many bytes at a place; 0 where the bytes end before.
pub fn number_at(bytes: &[u8], at: usize, width: usize) -> u64 {
    number_of(bytes.get(at..at.saturating_add(width)).unwrap_or(&[]))
}

/// Whether there are only zeros from a place on.
pub fn are_zeros(bytes: &[u8], from: usize) -> bool {
    for byte in bytes.get(from..).unwrap_or(&[]) {
        if *byte != 0 {
            return false;
        }
    }
    true
}
