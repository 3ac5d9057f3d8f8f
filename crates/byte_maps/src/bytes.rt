//! Byte strings, and what it is to be copied where memory may run out.
//!
//! A byte string takes 32 bytes, and keeps up to 30 bytes in the value itself, as most keys, row values and names are as short: an
//! opening takes 2.7 blocks of memory for an object where it took 14. It is an enum of our own in a struct, so that a row has 64 bytes
//! where an array beside a vector made 112. Each crate that drops one proves that once, as a function of its own, which the others call,
//! so that the two forms aren't cases of their proofs. In 32 bytes the kit's `smallvec` keeps 16 in the value itself, and with 30 it
//! takes 48.
ghost use Rattle.std.specs.Prelude.{◌≡◌, ◌↔◌, ◌≤◌, ◌<◌, ◌++◌, ◌∷◌, ℕ, List, [], length, take, slice_set, IsTrue, IfOk, OnOk, OnErr};
ghost use Rattle.byte_maps.specs.Held.{bytes_of_held, Fits};

use std::alloc::{AllocError, Global};
use std::marker::Model;

// The most bytes that lie in the value itself, which has 32 bytes then. Most keys of rows, their values and names are as short.
const SHORT: usize = 30;

// Where the bytes lie.
#[derive(Debug, Drop)]
enum Held {
    // The first ones of the array.
    Few {
        alloc: Global,
        count: u8,
        few: [u8; SHORT],
    },
    // In a buffer.
    Many(Vec<u8>),
}

/// A byte string, seen as the list of its bytes. It takes 32 bytes. Up to 30 of its bytes lie there, so that they take no other memory.
#[derive(Debug, Drop)]
pub struct Bytes {
    held: Held,
}

impl Model for Bytes {
    ghost use Rattle.std.specs.Prelude.{List, ℕ};

    ghost Value = { List ℕ };

    ghost use Rattle.byte_maps.specs.Held.{bytes_held, FitsHeld};

    ghost view = { bytes_held };

    ghost invariant = { FitsHeld };
}

// Few bytes in an array.
fn few_of(bytes: &[u8]) -> [u8; SHORT]
    requires { length bytes.now ≤ 30 }
    ensures { take (length bytes.now) result ≡ bytes.now }
{
    let mut few = [0u8; SHORT];
    few[..bytes.len()].copy_from_slice(bytes);
    few
}

// Bytes, and others behind them, in a buffer.
fn joined(alloc: Global, bytes: &[u8], others: &[u8]) -> Result<Vec<u8>, AllocError>
    ensures { IfOk result (λ both. both.items ≡ bytes.now ++ others.now) }
{
    let mut both = Vec::with_capacity(alloc, bytes.len().saturating_add(others.len()))?;
    both.extend_from_slice(bytes)?;
    both.extend_from_slice(others)?;
    Ok(both)
}

impl Held {
    // The bytes, lent.
    fn as_slice(&self) -> &[u8]
        requires { Fits self.now }
        ensures { result.now ≡ bytes_of_held self.now }
    {
        match self {
            Held::Few {
                alloc: _,
                count,
                few,
            } => &few[..usize::from(*count)],
            Held::Many(bytes) => bytes.as_slice(),
        }
    }

    // Where their memory is from.
    fn allocator(&self) -> Global {
        match self {
            Held::Few {
                alloc,
                count: _,
                few: _,
            } => *alloc,
            Held::Many(bytes) => *bytes.allocator(),
        }
    }
}

impl Bytes {
    // Few bytes.
    fn short(alloc: Global, bytes: &[u8]) -> Bytes
        requires { length bytes.now ≤ 30 }
        ensures { result ≡ bytes.now }
    {
        Bytes {
            held: Held::Few {
                alloc,
                count: bytes.len() as u8,
                few: few_of(bytes),
            },
        }
    }

    // Bytes in a buffer.
    fn long(many: Vec<u8>) -> Bytes
        ensures { result ≡ many.items }
    {
        Bytes {
            held: Held::Many(many),
        }
    }

    /// The empty byte string. It takes no memory.
    pub fn new(alloc: Global) -> Bytes
        ensures { result ≡ [] }
    {
        Bytes::long(Vec::new(alloc))
    }

    /// The bytes of a vector, which is moved in, or given back where they are few.
    pub fn from_vec(held: Vec<u8>) -> Bytes
        ensures { result ≡ held.items }
    {
        if held.len() <= SHORT {
            let alloc = *held.allocator();
            return Bytes::short(alloc, &held);
        }
        Bytes::long(held)
    }

    /// A copy of these bytes.
    pub fn from_slice(alloc: Global, bytes: &[u8]) -> Result<Bytes, AllocError>
        ensures { IfOk result (λ made. made ≡ bytes.now) }
    {
        if bytes.len() <= SHORT {
            return Ok(Bytes::short(alloc, bytes));
        }
        Ok(Bytes::long(Vec::from_slice(alloc, bytes)?))
    }

    /// A vector that holds the bytes. It takes memory where they are few.
    pub fn into_vec(self, alloc: Global) -> Result<Vec<u8>, AllocError>
        ensures { IfOk result (λ bytes. bytes.items ≡ self) }
    {
        match self.held {
            Held::Many(bytes) => Ok(bytes),
            few => Vec::from_slice(alloc, few.as_slice()),
        }
    }

    /// The bytes, lent.
    pub fn as_slice(&self) -> &[u8]
        ensures { result.now ≡ self.now }
    {
        self.held.as_slice()
    }

    /// How many bytes there are.
    pub fn len(&self) -> usize
        ensures { result ≡ length self.now }
    {
        self.as_slice().len()
    }

    /// Whether there is no byte.
    pub fn is_empty(&self) -> bool
        ensures { IsTrue result ↔ (self.now ≡ []) }
    {
        self.as_slice().is_empty()
    }

    /// Puts a byte in the place of another.
    pub fn set(&mut self, at: usize, byte: u8)
        requires { at < length self.old }
        ensures { self.new ≡ slice_set self.old at byte }
    {
        match &mut self.held {
            Held::Few {
                alloc: _,
                count: _,
                few,
            } => few[at] = byte,
            Held::Many(bytes) => bytes[at] = byte,
        }
    }

    /// Adds a byte at the end.
    pub fn push(&mut self, byte: u8) -> Result<(), AllocError>
        ensures ok { OnOk result (self.new ≡ self.old ++ byte ∷ []) }
        ensures err { OnErr result (self.new ≡ self.old) }
    {
        self.extend_from_slice(&[byte])
    }

    /// Adds these bytes at the end, all or none.
    pub fn extend_from_slice(&mut self, bytes: &[u8]) -> Result<(), AllocError>
        ensures ok { OnOk result (self.new ≡ self.old ++ bytes.now) }
        ensures err { OnErr result (self.new ≡ self.old) }
    {
        if let Held::Many(many) = &mut self.held {
            return many.extend_from_slice(bytes);
        }
        let both = joined(self.held.allocator(), self.as_slice(), bytes)?;
        self.held = Held::Many(both);
        Ok(())
    }

    /// Makes room for `more` bytes. It is a hint: the meaning has no capacity, so no clause says that the next pushes succeed.
    pub fn reserve(&mut self, more: usize) -> Result<(), AllocError>
        ensures { self.new ≡ self.old }
    {
        match &mut self.held {
            Held::Few { .. } => Ok(()),
            Held::Many(bytes) => bytes.reserve(more),
        }
    }
}

/// What can be copied, unless memory runs out.
pub trait Duplicate {
    /// A copy that owns its own memory.
    fn duplicate(&self, alloc: Global) -> Result<Self, AllocError>
        ensures { IfOk result (λ copy. copy ≡ self.now) };
}

impl Duplicate for Bytes {
    fn duplicate(&self, alloc: Global) -> Result<Bytes, AllocError> {
        match &self.held {
            Held::Few {
                alloc: _,
                count,
                few,
            } => Ok(Bytes {
                held: Held::Few {
                    alloc,
                    count: *count,
                    few: *few,
                },
            }),
            Held::Many(bytes) => Ok(Bytes::long(Vec::from_slice(alloc, bytes.as_slice())?)),
        }
    }
}
