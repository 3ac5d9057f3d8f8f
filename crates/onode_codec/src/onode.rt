//! An object's onode.
ghost use Rattle.std.specs.Prelude.{◌≡◌, ◌≢◌, length, IfOk, MatchOption};
ghost use Rattle.std.specs.Int.{w64, to_le_bytes};
ghost use Rattle.onode_codec.specs.Reading.{SpellsOnode};

use byte_maps::Bytes;
use std::alloc::{AllocError, Global};
use unit_fields::Fields;

/// What an object's own row says (Ceph's `bluestore_onode_t`; the attributes have rows of their own here).
#[derive(Clone, Copy)]
pub struct Onode {
    /// The object's bytes.
    pub size: u64,
}

impl Onode {
    /// The row's value: the size, little-endian.
    pub fn encode(&self, alloc: Global) -> Result<Bytes, AllocError>
        ensures { IfOk result (λ bytes. bytes ≡ to_le_bytes w64 self.now.size) }
    {
        Bytes::from_slice(alloc, &self.size.to_le_bytes())
    }

    /// The onode that these bytes spell. Whether its size is one that an object may have is for the caller to see.
    pub fn decode(bytes: &[u8]) -> Option<Onode>
        ensures { MatchOption result (length bytes.now ≢ 8) (λ onode. SpellsOnode bytes.now onode.size) }
    {
        let mut fields = Fields::new(bytes);
        let size = fields.u64()?;
        if fields.is_empty() {
            Some(Onode { size })
        } else {
            None
        }
    }
}
