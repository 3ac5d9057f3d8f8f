//! Which collections named shared blobs first.
ghost use Rattle.std.specs.Prelude.{◌≡◌, OnOk, option_copied};
ghost use Rattle.std.specs.FinMap as map;

use byte_maps::Bytes;
use meta_rows::{RowOp, RowTable};
use std::alloc::{AllocError, Global};
use std::marker::Model;
use unit_fields::CollName;

/// For each blob that a shard has named, under the key of the blob's row, the collection of the first such shard.
///
/// Shards come in the order of their objects' names, whatever the numbers of the blobs are that they name: so the keys come in no order, and lie
/// in the chunks of a `RowTable`, where one that comes moves few others.
#[derive(Drop)]
pub(crate) struct Namers {
    table: RowTable,
}

impl Model for Namers {
    ghost use Rattle.std.specs.FinMap as map;
    ghost use Rattle.std.specs.Coded.{coded_ℕ, coded_list};
    ghost use Rattle.row_check.specs.Named.{Namers};

    ghost Value = { Namers };

    ghost coded = { map.code (coded_list coded_ℕ) (coded_list coded_ℕ) };

    ghost view = { λ a. a.table.rows };
}

impl Namers {
    /// No blob is named. It takes no memory.
    pub(crate) fn new(alloc: Global) -> Namers
        ensures { result ≡ map.empty }
    {
        Namers {
            table: RowTable::new(alloc),
        }
    }

    /// The name of the collection that named the blob with this key first.
    pub(crate) fn get(&self, key: &[u8]) -> Option<&Bytes>
        ensures { option_copied result ≡ map.get self.now key.now }
    {
        self.table.get(key)
    }

    /// Whether a collection has named the blob with this key.
    pub(crate) fn contains_key(&self, key: &[u8]) -> bool
        ensures { result ≡ map.contains_key self.now key.now }
    {
        self.get(key).is_some()
    }

    /// The collection is the one that named the blob with this key.
    pub(crate) fn insert(
        &mut self,
        alloc: Global,
        key: Bytes,
        coll: &CollName,
    ) -> Result<(), AllocError>
        ensures { OnOk result (self.new ≡ map.insert self.old key coll.now) }
    {
        let value = Bytes::from_slice(alloc, coll.as_slice())?;
        let ops = vec![in alloc; RowOp::Set { key, value }]?;
        self.table.reserve(1)?;
        self.table.apply(ops);
        Ok(())
    }
}
