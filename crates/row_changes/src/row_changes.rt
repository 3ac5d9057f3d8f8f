//! Changes of rows, and what is seen through them.
ghost use Rattle.std.specs.Prelude.{◌≡◌, IfOk, OnOk, OnErr, not};
ghost use Rattle.std.specs.FinMap as map;
ghost use Rattle.byte_maps.specs.ByteMap.{in_range};
ghost use Rattle.row_changes.specs.Seen.{DropsRange, IsDifferenceBy};

use crate::difference::difference_of;
use crate::row_change::RowChange;
use byte_maps::{Bytes, Duplicate, Items, byte_order};
use meta_rows::{RowOp, RowTable};
use std::alloc::{AllocError, Global};
use std::marker::Model;

/// The rows that are changed, each with its value, or with none where it goes: a finite map, laid over a `RowTable` that stays as it is.
///
/// The changes are logged as they come, and of two for one key the later counts. So a change takes its place at the end of the log, whatever
/// its key is, and the log is brought into the order of its keys once, when the difference to the table is taken. (Ceph: the RocksDB write
/// batch of a transaction.)
#[derive(Drop)]
pub struct RowChanges {
    log: Vec<RowChange>,
}

impl Model for RowChanges {
    ghost use Rattle.std.specs.FinMap as map;
    ghost use Rattle.std.specs.Coded.{coded_ℕ, coded_list, coded_option};
    ghost use Rattle.row_changes.specs.Seen.{ChangeMap};
    ghost use Rattle.row_changes.specs.Log.{logged};

    ghost Value = { ChangeMap };

    ghost coded = { map.code (coded_list coded_ℕ) (coded_option (coded_list coded_ℕ)) };

    ghost view = { λ a. logged map.empty a.log.items };
}

fn is_in_range(first: &[u8], end: &[u8], key: &[u8]) -> bool
    ensures { result ≡ in_range first.now end.now key.now }
{
    !byte_order(key, first).is_lt() && byte_order(key, end).is_lt()
}

impl RowChanges {
    /// No row is changed. It takes no memory.
    pub fn new(alloc: Global) -> RowChanges
        ensures { result ≡ map.empty }
    {
        RowChanges {
            log: Vec::new(alloc),
        }
    }

    /// The row of this key gets the value, or goes where there is none. Where memory runs out, both are dropped.
    pub fn set(&mut self, key: Bytes, value: Option<Bytes>) -> Result<(), AllocError>
        ensures ok { OnOk result (self.new ≡ map.insert self.old key value) }
        ensures err { OnErr result (self.new ≡ self.old) }
    {
        Ok(self.log.push(RowChange { key, value })?)
    }

    // Takes back the changes of the keys from `first` on and below `end`. It looks at each change once.
    fn take_back(&mut self, first: &[u8], end: &[u8])
        ensures { self.new ≡ map.retain_keys self.old (λ k. not (in_range first.now end.now k)) }
    {
        self.log
            .retain(|change| !is_in_range(first, end, change.key.as_slice()));
    }

    /// All rows go whose keys are from `first` on and below `end`, those of the table and those that were set. It looks at each change
    /// once, and at those rows of the table alone.
    pub fn drop_range(
        &mut self,
        alloc: Global,
        rows: &RowTable,
        first: &[u8],
        end: &[u8],
    ) -> Result<(), AllocError>
        ensures { OnOk result (DropsRange rows.now.rows first.now end.now self.old self.new) }
    {
        self.take_back(first, end);
        for (key, _) in rows.range(first, Some(end)) {
            let key = key.duplicate(alloc)?;
            self.set(key, None)?;
        }
        Ok(())
    }

    /// The operations that make of the table's rows what is seen. Each changed row is looked up once: at the place of the one before or
    /// behind it, and where it isn't there by bisecting the table; values are moved, and not copied. The changes are brought into the order
    /// of their keys by as many comparisons as there are changes where they came in it, else by as many for each as their number has bits.
    pub fn difference(self, alloc: Global, rows: &RowTable) -> Result<Items<RowOp>, AllocError>
        ensures { IfOk result (IsDifferenceBy rows.now.rows self) }
    {
        difference_of(alloc, rows, self.log)
    }
}
