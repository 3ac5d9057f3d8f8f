//! The operations of many records, gathered so that they are applied to the rows together.
//!
//! One record's bytes, a few pieces of the half and the operations that wait are in memory at a time, beside the rows: operations wait
//! until they take 8 MiB or about that, and those of one record more. Of the units behind the records only the numbers of those that
//! aren't zero are kept, until they are cleared. An invalid head with the right magic and number makes a mount gather what it claims, at
//! most the half.
ghost use Rattle.std.specs.Prelude.{◌≡◌, [], OnOk, IfOk};
ghost use Rattle.std.specs.FinMap as map;
ghost use Rattle.meta_rows.specs.Prelude.{row_after, rows_after};
ghost use Rattle.log_replay.specs.Gathering.{is_bitmap_key, rows_so_far, IsParted};

use crate::presorting::apply_presorted;
use meta_log::FoundRecord;
use meta_rows::{RowOp, RowTable, encoded_len};
use std::alloc::{AllocError, Global};
use std::mem::replace;

// Operations on the bitmap are applied together when there are so many. They come to few rows, and their buffers are free again at once.
const MANY_BITS: usize = 8;

// Others wait until they take so many bytes of memory, or one record makes them more: so that few merges go over the rows that are there
// already.
const MANY_BYTES: usize = 8 << 20;

// What an operation takes in lists, and its two buffers beside their bytes.
const OP_BYTES: usize = 128;

// The first byte of the keys of the bitmap's rows.
const BITMAP: u8 = b'b';

// What operations take of memory, about.
fn bytes_of(ops: &[RowOp]) -> usize {
    encoded_len(ops).saturating_add(ops.len().saturating_mul(OP_BYTES))
}

// Whether this is the key of a row of the bitmap.
fn is_of_bitmap(key: &[u8]) -> bool
    ensures { result ≡ is_bitmap_key key.now }
{
    match key.split_first() {
        Some((kind, _)) => *kind == BITMAP,
        None => false,
    }
}

/// Rows, and operations of records behind those that made them: those on rows of the bitmap apart from the others. Names of objects and
/// the units that they got often ascend both, so that apart each list is sorted already, and many units have their bits in one row.
#[derive(Drop)]
pub(crate) struct Gathered {
    rows: RowTable,
    others: Vec<RowOp>,
    // What the operations since others were applied take of memory, about.
    bytes: usize,
    bits: Vec<RowOp>,
}

impl Gathered {
    /// No rows, and no operations.
    pub(crate) fn new(alloc: Global) -> Gathered
        ensures none { rows_so_far result ≡ map.empty }
        ensures parted { IsParted result }
    {
        Gathered {
            rows: RowTable::new(alloc),
            others: Vec::new(alloc),
            bytes: 0,
            bits: Vec::new(alloc),
        }
    }

    // Applies the operations on the bitmap that wait, as they stand: mostly each comes to the row of the one before.
    fn apply_bits(&mut self, alloc: Global) -> Result<(), AllocError>
        requires { IsParted self.old }
        ensures parted { OnOk result (IsParted self.new) }
        ensures same { OnOk result (rows_so_far self.new ≡ rows_so_far self.old) }
        ensures none { OnOk result (self.new.bits.items ≡ []) }
    {
        let bits = replace(&mut self.bits, Vec::with_capacity(alloc, MANY_BITS)?);
        self.rows.reserve(bits.len())?;
        self.rows.apply(bits);
        Ok(())
    }

    // The same where many wait.
    fn apply_many_bits(&mut self, alloc: Global) -> Result<(), AllocError>
        requires { IsParted self.old }
        ensures parted { OnOk result (IsParted self.new) }
        ensures same { OnOk result (rows_so_far self.new ≡ rows_so_far self.old) }
    {
        if self.bits.len() < MANY_BITS {
            return Ok(());
        }
        self.apply_bits(alloc)
    }

    // Applies the others that wait, where they take much memory.
    fn apply_many_others(&mut self, alloc: Global) -> Result<(), AllocError>
        requires { IsParted self.old }
        ensures parted { OnOk result (IsParted self.new) }
        ensures same { OnOk result (rows_so_far self.new ≡ rows_so_far self.old) }
    {
        if self.bytes < MANY_BYTES {
            return Ok(());
        }
        let others = replace(&mut self.others, Vec::new(alloc));
        self.bytes = 0;
        apply_presorted(&mut self.rows, alloc, others)
    }

    // One more operation waits.
    fn add_one(&mut self, op: RowOp) -> Result<(), AllocError>
        requires { IsParted self.old }
        ensures parted { OnOk result (IsParted self.new) }
        ensures rows { OnOk result (rows_so_far self.new ≡ row_after (rows_so_far self.old) op) }
    {
        if is_of_bitmap(op.key()) {
            self.bits.push(op)?;
        } else {
            self.others.push(op)?;
        }
        Ok(())
    }

    // More operations wait.
    fn add(&mut self, ops: Vec<RowOp>) -> Result<(), AllocError>
        requires { IsParted self.old }
        ensures parted { OnOk result (IsParted self.new) }
        ensures rows { OnOk result (rows_so_far self.new ≡ rows_after (rows_so_far self.old) ops.items) }
    {
        for op in ops {
            self.add_one(op)?;
        }
        Ok(())
    }

    /// The rows after the operations of one more record.
    pub(crate) fn take(&mut self, alloc: Global, found: FoundRecord) -> Result<(), AllocError>
        requires { IsParted self.old }
        ensures parted { OnOk result (IsParted self.new) }
        ensures rows { OnOk result (rows_so_far self.new ≡ rows_after (rows_so_far self.old) found.ops) }
    {
        let ops = found.ops.into_vec();
        self.bytes = self.bytes.saturating_add(bytes_of(&ops));
        self.add(ops)?;
        self.apply_many_bits(alloc)?;
        self.apply_many_others(alloc)
    }

    /// The rows after all operations.
    pub(crate) fn finish(self, alloc: Global) -> Result<RowTable, AllocError>
        requires { IsParted self }
        ensures { IfOk result (λ rows. rows.rows ≡ rows_so_far self) }
    {
        let mut gathered = self;
        gathered.apply_bits(alloc)?;
        let Gathered {
            mut rows,
            others,
            ..
        } = gathered;
        apply_presorted(&mut rows, alloc, others)?;
        Ok(rows)
    }
}
