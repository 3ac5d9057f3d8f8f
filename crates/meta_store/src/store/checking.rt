//! A checkpoint: all rows as one record in the other half, zeros over what is stale behind it there, and the switch of halves.
//!
//! It is written by calls of the same shape as a record's: a piece is made, given and written, and once all are, and stable, the superblock
//! of the next epoch goes into the other slot. The rows stay as they are until the halves have changed places, and are never copied.
ghost use Rattle.std.specs.Prelude.{◌≡◌, ◌↔◌, ◌≤◌, None, length, IsTrue, IfOk, IfSome, OnOk, OnErr, OnSome, MatchOption};
ghost use Rattle.meta_log.specs.Prelude.{IsSuper, super_bytes, other_slot, next_super, check_units};
ghost use Rattle.meta_store.specs.Checks.{with_check, with_check_given, with_check_written, switched_log, LiesInOtherHalf};
ghost use Rattle.meta_store.specs.Checks.{IsCheckGiven, IsCheckLeft, IsCheckOut, IsCheckWritten, IsNextCheck, IsLeftThen};

use super::MetaStore;
use crate::check::{CheckPiece, OpenCheck, next_bytes};
use meta_log::RowsRecord;
use std::alloc::{AllocError, Global};
use unit_fields::UnitNo;

impl MetaStore {
    /// Whether no checkpoint is being written.
    pub fn is_resting(&self) -> bool
        ensures { IsTrue result ↔ (self.now.check ≡ None) }
    {
        self.check.is_none()
    }

    /// Opens a checkpoint of the rows, and takes the memory for it: its pieces need more only for their own bytes, and the switch of halves
    /// needs none. (Ceph: RocksDB's flush of a memtable.)
    pub fn begin_check(&mut self, alloc: Global) -> Result<(), AllocError>
        requires idle { self.old.begun ≡ None }
        requires resting { self.old.check ≡ None }
        requires limits { IsSuper (next_super self.old.sup self.old.number) }
        requires fits { check_units self.old.number self.old.rows ≤ self.old.sup.half }
        ensures ok { OnOk result (self.new ≡ with_check self.old) }
        ensures err { OnErr result (self.new ≡ self.old) }
    {
        let check = OpenCheck::begin(alloc, self.number, &self.rows, self.tail, &self.stale)?;
        self.check = Some(check);
        Ok(())
    }

    /// The next piece of the checkpoint; None where there is none. It counts as given only with the call of `note_check_given`, to which goes
    /// what it leaves of the record.
    pub fn next_check(&self, alloc: Global) -> Result<Option<CheckPiece>, AllocError>
        ensures next { IfOk result (λ found. MatchOption found (IsCheckGiven self.now) (λ piece. IsNextCheck self.now piece.unit piece.bytes.items)) }
        ensures left { IfOk result (λ found. OnSome found (IsCheckLeft self.now)) }
        ensures record { IfOk result (λ found. IfSome found (λ piece. IsLeftThen self.now piece.left)) }
        ensures place { IfOk result (λ found. IfSome found (λ piece. LiesInOtherHalf self.now piece.unit piece.bytes.items)) }
    {
        let Some(check) = &self.check else {
            return Ok(None);
        };
        let Some(run) = check.next_run() else {
            return Ok(None);
        };
        let (bytes, left) = next_bytes(alloc, &check.left, &self.rows, run.count)?;
        let unit = UnitNo::new(self.sup.other_unit() + run.first);
        Ok(Some(CheckPiece { unit, bytes, left }))
    }

    /// Whether a checkpoint is being written of which a piece isn't given yet.
    pub fn has_check_left(&self) -> bool
        ensures { IsTrue result ↔ IsCheckLeft self.now }
    {
        match &self.check {
            Some(check) => check.given < check.pieces.len(),
            None => false,
        }
    }

    /// The next piece was given to the device, and leaves this of the record.
    pub fn note_check_given(&mut self, left: Option<RowsRecord>)
        requires some { IsCheckLeft self.old }
        requires left { IsLeftThen self.old left }
        ensures { self.new ≡ with_check_given self.old }
    {
        if let Some(check) = &mut self.check {
            check.left = left;
            check.given += 1;
        }
    }

    /// A piece that was given is written.
    pub fn check_written(&mut self)
        requires { IsCheckOut self.old }
        ensures { self.new ≡ with_check_written self.old }
    {
        if let Some(check) = &mut self.check {
            check.written += 1;
        }
    }

    /// Whether a checkpoint is being written, and each of its pieces is.
    pub fn is_check_written(&self) -> bool
        ensures { IsTrue result ↔ IsCheckWritten self.now }
    {
        match &self.check {
            Some(check) => check.written == check.pieces.len(),
            None => false,
        }
    }

    /// The superblock that a checkpoint brings, as it goes into the other slot, and the unit where that is. (Ceph: BlueFS's superblock of
    /// the next version.)
    pub fn next_slot(&self, alloc: Global) -> Result<(UnitNo, Vec<u8>), AllocError>
        requires { IsSuper (next_super self.now.sup self.now.number) }
        ensures unit { IfOk result (λ slot. slot.0 ≡ other_slot self.now.sup) }
        ensures bytes { IfOk result (λ slot. slot.1.items ≡ super_bytes (next_super self.now.sup self.now.number)) }
        ensures size { IfOk result (λ slot. length slot.1.items ≡ 4096) }
    {
        let bytes = self.sup.next(self.number).write(alloc)?;
        Ok((UnitNo::new(self.sup.other_slot()), bytes))
    }

    /// The superblock of the next epoch is stable in the other slot: the halves have changed places. It takes no memory.
    pub fn switch(&mut self)
        requires { IsCheckWritten self.old }
        ensures { self.new ≡ switched_log self.old }
    {
        if let Some(check) = self.check.take() {
            let (units, behind) = check.close();
            self.sup = self.sup.next(self.number);
            self.tail = units;
            self.number += u64::from(units.min(1));
            self.stale = behind;
        }
    }
}
