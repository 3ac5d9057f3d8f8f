//! The store: its rows, its room in the log, and the record that is being written.
//!
//! The room of the record's rows is made where the record is sealed and begun, in one step. (Ceph's batch is handed to the log at once
//! too.)
ghost use Rattle.std.specs.Prelude.{◌≡◌, ◌↔◌, ◌+◌, ◌-◌, ◌<◌, ◌≤◌, None, IsTrue, IfOk, IfErr, IfSome, OnOk, OnErr, OnSome, MatchOption};
ghost use Rattle.meta_rows.specs.Sets.{RowsFit};
ghost use Rattle.meta_log.specs.Prelude.{IsSuper, active_unit, sealed_units, check_units, AreRunsFrom};
ghost use Rattle.meta_store.specs.Store.{IsMeta, found_meta, room_of, with_begun, with_given, with_written, with_record_stable};
ghost use Rattle.meta_store.specs.Store.{IsRecordGiven, IsPieceLeft, IsPieceOut, IsAllWritten, IsNextPiece, LiesBehindTail};

mod checking;

use crate::check::{OpenCheck, units_of_rows};
use crate::full::MetaFull;
use meta_log::{SealedRecord, Super, UnitRun};
use meta_rows::RowTable;
use std::alloc::{AllocError, AllocFailed, Global};
use std::marker::Model;
use unit_fields::UnitNo;

// A record that is being written, and how many of its pieces were given and are written.
#[derive(Drop)]
struct BegunRecord {
    sealed: SealedRecord,
    given: u32,
    written: u32,
}

/// The committed rows of a store, and where its log stands. It is seen as the superblock, the rows, the tail (the units of the records in the
/// active half), the next record's number, the units set aside, the record that is being written, with the pieces given and written, the stale
/// units of the other half, and the checkpoint that is being written there.
#[derive(Drop)]
pub struct MetaStore {
    sup: Super,
    rows: RowTable,
    tail: u32,
    number: u64,
    reserved: u32,
    begun: Option<BegunRecord>,
    stale: Vec<UnitRun>,
    check: Option<OpenCheck>,
}

impl Model for MetaStore {
    ghost use Rattle.std.specs.Coded.{codes};
    ghost use Rattle.meta_log.specs.Prelude.{coded_rows};
    ghost use Rattle.meta_store.specs.Store.{Meta};

    ghost Value = { Meta };

    ghost coded = { Prim.hlevel (codes, coded_rows) };

    ghost use Rattle.meta_store.specs.StoreInside.{meta_of, Holds};

    ghost view = { meta_of };

    ghost invariant = { Holds };
}

impl MetaStore {
    /// The store of this superblock with the rows that its log was found to make, the units that its records take, and the number of
    /// the next one. `stale` are the units of the other half that may not be zero. Nothing is set aside, and neither a record nor a
    /// checkpoint is begun.
    pub fn open(
        sup: &Super,
        rows: RowTable,
        tail: u32,
        number: u64,
        stale: Vec<UnitRun>,
    ) -> MetaStore
        requires limits { IsSuper sup.now }
        requires fit { RowsFit rows.rows }
        requires tail { tail ≤ sup.now.half }
        requires stale { AreRunsFrom 0 sup.now.half stale.items }
        ensures { result ≡ found_meta sup.now rows.rows tail number stale.items }
    {
        MetaStore {
            sup: *sup,
            rows,
            tail,
            number,
            reserved: 0,
            begun: None,
            stale,
            check: None,
        }
    }

    /// The superblock.
    pub fn sup(&self) -> &Super
        ensures { result.now ≡ self.now.sup }
    {
        &self.sup
    }

    /// The committed rows.
    pub fn rows(&self) -> &RowTable
        ensures { result.now.rows ≡ self.now.rows }
    {
        &self.rows
    }

    /// The units of the records in the active half, from its first unit on. The next record goes behind them.
    pub fn tail(&self) -> u32
        ensures tail { result ≡ self.now.tail }
        ensures known { IsMeta self.now }
    {
        self.tail
    }

    /// The number of the next record.
    pub fn next_number(&self) -> u64
        ensures { result ≡ self.now.number }
    {
        self.number
    }

    /// The units of a half that neither the rows take as one record nor are set aside. What stands in the log beyond that record is no room
    /// that is lost: a checkpoint leaves it behind.
    pub fn room(&self) -> u32
        requires { check_units self.now.number self.now.rows ≤ self.now.sup.half }
        ensures { result ≡ room_of self.now }
    {
        self.sup
            .half
            .saturating_sub(units_of_rows(&self.rows))
            .saturating_sub(self.reserved)
    }

    /// Sets units aside for the record of a transaction, if there is room for so many.
    pub fn reserve(&mut self, units: u32) -> Result<(), MetaFull>
        requires { check_units self.old.number self.old.rows ≤ self.old.sup.half }
        ensures ok { OnOk result (units ≤ room_of self.old) }
        ensures set_aside { OnOk result (self.new ≡ record self.old { reserved = self.old.reserved + units }) }
        ensures full { OnErr result (room_of self.old < units) }
        ensures numbers { IfErr result (λ full. full ≡ record { need = units; room = room_of self.old }) }
        ensures err { OnErr result (self.new ≡ self.old) }
    {
        let room = self.room();
        if units > room {
            return Err(MetaFull { need: units, room });
        }
        self.reserved += units;
        Ok(())
    }

    /// Gives back units that were set aside: their transaction is committed, or it was refused after all.
    pub fn release(&mut self, units: u32)
        requires { units ≤ self.old.reserved }
        ensures { self.new ≡ record self.old { reserved = self.old.reserved - units } }
    {
        self.reserved -= units;
    }

    /// Whether no record is being written.
    pub fn is_idle(&self) -> bool
        ensures { IsTrue result ↔ (self.now.begun ≡ None) }
    {
        self.begun.is_none()
    }

    /// Begins to write a record behind the tail, and makes the room in the rows that its operations take. Where memory runs out the record
    /// comes back. (Ceph: a synchronous submission of a write batch to RocksDB.)
    pub fn begin(&mut self, sealed: SealedRecord) -> Result<(), AllocFailed<SealedRecord>>
        requires idle { self.old.begun ≡ None }
        requires resting { self.old.check ≡ None }
        requires next { sealed.number ≡ self.old.number }
        requires fits { self.old.tail + sealed_units sealed ≤ self.old.sup.half }
        ensures ok { OnOk result (self.new ≡ with_begun self.old sealed.ops) }
        ensures err { OnErr result (self.new ≡ self.old) }
        ensures back { IfErr result (λ failed. failed.value ≡ sealed) }
    {
        let _units = sealed.units();
        match self.rows.reserve(sealed.ops().len()) {
            Ok(()) => {
                self.begun = Some(BegunRecord {
                    sealed,
                    given: 0,
                    written: 0,
                });
                Ok(())
            }
            Err(_) => Err(AllocFailed { value: sealed }),
        }
    }

    /// The next piece of the record that is being written, and the unit of the device from which on it goes; None where there is none.
    /// It counts as given only with the call of `note_given`, so that a submission that the device refused can be made again.
    pub fn next_piece(&self, alloc: Global) -> Result<Option<(UnitNo, Vec<u8>)>, AllocError>
        ensures next { IfOk result (λ found. MatchOption found (IsRecordGiven self.now) (λ piece. IsNextPiece self.now piece.0 piece.1.items)) }
        ensures left { IfOk result (λ found. OnSome found (IsPieceLeft self.now)) }
        ensures place { IfOk result (λ found. IfSome found (λ piece. LiesBehindTail self.now piece.0 piece.1.items)) }
    {
        match &self.begun {
            Some(begun) if begun.given < begun.sealed.pieces() => {
                let (first, bytes) = begun.sealed.piece(alloc, begun.given)?;
                let unit = UnitNo::new(self.sup.active_unit() + self.tail + first);
                Ok(Some((unit, bytes)))
            }
            _ => Ok(None),
        }
    }

    /// Whether a record is being written of which a piece isn't given yet.
    pub fn has_piece_left(&self) -> bool
        ensures { IsTrue result ↔ IsPieceLeft self.now }
    {
        match &self.begun {
            Some(begun) => begun.given < begun.sealed.pieces(),
            None => false,
        }
    }

    /// The next piece was given to the device.
    pub fn note_given(&mut self)
        requires { IsPieceLeft self.old }
        ensures { self.new ≡ with_given self.old }
    {
        if let Some(begun) = &mut self.begun {
            begun.given += 1;
        }
    }

    /// A piece that was given is written.
    pub fn written(&mut self)
        requires { IsPieceOut self.old }
        ensures { self.new ≡ with_written self.old }
    {
        if let Some(begun) = &mut self.begun {
            begun.written += 1;
        }
    }

    /// Whether a record is being written, and each of its pieces is.
    pub fn is_written(&self) -> bool
        ensures { IsTrue result ↔ IsAllWritten self.now }
    {
        match &self.begun {
            Some(begun) => begun.written == begun.sealed.pieces(),
            None => false,
        }
    }

    /// A flush behind the last piece has ended well: the record is stable, and its operations are applied to the rows, by the room
    /// that `begin` made.
    pub fn flushed(&mut self)
        requires { IsAllWritten self.old }
        ensures { self.new ≡ with_record_stable self.old self.old.begun }
    {
        if let Some(begun) = self.begun.take() {
            self.tail += begun.sealed.units();
            self.number += 1;
            self.rows.apply(begun.sealed.into_ops());
        }
    }
}
