//! The record that sets each row of a table, whose pieces are spelled from the table one by one.
//!
//! Neither the record nor its body is ever kept. The pieces are cut as those of a sealed record, and come last first: a piece begins as many
//! bytes before the one that was given last as it has. The head, which is in the last piece, has the checksum of head and body: it goes
//! forward, over as many bytes of the body with each piece as a piece has at most, and so is whole when the head comes. So each byte of
//! the body is spelled twice, and a piece costs what it is long, however many rows there are.
//!
//! The table is given again with each call, and must have the same rows.
ghost use Rattle.std.specs.Prelude.{◌≡◌, ◌+◌, ◌*◌, ◌<◌, ◌≤◌, ◌++◌, take, drop, IfOk};
ghost use Rattle.byte_maps.specs.Units.{units_from};
ghost use Rattle.crc32c_csum.specs.Prelude.{all_ones, remainder};
ghost use Rattle.meta_rows.specs.Prelude.{ops_bytes, row_sets, bytes_before};
ghost use Rattle.meta_log.specs.Records.{record_head, record_bytes, record_units};
ghost use Rattle.meta_log.specs.Pieces.{piece_count, given_from, piece_first, piece_units};
ghost use Rattle.meta_log.specs.Sealed.{IsSealable, sealed_units, piece_bytes};
ghost use Rattle.meta_log.specs.RowsRecords.{body_summed, sealed_of};
ghost use Rattle.meta_log.specs.RowsInside.{IsRecordOf, IsOneOn};

use crate::sealed::{HEAD_BYTES, body_before, head_digest, headed, pieces_of, units_of_body};
use crc32c_csum::Digest;
use meta_rows::{RowCursor, RowTable};
use std::alloc::{AllocError, Global};
use std::marker::Model;
use std::snapshot::Snapshot;
use unit_fields::limits::{PIECE_UNITS, UNIT_BYTES};

// The most bytes of a piece.
const PIECE_BYTES: usize = PIECE_UNITS as usize * UNIT_BYTES;

// What is kept of the record of a table's rows from piece to piece.
#[derive(Drop)]
struct Progress {
    number: u64,
    // The operations, one for each row.
    count: u32,
    // The bytes of the body.
    size: usize,
    units: u32,
    given: u32,
    // Where those of the body's bytes begin that were given.
    front: RowCursor,
    // How far the checksum goes.
    summed: RowCursor,
    digest: Digest,
}

/// The record that sets each row of a table, and how far its pieces were given. It is seen as the rows, its number, and the count of those
/// pieces; a run keeps nothing of the table. (Ceph: RocksDB's flush of a memtable, after which it needs the older log no more.)
#[derive(Drop)]
pub struct RowsRecord {
    progress: Progress,
    table: Snapshot<RowTable>,
}

impl Model for RowsRecord {
    ghost use Rattle.std.specs.Coded.{codes};
    ghost use Rattle.meta_log.specs.RowsRecords.{TableRecord, coded_rows};

    ghost Value = { TableRecord };

    ghost coded = { Prim.hlevel (codes, coded_rows) };

    ghost use Rattle.meta_log.specs.RowsInside.{IsRecordOf};

    ghost view = { λ a. record { rows = a.table.value.rows; number = a.progress.number; given = a.progress.given } };

    ghost invariant = { λ a. IsRecordOf a.table.value.rows a.progress };
}

/// A piece of such a record: its first unit within the record, its bytes, and the record once the piece is given.
#[derive(Drop)]
pub struct RowsPiece {
    pub first: u32,
    pub bytes: Vec<u8>,
    pub then: RowsRecord,
}

impl Progress {
    // The record of a table's rows under this number, before its first piece.
    fn begin(alloc: Global, number: u64, rows: &RowTable) -> Result<Progress, AllocError>
        requires { IsSealable number (row_sets rows.now.rows) }
        ensures record { IfOk result (IsRecordOf rows.now.rows) }
        ensures begins { IfOk result (λ r. (r.number ≡ number) × (r.given ≡ 0)) }
    {
        let count = rows.len() as u32;
        let size = rows.size() as usize;
        let digest = head_digest(alloc, number, count, size as u32)?;
        Ok(Progress {
            number,
            count,
            size,
            units: units_of_body(size) as u32,
            given: 0,
            front: RowCursor::end(),
            summed: RowCursor::start(alloc),
            digest,
        })
    }

    // How many pieces it is written in.
    fn pieces(&self) -> u32
        ensures { result ≡ piece_count self.now.units }
    {
        pieces_of(self.units)
    }

    // The first unit of the next piece.
    fn first(&self) -> u32
        requires { self.now.given < piece_count self.now.units }
        ensures { result ≡ piece_first self.now.units self.now.given }
    {
        (self.pieces() - 1 - self.given) * PIECE_UNITS
    }

    // How many bytes of the body the checksum goes over once so many pieces were given.
    fn body_summed(&self, given: u32) -> usize
        ensures { result ≡ body_summed self.now.size given }
    {
        self.size.min(given as usize * PIECE_BYTES)
    }

    // The checksum over as many bytes more as a piece has, and how far it goes then.
    fn sum_on(&self, alloc: Global, rows: &RowTable) -> Result<(RowCursor, Digest), AllocError>
        requires record { IsRecordOf rows.now.rows self.now }
        requires left { self.now.given < piece_count self.now.units }
        ensures place { IfOk result (λ p. bytes_before rows.now.rows p.0 ≡ body_summed self.now.size (self.now.given + 1)) }
        ensures sum { IfOk result (λ p. p.1 ≡ remainder all_ones (record_head self.now.number (row_sets rows.now.rows) ++
            take (body_summed self.now.size (self.now.given + 1)) (ops_bytes (row_sets rows.now.rows)))) }
    {
        let count = self.body_summed(self.given + 1) - self.body_summed(self.given);
        let bytes = rows.spelled(alloc, &self.summed, count)?;
        let summed = rows.behind(alloc, &self.summed, count)?;
        let mut digest = self.digest;
        digest.update(&bytes);
        Ok((summed, digest))
    }

    // The record once the next piece is given, which is so many units from this one on.
    fn one_on(
        &self,
        alloc: Global,
        rows: &RowTable,
        first: u32,
        count: u32,
    ) -> Result<Progress, AllocError>
        requires record { IsRecordOf rows.now.rows self.now }
        requires left { self.now.given < piece_count self.now.units }
        requires first { first ≡ piece_first self.now.units self.now.given }
        requires count { count ≡ piece_units self.now.units self.now.given }
        ensures record { IfOk result (IsRecordOf rows.now.rows) }
        ensures on { IfOk result (IsOneOn self.now) }
    {
        let (summed, digest) = self.sum_on(alloc, rows)?;
        let size = body_before(self.size, first + count) - body_before(self.size, first);
        let front = rows.before(alloc, &self.front, size)?;
        Ok(Progress {
            number: self.number,
            count: self.count,
            size: self.size,
            units: self.units,
            given: self.given + 1,
            front,
            summed,
            digest,
        })
    }

    // The bytes of so many units from the first one on that was given, without the zeros that fill up the last.
    fn unfilled(
        &self,
        alloc: Global,
        rows: &RowTable,
        first: u32,
        count: u32,
    ) -> Result<Vec<u8>, AllocError>
        requires record { IsRecordOf rows.now.rows self.now }
        requires first { first ≡ given_from self.now.units self.now.given }
        requires some { 0 < count }
        requires within { first + count ≤ self.now.units }
        ensures { IfOk result (λ bytes. bytes.items ≡ take (4096 * count) (drop (4096 * first)
            (record_bytes self.now.number (row_sets rows.now.rows)))) }
    {
        let size = body_before(self.size, first + count) - body_before(self.size, first);
        let body = rows.spelled(alloc, &self.front, size)?;
        if first == 0 {
            let digest = self.digest;
            headed(
                alloc,
                self.number,
                self.count,
                self.size as u32,
                digest.finish(),
                &body,
            )
        } else {
            Ok(body)
        }
    }

    // The bytes of so many units from the first one on that was given.
    fn spelled(
        &self,
        alloc: Global,
        rows: &RowTable,
        first: u32,
        count: u32,
    ) -> Result<Vec<u8>, AllocError>
        requires record { IsRecordOf rows.now.rows self.now }
        requires first { first ≡ given_from self.now.units self.now.given }
        requires some { 0 < count }
        requires within { first + count ≤ self.now.units }
        ensures { IfOk result (λ bytes. bytes.items ≡ units_from first count (record_units self.now.number (row_sets rows.now.rows))) }
    {
        let mut bytes = self.unfilled(alloc, rows, first, count)?;
        bytes.resize(count as usize * UNIT_BYTES, 0)?;
        Ok(bytes)
    }

    // The next piece: its first unit, its bytes, and the record once it is given.
    fn piece(&self, alloc: Global, rows: &RowTable) -> Result<(u32, Vec<u8>, Progress), AllocError>
        requires record { IsRecordOf rows.now.rows self.now }
        requires left { self.now.given < piece_count self.now.units }
        ensures first { IfOk result (λ piece. piece.0 ≡ piece_first self.now.units self.now.given) }
        ensures bytes { IfOk result (λ piece. piece.1.items ≡ piece_bytes (record {
          number = self.now.number;
          ops = row_sets rows.now.rows;
        }) self.now.given) }
        ensures record { IfOk result (λ piece. IsRecordOf rows.now.rows piece.2) }
        ensures on { IfOk result (λ piece. IsOneOn self.now piece.2) }
    {
        let first = self.first();
        let count = PIECE_UNITS.min(self.units - first);
        let then = self.one_on(alloc, rows, first, count)?;
        let bytes = then.spelled(alloc, rows, first, count)?;
        Ok((first, bytes, then))
    }
}

impl RowsRecord {
    /// The record of a table's rows under this number, before its first piece.
    pub fn begin(alloc: Global, number: u64, rows: &RowTable) -> Result<RowsRecord, AllocError>
        requires { IsSealable number (row_sets rows.now.rows) }
        ensures { IfOk result (λ r. r ≡ record { rows = rows.now.rows; number = number; given = 0 }) }
    {
        Ok(RowsRecord {
            progress: Progress::begin(alloc, number, rows)?,
            table: Snapshot::of(rows),
        })
    }

    /// Its number.
    pub fn number(&self) -> u64
        ensures { result ≡ self.now.number }
    {
        self.progress.number
    }

    /// The units that it takes in the log, at least one.
    pub fn units(&self) -> u32
        ensures { result ≡ sealed_units (sealed_of self.now) }
    {
        self.progress.units
    }

    /// How many pieces were given.
    pub fn given(&self) -> u32
        ensures { result ≡ self.now.given }
    {
        self.progress.given
    }

    /// How many pieces it is written in, at least one.
    pub fn pieces(&self) -> u32
        ensures { result ≡ piece_count (sealed_units (sealed_of self.now)) }
    {
        self.progress.pieces()
    }

    /// The next piece, by the cut of a `SealedRecord`, from a table with the record's rows. It isn't given yet: the record stays as it is,
    /// and the one that comes with the piece takes its place once the device took the bytes. So want of memory leaves all as it was.
    pub fn piece(&self, alloc: Global, rows: &RowTable) -> Result<RowsPiece, AllocError>
        requires same { rows.now.rows ≡ self.now.rows }
        requires left { self.now.given < piece_count (sealed_units (sealed_of self.now)) }
        ensures first { IfOk result (λ piece. piece.first ≡ piece_first (sealed_units (sealed_of self.now)) self.now.given) }
        ensures bytes { IfOk result (λ piece. piece.bytes.items ≡ piece_bytes (sealed_of self.now) self.now.given) }
        ensures on { IfOk result (λ piece. piece.then ≡ record self.now { given = self.now.given + 1 }) }
    {
        let (first, bytes, progress) = self.progress.piece(alloc, rows)?;
        let then = RowsRecord {
            progress,
            table: Snapshot::of(rows),
        };
        Ok(RowsPiece { first, bytes, then })
    }
}
