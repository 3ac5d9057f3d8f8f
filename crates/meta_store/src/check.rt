//! A checkpoint of the rows, while its pieces are made.
ghost use Rattle.std.specs.Prelude.{◌≡◌, ℕ, ◌+◌, ◌^◌, ◌*◌, ◌<◌, nat_lt, length, slice_get, All, IfOk, IfSome, if◌then◌else◌};
ghost use Rattle.byte_maps.specs.Units.{zeros};
ghost use Rattle.meta_rows.specs.Prelude.{ops_bytes, row_sets};
ghost use Rattle.meta_log.specs.Prelude.{IsSealable, piece_count, sealed_units, sealed_of, check_units, front_run};
ghost use Rattle.meta_store.specs.Checks.{record_left, units_left, left_bytes, left_then};
ghost use Rattle.meta_store.specs.StoreInside.{IsOpen};

use meta_log::{RowsRecord, UnitRun, check_runs, units_of_body};
use meta_rows::RowTable;
use std::alloc::{AllocError, Global};
use unit_fields::UnitNo;
use unit_fields::limits::UNIT_BYTES;

/// A piece of a checkpoint: the unit of the device from which on it goes, its bytes, and what is left of the record of the rows once it is
/// given, for `note_check_given`.
#[derive(Drop)]
pub struct CheckPiece {
    pub unit: UnitNo,
    pub bytes: Vec<u8>,
    pub left: Option<RowsRecord>,
}

/// A checkpoint that is open. It has no copy of the rows.
#[derive(Drop)]
pub struct OpenCheck {
    /// The record of the rows, while one of its pieces is left.
    pub left: Option<RowsRecord>,
    /// The units of the record.
    pub units: u32,
    /// All pieces, those of the record first.
    pub pieces: Vec<UnitRun>,
    /// What is stale in the half that is left, once the halves have changed places.
    pub behind: Vec<UnitRun>,
    pub given: usize,
    pub written: usize,
}

// The record of a table's rows, none where there are no rows.
fn record_of(alloc: Global, number: u64, rows: &RowTable) -> Result<Option<RowsRecord>, AllocError>
    requires { IsSealable number (row_sets rows.now.rows) }
    ensures { IfOk result (λ r. r ≡ record_left number rows.now.rows 0) }
{
    if rows.is_empty() {
        return Ok(None);
    }
    Ok(Some(RowsRecord::begin(alloc, number, rows)?))
}

/// How many units the rows take as one record, whatever its number is: none where there are no rows.
pub fn units_of_rows(rows: &RowTable) -> u32
    requires { length (ops_bytes (row_sets rows.now.rows)) < 2 ^ 32 }
    ensures { (number : ℕ) → result ≡ check_units number rows.now.rows }
{
    if rows.is_empty() {
        return 0;
    }
    units_of_body(rows.size() as usize) as u32
}

// How many units the record takes, if there is one.
fn units_of(left: &Option<RowsRecord>) -> u32
    ensures { result ≡ units_left left.now }
{
    match left {
        Some(made) => made.units(),
        None => 0,
    }
}

// The first so many units as a run.
fn front_run(alloc: Global, tail: u32) -> Result<Vec<UnitRun>, AllocError>
    ensures { IfOk result (λ runs. runs.items ≡ front_run tail) }
{
    let mut runs = Vec::new(alloc);
    if tail > 0 {
        runs.push(UnitRun {
            first: 0,
            count: tail,
        })?;
    }
    Ok(runs)
}

// So many units of zeros.
#[tactic(auto, unfolding(byte_maps::specs::Units::zeros))]
fn zero_units(alloc: Global, count: u32) -> Result<Vec<u8>, AllocError>
    ensures { IfOk result (λ bytes. bytes.items ≡ zeros (4096 * count)) }
{
    vec![in alloc; 0u8; count as usize * UNIT_BYTES]
}

// The record, where a piece of it is left.
fn unless_done(made: RowsRecord) -> Option<RowsRecord>
    ensures { result ≡ (if nat_lt made.given (piece_count (sealed_units (sealed_of made))) then Some made else None) }
{
    if made.given() < made.pieces() {
        Some(made)
    } else {
        None
    }
}

/// The bytes of the next piece, of so many units, where this is left of the record; and what is left once they are given.
pub fn next_bytes(
    alloc: Global,
    left: &Option<RowsRecord>,
    rows: &RowTable,
    count: u32,
) -> Result<(Vec<u8>, Option<RowsRecord>), AllocError>
    requires same { IfSome left.now (λ r. rows.now.rows ≡ r.rows) }
    requires some { IfSome left.now (λ r. r.given < piece_count (sealed_units (sealed_of r))) }
    ensures bytes { IfOk result (λ p. p.0.items ≡ left_bytes left.now count) }
    ensures left { IfOk result (λ p. p.1 ≡ left_then left.now) }
{
    let Some(record) = left else {
        return Ok((zero_units(alloc, count)?, None));
    };
    let piece = record.piece(alloc, rows)?;
    Ok((piece.bytes, unless_done(piece.then)))
}

impl OpenCheck {
    /// The checkpoint of a table's rows, of which nothing is given, for a log with these units of records and these stale units of the
    /// other half.
    pub fn begin(
        alloc: Global,
        number: u64,
        rows: &RowTable,
        tail: u32,
        stale: &[UnitRun],
    ) -> Result<OpenCheck, AllocError>
        requires sealable { IsSealable number (row_sets rows.now.rows) }
        requires ends { All (λ r. r.first + r.count < 2 ^ 32) stale.now }
        ensures open { IfOk result (IsOpen number rows.now.rows tail stale.now) }
        ensures none { IfOk result (λ c. (c.given ≡ 0) × (c.written ≡ 0)) }
    {
        let left = record_of(alloc, number, rows)?;
        let units = units_of(&left);
        Ok(OpenCheck {
            left,
            units,
            pieces: check_runs(alloc, units, stale)?,
            behind: front_run(alloc, tail)?,
            given: 0,
            written: 0,
        })
    }

    /// The units of the next piece, if one is left.
    pub fn next_run(&self) -> Option<UnitRun>
        ensures { result ≡ slice_get self.now.pieces.items self.now.given }
    {
        self.pieces.get(self.given).copied()
    }

    /// What the switch of halves leaves: the units of the new log, and what is stale in the half that is left.
    pub fn close(self) -> (u32, Vec<UnitRun>)
        ensures units { result.0 ≡ self.units }
        ensures behind { result.1.items ≡ self.behind.items }
    {
        (self.units, self.behind)
    }
}
