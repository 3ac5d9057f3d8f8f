//! Records read back from a half of the log.
//!
//! A scan takes any bytes: a last part that isn't a whole unit has no record. A record is checked (number, checksum, zeros behind the
//! body) before its operations are read, and memory is taken only for keys and values that are there.
ghost use Rattle.std.specs.Prelude.{◌≡◌, ◌≢◌, ◌↔◌, ◌+◌, ◌-◌, ◌*◌, ◌++◌, ◌<◌, ◌≤◌, ◌^◌, ℕ, List, length, drop, IsTrue, All, IfOk, MatchOption};
ghost use Rattle.std.specs.Int.{w32, to_le_bytes};
ghost use Rattle.byte_maps.specs.Units.{units_for};
ghost use Rattle.crc32c_csum.specs.Prelude.{crc32c};
ghost use Rattle.meta_rows.specs.declared.row_op.RowOp.{RowOp};
ghost use Rattle.meta_log.specs.Records.{head_of, BeginsWithRecord};
ghost use Rattle.meta_log.specs.Scanning.{BeginsWithParts, IsCut, IsAtFront, BeginsNoRecord, TakesUnits, IsLogOf};

use crate::sealed::{HEAD_BYTES, MAGIC, sum_of, units_of_body};
use crate::slot::NUMBER_LIMIT;
use byte_maps::{Items, is_zero};
use meta_rows::{RowOp, decode};
use std::alloc::{AllocError, Global};
use unit_fields::Fields;
use unit_fields::limits::UNIT_BYTES;

// The bytes of the head that the checksum is of.
const SUMMED_HEAD: usize = 20;

/// A record that was found at the front of bytes.
#[derive(Drop)]
pub struct FoundRecord {
    /// Its operations, in order.
    pub ops: Items<RowOp>,
    /// The units that it takes, at least one.
    pub units: u32,
}

/// What was found in a half of the log.
#[derive(Drop)]
pub struct FoundLog {
    /// The operations of each record, in the order of their numbers. The rows are those that they make of none, record by record.
    pub records: Items<Items<RowOp>>,
    /// The number of the next record that is written.
    pub next_number: u64,
    /// The unit of the half where it will begin: the records take all units before it, and it is the half's length where no unit is left.
    pub next_unit: u64,
}

// What the head of a record says: how many operations its body has, and how many bytes.
#[derive(Clone, Copy)]
struct Head {
    count: u32,
    size: u32,
}

// A record whose body hasn't been read yet.
#[derive(Clone, Copy)]
struct Parts<'a> {
    count: u32,
    body: &'a [u8],
    units: u32,
}

fn read_head(head: &[u8], number: u64) -> Option<Head>
    requires { length head.now ≡ 20 }
    ensures { MatchOption result ((count size : ℕ) → head.now ≢ head_of number count size) (λ h. head.now ≡ head_of number h.count h.size) }
{
    let mut fields = Fields::new(head);
    let magic = fields.bytes(MAGIC.len())?;
    let size = fields.u32()?;
    let held = fields.u64()?;
    let count = fields.u32()?;
    if magic == MAGIC.as_slice() && held == number {
        Some(Head { count, size })
    } else {
        None
    }
}

// The zeros between a body of so many bytes and the end of its record's last unit.
fn padding_of(body: usize) -> usize
    requires { body < 2 ^ 32 }
    ensures { result ≡ 4096 * units_for (24 + body) - (24 + body) }
{
    units_of_body(body) * UNIT_BYTES - (HEAD_BYTES + body)
}

// Whether the checksum is that of head and body, and there are zeros behind.
fn is_intact(head: &[u8], body: &[u8], sum: u32, padding: &[u8]) -> bool
    ensures { IsTrue result ↔ (to_le_bytes w32 sum ≡ to_le_bytes w32 (crc32c (head.now ++ body.now))) × All (λ byte. byte ≡ 0) padding.now }
{
    is_zero(padding) && sum == sum_of(head, body)
}

fn read_parts<'a>(bytes: &'a [u8], number: u64) -> Option<Parts<'a>>
    ensures { MatchOption result ((count : ℕ) (body rest : List ℕ) → ¬ (BeginsWithParts bytes.now number count body rest))
        (λ parts. IsCut bytes.now number parts.count parts.body.now parts.units) }
{
    let mut fields = Fields::new(bytes);
    let head = fields.bytes(SUMMED_HEAD)?;
    let sum = fields.u32()?;
    let Head { count, size } = read_head(head, number)?;
    let body = fields.bytes(size as usize)?;
    let padding = fields.bytes(padding_of(body.len()))?;
    if is_intact(head, body, sum, padding) {
        let units = units_of_body(body.len()) as u32;
        Some(Parts { count, body, units })
    } else {
        None
    }
}

/// The record of this number at the front of bytes that begin at a unit, or None where no valid one stands there: where its magic,
/// number, checksum or count is another, its body is no spelling of operations, a byte behind its body isn't zero, it reaches past
/// the bytes, or the number isn't below 2^62. It looks at each byte of the record once for the checksum and once for the operations,
/// and allocates no more than these ask for.
pub fn read_record(
    alloc: Global,
    bytes: &[u8],
    number: u64,
) -> Result<Option<FoundRecord>, AllocError>
    ensures { IfOk result (λ found. MatchOption found ((ops : List RowOp) (rest : List ℕ) → ¬ (BeginsWithRecord bytes.now number ops rest))
        (IsAtFront bytes.now number)) }
{
    let Some(parts) = read_parts(bytes, number) else {
        return Ok(None);
    };
    let Some(ops) = decode(alloc, parts.body)? else {
        return Ok(None);
    };
    if number < NUMBER_LIMIT && ops.len() == parts.count as usize {
        let ops = Items::from_vec(ops);
        let units = parts.units;
        Ok(Some(FoundRecord { ops, units }))
    } else {
        Ok(None)
    }
}

/// How many units the record of this number takes that stands at the front of these bytes, as its head says; or None where no valid one
/// stands there, whatever follows. The bytes are the beginning of a record, and may be less than all of it, so that one who has a part of
/// the log in memory learns how much `read_record` needs. It looks at the head alone.
pub fn record_units(bytes: &[u8], number: u64) -> Option<u32>
    requires { 20 ≤ length bytes.now }
    ensures { MatchOption result (BeginsNoRecord bytes.now number) (TakesUnits bytes.now number) }
{
    let head = read_head(&bytes[..SUMMED_HEAD], number)?;
    Some(units_of_body(head.size as usize) as u32)
}

// The bytes behind so many units.
fn behind(bytes: &[u8], units: u32) -> &[u8]
    requires { 4096 * units ≤ length bytes.now }
    ensures { result.now ≡ drop (4096 * units) bytes.now }
{
    let start = units as usize * UNIT_BYTES;
    &bytes[start..]
}

/// All records of a half of the log, of consecutive numbers from `first` on, up to the first place where the record of the next
/// number isn't valid. The half may be any bytes; where they aren't whole units, no record ends in the last part. Each unit is looked at
/// in one record at most, but that an invalid record may be looked at up to the half's end. A mount, which wants little memory, calls
/// `read_record` for one after another instead. (Ceph: RocksDB's recovery of its write-ahead log.)
pub fn scan(alloc: Global, half: &[u8], first: u64) -> Result<FoundLog, AllocError>
    ensures { IfOk result (IsLogOf half.now first) }
{
    let mut records = Vec::new(alloc);
    let mut left = half;
    let mut next_number = first;
    let mut next_unit = 0u64;
    'records: while let Some(found) = read_record(alloc, left, next_number)? {
        left = behind(left, found.units);
        next_unit += u64::from(found.units);
        next_number += 1;
        records.push(found.ops)?;
    }
    let records = Items::from_vec(records);
    Ok(FoundLog {
        records,
        next_number,
        next_unit,
    })
}
