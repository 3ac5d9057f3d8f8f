//! Records of the log, made and cut into pieces.
//!
//! A sealed record keeps its operations, which become rows when it is committed, and not its bytes: a piece is spelled when it is asked
//! for. Of a record of several pieces it knows where each begins among the operations, and the checksum, for which they were spelled once
//! before, one by one. So what a record takes beside its operations is a piece.
//!
//! A piece that was asked for doesn't count as given until the device took it, so that a submission refused for want of memory leaves all
//! as it was.
ghost use Rattle.std.specs.Prelude.{◌≡◌, ℕ, ◌+◌, ◌-◌, ◌*◌, ◌/◌, ◌^◌, ◌<◌, ◌≤◌, ◌++◌, length, take, drop, IfOk, OnOk};
ghost use Rattle.std.specs.Int.{w32, to_le_bytes};
ghost use Rattle.byte_maps.specs.Units.{units_for, units_from, in_units};
ghost use Rattle.crc32c_csum.specs.Prelude.{all_ones, remainder, crc32c};
ghost use Rattle.meta_rows.specs.Prelude.{ops_bytes, ops_before};
ghost use Rattle.meta_log.specs.Records.{head_of, record_head, record_bytes, record_units, unit_count};
ghost use Rattle.meta_log.specs.Pieces.{piece_count, piece_first, piece_units, body_before};
ghost use Rattle.meta_log.specs.Sealed.{IsSealable, sealed_units, piece_bytes, IsCutInto, IsSpelled};

use crc32c_csum::Digest;
use meta_rows::{OpCursor, RowOp, encode, encoded_len};
use std::alloc::{AllocError, Global};
use std::marker::Model;
use unit_fields::limits::{PIECE_UNITS, UNIT_BYTES};
use unit_fields::{push_u32_le, push_u64_le};

pub(crate) const MAGIC: [u8; 4] = *b"BREC";

/// The bytes of a record before its body.
pub const HEAD_BYTES: usize = 24;

/// A record of the log, ready to be written: its number and its operations. It is seen as these two.
///
/// In Ceph it is a record of RocksDB's write-ahead log, for one synchronized write batch.
#[derive(Drop)]
pub struct SealedRecord {
    number: u64,
    ops: Vec<RowOp>,
    // The bytes of the body.
    size: usize,
    units: u32,
    cut: Cut,
}

// How a record of several pieces is cut, and the checksum of its head and body. Of a record of one piece neither is reckoned before it is
// written.
#[derive(Drop)]
struct Cut {
    // Where the pieces begin among the operations, the one with the head first.
    starts: Vec<OpCursor>,
    sum: u32,
}

impl Model for SealedRecord {
    ghost use Rattle.meta_log.specs.Sealed.{Sealed, IsSpelled};

    ghost Value = { Sealed };

    ghost view = { λ a. record { number = a.number; ops = a.ops.items } };

    ghost invariant = { λ a. IsSpelled a.number a.ops.items a.size a.units a.cut };
}

// How many units hold so many bytes.
pub(crate) fn units_of(bytes: usize) -> usize
    requires { bytes < 2 ^ 44 }
    ensures { result ≡ units_for bytes }
{
    (bytes + (UNIT_BYTES - 1)) / UNIT_BYTES
}

/// How many units a record takes whose operations are spelled in so many bytes.
pub fn units_of_body(bytes: usize) -> usize
    requires { bytes < 2 ^ 43 }
    ensures { result ≡ units_for (24 + bytes) }
{
    units_of(HEAD_BYTES + bytes)
}

// Writes a head but for its checksum: of a body of so many bytes, of so many operations.
pub(crate) fn push_head(
    out: &mut Vec<u8>,
    number: u64,
    count: u32,
    size: u32,
) -> Result<(), AllocError>
    ensures { OnOk result (out.new.items ≡ out.old.items ++ head_of number count size) }
{
    out.extend_from_slice(&MAGIC)?;
    push_u32_le(out, size)?;
    push_u64_le(out, number)?;
    push_u32_le(out, count)
}

// The head but for its checksum, in a buffer with room for the whole record.
fn head(alloc: Global, number: u64, ops: &[RowOp], body: &[u8]) -> Result<Vec<u8>, AllocError>
    requires ops { length ops.now < 2 ^ 32 }
    requires body { length body.now < 2 ^ 32 }
    ensures { IfOk result (λ head. head.items ≡ head_of number (length ops.now) (length body.now)) }
{
    let mut head = Vec::with_capacity(alloc, units_of_body(body.len()) * UNIT_BYTES)?;
    push_head(&mut head, number, ops.len() as u32, body.len() as u32)?;
    Ok(head)
}

// The checksum of two parts, one behind the other.
pub(crate) fn sum_of(head: &[u8], body: &[u8]) -> u32
    ensures { result ≡ crc32c (head.now ++ body.now) }
{
    let mut digest = Digest::new();
    digest.update(head);
    digest.update(body);
    digest.finish()
}

// Fills a record up with zeros to whole units.
fn fill(bytes: &mut Vec<u8>) -> Result<(), AllocError>
    requires { length bytes.old.items < 2 ^ 33 }
    ensures { OnOk result (bytes.new.items ≡ in_units bytes.old.items) }
{
    let units = units_of(bytes.len());
    bytes.resize(units * UNIT_BYTES, 0)
}

fn spelled(alloc: Global, number: u64, ops: &[RowOp]) -> Result<Vec<u8>, AllocError>
    requires { IsSealable number ops.now }
    ensures { IfOk result (λ bytes. bytes.items ≡ record_units number ops.now) }
{
    let body = encode(alloc, ops)?;
    let mut bytes = head(alloc, number, ops, &body)?;
    let sum = sum_of(&bytes, &body);
    push_u32_le(&mut bytes, sum)?;
    bytes.extend_from_slice(&body)?;
    fill(&mut bytes)?;
    Ok(bytes)
}

// How many bytes of a body, of so many, lie before a unit of its record.
pub(crate) fn body_before(size: usize, unit: u32) -> usize
    ensures { result ≡ body_before size unit }
{
    let bytes = unit as usize * UNIT_BYTES;
    size.min(bytes.saturating_sub(HEAD_BYTES))
}

// How many pieces so many units make.
pub(crate) fn pieces_of(units: u32) -> u32
    ensures { result ≡ piece_count units }
{
    (units / PIECE_UNITS) + u32::from(units % PIECE_UNITS != 0)
}

// The checksum in the making, over a head.
pub(crate) fn head_digest(
    alloc: Global,
    number: u64,
    count: u32,
    size: u32,
) -> Result<Digest, AllocError>
    ensures { IfOk result (λ digest. digest ≡ remainder all_ones (head_of number count size)) }
{
    let mut head = Vec::with_capacity(alloc, HEAD_BYTES)?;
    push_head(&mut head, number, count, size)?;
    let mut digest = Digest::new();
    digest.update(&head);
    Ok(digest)
}

// Cuts a record of so many units, whose body has so many bytes, and spells it for the checksum, piece by piece.
fn cut_up(
    alloc: Global,
    number: u64,
    ops: &[RowOp],
    size: usize,
    units: u32,
) -> Result<Cut, AllocError>
    requires sealable { IsSealable number ops.now }
    requires size { size ≡ length (ops_bytes ops.now) }
    requires units { units ≡ unit_count number ops.now }
    ensures { IfOk result (IsCutInto number ops.now) }
{
    let pieces = pieces_of(units);
    let mut starts = Vec::with_capacity(alloc, pieces as usize)?;
    let mut digest = head_digest(alloc, number, ops.len() as u32, size as u32)?;
    let mut at = OpCursor::start();
    for k in 0..pieces {
        starts.push(at)?;
        let count = body_before(size, (k + 1) * PIECE_UNITS) - body_before(size, k * PIECE_UNITS);
        let bytes = at.spelled(alloc, ops, count)?;
        digest.update(&bytes);
        at = at.behind(ops, count);
    }
    Ok(Cut {
        starts,
        sum: digest.finish(),
    })
}

// How a record is cut: one of one piece isn't.
fn cut_if_several(
    alloc: Global,
    number: u64,
    ops: &[RowOp],
    size: usize,
    units: u32,
) -> Result<Cut, AllocError>
    requires sealable { IsSealable number ops.now }
    requires size { size ≡ length (ops_bytes ops.now) }
    requires units { units ≡ unit_count number ops.now }
    ensures { IfOk result (λ c. 64 < units → IsCutInto number ops.now c) }
{
    if units > PIECE_UNITS {
        return cut_up(alloc, number, ops, size, units);
    }
    Ok(Cut {
        starts: Vec::new(alloc),
        sum: 0,
    })
}

// A head, a checksum, and bytes of the body.
pub(crate) fn headed(
    alloc: Global,
    number: u64,
    count: u32,
    size: u32,
    sum: u32,
    body: &[u8],
) -> Result<Vec<u8>, AllocError>
    ensures { IfOk result (λ bytes. bytes.items ≡ head_of number count size ++ to_le_bytes w32 sum ++ body.now) }
{
    let mut bytes = Vec::with_capacity(alloc, body.len().saturating_add(HEAD_BYTES))?;
    push_head(&mut bytes, number, count, size)?;
    push_u32_le(&mut bytes, sum)?;
    bytes.extend_from_slice(body)?;
    Ok(bytes)
}

impl SealedRecord {
    /// The record of this number with these operations.
    pub fn seal(alloc: Global, number: u64, ops: Vec<RowOp>) -> Result<SealedRecord, AllocError>
        requires { IsSealable number ops.items }
        ensures { IfOk result (λ made. made ≡ record { number = number; ops = ops.items }) }
    {
        let size = encoded_len(&ops);
        let units = units_of_body(size) as u32;
        let cut = cut_if_several(alloc, number, &ops, size, units)?;
        Ok(SealedRecord {
            number,
            ops,
            size,
            units,
            cut,
        })
    }

    /// The units that it takes in the log, at least one.
    pub fn units(&self) -> u32
        ensures units { result ≡ sealed_units self.now }
        ensures sealable { IsSealable self.now.number self.now.ops }
    {
        self.units
    }

    /// Its number. Those of the active half are consecutive.
    pub fn number(&self) -> u64
        ensures { result ≡ self.now.number }
    {
        self.number
    }

    /// The operations, lent.
    pub fn ops(&self) -> &[RowOp]
        ensures { result.now ≡ self.now.ops }
    {
        &self.ops
    }

    /// The operations, to be applied to the rows once the record is on the device.
    pub fn into_ops(self) -> Vec<RowOp>
        ensures { result.items ≡ self.ops }
    {
        self.ops
    }

    /// How many pieces it is written in, at least one.
    pub fn pieces(&self) -> u32
        ensures { result ≡ piece_count (sealed_units self.now) }
    {
        pieces_of(self.units())
    }

    // The bytes of so many units from where a piece begins, without the zeros that fill up the last. Pieces are counted from the one with
    // the head.
    fn unfilled(&self, alloc: Global, piece: u32, count: u32) -> Result<Vec<u8>, AllocError>
        requires several { 64 < sealed_units self.now }
        requires some { 0 < count }
        requires within { 64 * piece + count ≤ sealed_units self.now }
        ensures { IfOk result (λ bytes. bytes.items ≡ take (4096 * count) (drop (4096 * (64 * piece)) (record_bytes self.now.number self.now.ops))) }
    {
        let whole = self.size;
        let first = piece * PIECE_UNITS;
        let size = body_before(whole, first + count) - body_before(whole, first);
        let start = self.cut.starts[piece as usize];
        let body = start.spelled(alloc, &self.ops, size)?;
        if piece != 0 {
            return Ok(body);
        }
        let ops = self.ops.len() as u32;
        headed(alloc, self.number, ops, whole as u32, self.cut.sum, &body)
    }

    /// A piece, by its place in the order of writing: its first unit within the record, and its bytes, which are made here. The last one
    /// begins at unit 0, so that the head of a record comes to the device behind its body.
    pub fn piece(&self, alloc: Global, k: u32) -> Result<(u32, Vec<u8>), AllocError>
        requires { k < piece_count (sealed_units self.now) }
        ensures first { IfOk result (λ piece. piece.0 ≡ piece_first (sealed_units self.now) k) }
        ensures bytes { IfOk result (λ piece. piece.1.items ≡ piece_bytes self.now k) }
    {
        let units = self.units();
        if units <= PIECE_UNITS {
            return Ok((0, spelled(alloc, self.number, &self.ops)?));
        }
        let piece = self.pieces() - 1 - k;
        let first = piece * PIECE_UNITS;
        let count = PIECE_UNITS.min(units - first);
        let mut bytes = self.unfilled(alloc, piece, count)?;
        bytes.resize(count as usize * UNIT_BYTES, 0)?;
        Ok((first, bytes))
    }
}
