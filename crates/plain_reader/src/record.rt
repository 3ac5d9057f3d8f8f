//! Records of the log, and the rows that their operations make.

use crate::reader::{Reader, are_zeros, number_at};
use byte_maps::{ByteMap, Bytes};
use crc32c_csum::Digest;
use std::alloc::{AllocError, Global};

/// Rows by their keys.
pub type Rows = ByteMap<Bytes>;

/// The body of a valid record.
#[derive(Clone, Copy)]
pub struct Record<'a> {
    body: &'a [u8],
    count: u64,
    /// What stands behind its last unit.
    pub rest: &'a [u8],
}

/// An operation on a row: 1 sets it, 2 drops it, which has no value, and 3 turns the bits that the value names.
#[derive(Clone, Copy)]
struct Change<'a> {
    code: u64,
    key: &'a [u8],
    value: &'a [u8],
}

fn read_change<'a>(fields: &mut Reader<'a>) -> Change<'a> {
    let code = fields.number(1);
    let key = fields.counted(2);
    let value = if code == 2 { &[] } else { fields.counted(4) };
    if code == 0 || 3 < code || key.is_empty() || 1024 < key.len() {
        fields.fail();
    }
    Change { code, key, value }
}

/// Whether the body is exactly so many operations.
fn has_changes(body: &[u8], count: u64) -> bool {
    let mut fields = Reader::new(body);
    for _ in 0..count {
        if fields.is_empty() {
            return false;
        }
        let _change = read_change(&mut fields);
    }
    fields.is_done()
}

/// The checksum of a record, of what stands before it and of the body.
fn sum_of(head: &[u8], body: &[u8]) -> u32 {
    let mut digest = Digest::new();
    digest.update(head);
    digest.update(body);
    digest.finish()
}

/// Whether whole units are a record of this body by their first bytes and their checksum, with zeros behind the body.
fn is_record(whole: &[u8], body: &[u8]) -> bool {
    whole.starts_with(b"BREC")
        && are_zeros(whole, body.len().saturating_add(24))
        && number_at(whole, 20, 4) == u64::from(sum_of(whole.get(..20).unwrap_or(&[]), body))
}

/// The record of this number at the front of the bytes, if a valid one stands there.
pub fn read_record(bytes: &[u8], number: u64) -> Option<Record<'_>> {
    let len = number_at(bytes, 4, 4) as usize;
    let units = len.saturating_add(24).div_ceil(4096);
    let (whole, rest) = bytes.split_at_checked(units.saturating_mul(4096))?;
    let body = whole.get(24..len.saturating_add(24)).unwrap_or(&[]);
    let count = number_at(whole, 16, 4);
    if number_at(whole, 8, 8) == number && is_record(whole, body) && has_changes(body, count) {
        Some(Record { body, count, rest })
    } else {
        None
    }
}

/// Puts a value under a copy of a key.
fn put(alloc: Global, rows: &mut Rows, key: &[u8], value: Vec<u8>) -> Result<(), AllocError> {
    match Bytes::from_slice(alloc, key) {
        Ok(key) => rows.insert(key, Bytes::from_vec(value)),
        Err(out) => Err(out),
    }
}

/// The exclusive-or, the shorter filled up with zeros.
fn xored(alloc: Global, one: &[u8], other: &[u8]) -> Result<Vec<u8>, AllocError> {
    let (short, long) = if one.len() < other.len() {
        (one, other)
    } else {
        (other, one)
    };
    let mut bytes = long.to_vec(alloc)?;
    for (byte, with) in bytes.iter_mut().zip(short) {
        *byte ^= *with;
    }
    Ok(bytes)
}

/// The value of a row.
fn value_of<'a>(rows: &'a Rows, key: &[u8]) -> &'a [u8] {
    match rows.get(key) {
        Some(value) => value.as_slice(),
        None => &[],
    }
}

/// Turns the bits of a row that a mask names. A row of zeros is none.
fn flip(alloc: Global, rows: &mut Rows, key: &[u8], mask: &[u8]) -> Result<(), AllocError> {
    match xored(alloc, value_of(rows, key), mask) {
        Ok(value) => {
            if are_zeros(&value, 0) {
                drop(rows.take(key));
                Ok(())
            } else {
                put(alloc, rows, key, value)
            }
        }
        Err(out) => Err(out),
    }
}

fn make(alloc: Global, rows: &mut Rows, change: &Change<'_>) -> Result<(), AllocError> {
    match change.code {
        1 => match change.value.to_vec(alloc) {
            Ok(value) => put(alloc, rows, change.key, value),
            Err(out) => Err(out),
        },
        3 => flip(alloc, rows, change.key, change.value),
        _ => {
            drop(rows.take(change.key));
            Ok(())
        }
    }
}

/// Makes the record's changes of the rows.
pub fn make_all(alloc: Global, rows: &mut Rows, record: &Record<'_>) -> Result<(), AllocError> {
    let mut fields = Reader::new(record.body);
    for _ in 0..record.count {
        make(alloc, rows, &read_change(&mut fields))?;
    }
    Ok(())
}
