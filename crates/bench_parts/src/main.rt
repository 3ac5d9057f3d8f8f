//! Times single calls, on data that it makes. With no arguments it does nothing.
//!
//! - `csum BYTES ROUNDS` makes the checksum of so many bytes, so often. It prints nanoseconds, and the checksums in one number.
//! - `scan UNITS ROWS` reads a full half of the log, whose records have a unit each and set so many rows. It prints nanoseconds, the
//!   records that were found, and the bytes that went in.
//! - `apply ROWS ORDER` applies that many sets to no rows, in one batch for which room was made, and `all ROWS ORDER` the same by the
//!   call that makes its own; ORDER is `ascending`, `falling` or `scrambled`. They print nanoseconds, whether the last row is there, and
//!   the bytes that went in.
//! - `grow ROWS ORDER` applies them one by one, and prints the nanoseconds of all rows, and of the last thousand.
//!
//! Proved: nothing but that it is total: it is safe and returns.
#![tactic(auto)]

use byte_maps::Bytes;
use crc32c_csum::{Digest, crc32c};
use meta_log::scan;
use meta_rows::{RowOp, RowTable};
use std::alloc::{AllocError, Global};
use std::time::Instant;
use std::{env, io};

const UNIT_BYTES: usize = 4096;

// The bytes of a record before its body.
const HEAD_BYTES: usize = 24;

const KEY_BYTES: usize = 24;

// The bytes of a set beside its key and its value.
const SET_BYTES: usize = 7;

// The bytes of a value, where not the record's size sets it.
const VALUE_BYTES: usize = 100;

// In which order the keys come.
#[derive(Clone, Copy)]
enum Order {
    Ascending,
    Falling,
    Scrambled,
}

fn order_of(word: Option<String>) -> Order {
    let Some(word) = word else {
        return Order::Ascending;
    };
    match word.as_str() {
        "falling" => Order::Falling,
        "scrambled" => Order::Scrambled,
        _ => Order::Ascending,
    }
}

// The number of the key that comes at a place.
fn number_at(place: u32, rows: u32, order: Order) -> u64 {
    match order {
        Order::Ascending => u64::from(place),
        Order::Falling => u64::from(rows).wrapping_sub(u64::from(place) + 1),
        Order::Scrambled => u64::from(place) * 7919 % u64::from(rows.max(1)),
    }
}

// The number in an argument, if there is one and it is a number.
fn number(word: Option<String>) -> Option<u32> {
    word?.parse::<u32>().ok()
}

// A key; keys are in the order of their numbers.
fn key(alloc: Global, number: u64) -> Result<Vec<u8>, AllocError> {
    let mut key = Vec::with_capacity(alloc, KEY_BYTES)?;
    key.extend_from_slice(b"Obench_parts_row")?;
    key.extend_from_slice(&number.to_be_bytes())?;
    Ok(key)
}

// The spelling of so many sets, which together have a unit less a record's head, but for what the division leaves.
fn body(alloc: Global, record: u64, rows: u32) -> Result<Vec<u8>, AllocError> {
    let share = (UNIT_BYTES - HEAD_BYTES) / rows.max(1) as usize;
    let value = vec![in alloc; 0x5au8; share.saturating_sub(SET_BYTES + KEY_BYTES)]?;
    let mut body = Vec::with_capacity(alloc, UNIT_BYTES)?;
    for i in 0..rows {
        body.extend_from_slice(b"\x01\x18\x00")?;
        body.extend_from_slice(&key(alloc, record.wrapping_mul(64).wrapping_add(u64::from(i)))?)?;
        body.extend_from_slice(&(value.len() as u32).to_le_bytes())?;
        body.extend_from_slice(&value)?;
    }
    Ok(body)
}

// The record of this number, one unit.
fn record(alloc: Global, number: u64, rows: u32) -> Result<Vec<u8>, AllocError> {
    let body = body(alloc, number, rows)?;
    let mut record = Vec::with_capacity(alloc, UNIT_BYTES)?;
    record.extend_from_slice(b"BREC")?;
    record.extend_from_slice(&((body.len() % UNIT_BYTES) as u32).to_le_bytes())?;
    record.extend_from_slice(&number.to_le_bytes())?;
    record.extend_from_slice(&rows.to_le_bytes())?;
    let mut digest = Digest::new();
    digest.update(&record);
    digest.update(&body);
    record.extend_from_slice(&digest.finish().to_le_bytes())?;
    record.extend_from_slice(&body)?;
    record.resize(UNIT_BYTES, 0)?;
    Ok(record)
}

// A half of so many units, full of records.
fn full_half(alloc: Global, units: u32, rows: u32) -> Result<Vec<u8>, AllocError> {
    let mut half = Vec::with_capacity(alloc, units as usize * UNIT_BYTES)?;
    for number in 0..units {
        half.extend_from_slice(&record(alloc, u64::from(number), rows)?)?;
    }
    Ok(half)
}

// Sets of so many rows, each key once.
fn sets(alloc: Global, rows: u32, order: Order) -> Result<Vec<RowOp>, AllocError> {
    let mut ops = Vec::with_capacity(alloc, rows as usize)?;
    for i in 0..rows {
        let key = Bytes::from_vec(key(alloc, number_at(i, rows, order))?);
        let value = Bytes::from_vec(vec![in alloc; 0x5au8; VALUE_BYTES]?);
        ops.push(RowOp::Set { key, value })?;
    }
    Ok(ops)
}

// Some bytes, none like its neighbour.
fn pattern(alloc: Global, length: u32) -> Result<Vec<u8>, AllocError> {
    let mut bytes = vec![in alloc; 0u8; length as usize]?;
    for (i, byte) in bytes.iter_mut().enumerate() {
        *byte = (i % 251) as u8;
    }
    Ok(bytes)
}

// The checksums of the rounds in one number. Each round changes the first byte, so that no round can be left out.
fn csums(bytes: &mut [u8], rounds: u32) -> u32 {
    let mut all = 0u32;
    for round in 0..rounds {
        if let Some(first) = bytes.first_mut() {
            *first = (round % 256) as u8;
        }
        all = all.rotate_left(1) ^ crc32c(bytes);
    }
    all
}

fn time_csum(rt: HostRuntime, length: u32, rounds: u32) -> io::Result<()> {
    let mut bytes = pattern(rt.alloc(), length)?;
    let start = Instant::now(&rt)?;
    let all = csums(&mut bytes, rounds);
    let taken = start.elapsed(&rt)?;
    println!(rt; "{} {all:08x}", taken.as_nanos())
}

fn time_scan(rt: HostRuntime, units: u32, rows: u32) -> io::Result<()> {
    let half = full_half(rt.alloc(), units, rows)?;
    let start = Instant::now(&rt)?;
    let log = scan(rt.alloc(), &half, 0)?;
    let taken = start.elapsed(&rt)?;
    println!(rt; "{} {} {}", taken.as_nanos(), log.records.len(), half.len())
}

// Prints what a batch took.
fn print_batch(rt: HostRuntime, taken: u128, rows: u32, table: &RowTable) -> io::Result<()> {
    let last = key(rt.alloc(), u64::from(rows.saturating_sub(1)))?;
    let bytes = u64::from(rows) * (KEY_BYTES + VALUE_BYTES) as u64;
    println!(rt; "{} {} {bytes}", taken, table.get(&last).is_some())
}

fn time_apply(rt: HostRuntime, rows: u32, order: Order) -> io::Result<()> {
    let ops = sets(rt.alloc(), rows, order)?;
    let mut table = RowTable::new(rt.alloc());
    table.reserve(ops.len())?;
    let start = Instant::now(&rt)?;
    table.apply(ops);
    let taken = start.elapsed(&rt)?;
    print_batch(rt, taken.as_nanos(), rows, &table)
}

fn time_all(rt: HostRuntime, rows: u32, order: Order) -> io::Result<()> {
    let ops = sets(rt.alloc(), rows, order)?;
    let mut table = RowTable::new(rt.alloc());
    let start = Instant::now(&rt)?;
    table.apply_all(rt.alloc(), ops)?;
    let taken = start.elapsed(&rt)?;
    print_batch(rt, taken.as_nanos(), rows, &table)
}

// Rows that come one by one, each by its own `reserve` and `apply`: the nanoseconds of all, and of the last thousand.
fn time_grow(rt: HostRuntime, rows: u32, order: Order) -> io::Result<()> {
    let ops = sets(rt.alloc(), rows, order)?;
    let mut table = RowTable::new(rt.alloc());
    let start = Instant::now(&rt)?;
    let mut late = start;
    let mut left = ops.len();
    for op in ops {
        if left == 1000 {
            late = Instant::now(&rt)?;
        }
        let one = vec![in rt.alloc(); op]?;
        table.reserve(1)?;
        table.apply(one);
        left = left.saturating_sub(1);
    }
    let taken = start.elapsed(&rt)?;
    let last = late.elapsed(&rt)?;
    println!(rt; "{} {}", taken.as_nanos(), last.as_nanos())
}

fn main(rt: HostRuntime) -> io::Result<()> {
    let mut words = env::args(&rt)?;
    let _program = words.next();
    let (Some(what), Some(count)) = (words.next(), number(words.next())) else {
        return Ok(());
    };
    let how = words.next();
    match what.as_str() {
        "csum" => time_csum(rt, count, number(how).unwrap_or(1)),
        "scan" => time_scan(rt, count, number(how).unwrap_or(1)),
        "apply" => time_apply(rt, count, order_of(how)),
        "all" => time_all(rt, count, order_of(how)),
        "grow" => time_grow(rt, count, order_of(how)),
        _ => Ok(()),
    }
}
