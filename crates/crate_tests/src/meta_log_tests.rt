//! A slot and a record spelled by hand, and records that are changed or torn.

use crate::cases::first_false;
use byte_maps::Bytes;
use meta_log::{SealedRecord, Super, scan};
use meta_rows::RowOp;
use std::alloc::{AllocError, Global};

const UNIT: usize = 4096;

const SUPER: Super = Super {
    units: 1024,
    half: 64,
    prefer: 32768,
    epoch: 6,
    first: 1000,
};

// The bytes other than zero of the slot that says so, with their places. The checksum was made by another program.
const SLOT: &[(usize, &[u8])] = &[
    (0, b"BSTORE01"),
    (8, &[1]),
    (13, &[4]),
    (16, &[64]),
    (21, &[0x80]),
    (24, &[6]),
    (32, &[0xe8, 0x03]),
    (4092, &[0xda, 0xcd, 0xb1, 0x46]),
];

// The record of number 7 that makes the collection `1.0_head`. Its checksum was made by another program.
const RECORD: &[u8] =
    b"BREC\x10\0\0\0\x07\0\0\0\0\0\0\0\x01\0\0\0\x0d\xf9\xd6\x1d\x01\x09\0C1.0_head\0\0\0\0";

fn put(bytes: &mut [u8], at: usize, piece: &[u8]) {
    for (place, byte) in bytes.iter_mut().skip(at).zip(piece) {
        *place = *byte;
    }
}

// A unit of zeros, with these bytes at their places.
fn laid(alloc: Global, parts: &[(usize, &[u8])]) -> Result<Vec<u8>, AllocError> {
    let mut bytes = vec![in alloc; 0u8; UNIT]?;
    for (at, piece) in parts {
        put(&mut bytes, *at, piece);
    }
    Ok(bytes)
}

// Whether the slot is written so, and read again.
fn is_slot(alloc: Global) -> Result<bool, AllocError> {
    let unit = laid(alloc, SLOT)?;
    let written = SUPER.write(alloc)?;
    Ok(written == unit && Super::read(&unit, 0) == Some(SUPER))
}

// Whether a record of number 7 is found at the front.
fn is_found(alloc: Global, half: &[u8]) -> Result<bool, AllocError> {
    Ok(!scan(alloc, half, 7)?.records.is_empty())
}

fn turn(bytes: &mut [u8], bit: usize) {
    if let Some(byte) = bytes.get_mut(bit / 8) {
        *byte ^= 1 << (bit % 8);
    }
}

// How many bits of the record's unit there are with which turned it is found.
fn bits_that_pass(alloc: Global) -> Result<u32, AllocError> {
    let mut unit = laid(alloc, &[(0, RECORD)])?;
    let mut count = 0u32;
    for bit in 0..8 * UNIT {
        turn(&mut unit, bit);
        if is_found(alloc, &unit)? {
            count = count.saturating_add(1);
        }
        turn(&mut unit, bit);
    }
    Ok(count)
}

// Whether the record is found where no bit is turned.
fn is_found_whole(alloc: Global) -> Result<bool, AllocError> {
    is_found(alloc, &laid(alloc, &[(0, RECORD)])?)
}

// The record of number 7 that makes the collection, with so many units of bytes as its row's value.
fn sealed(alloc: Global, more: u8) -> Result<SealedRecord, AllocError> {
    let key = Bytes::from_slice(alloc, b"C1.0_head")?;
    let value = Bytes::from_vec(vec![in alloc; 0xabu8; usize::from(more) * UNIT]?);
    SealedRecord::seal(alloc, 7, vec![in alloc; RowOp::Set { key, value }]?)
}

// A half of 66 units with the first pieces of such a record, in the order of writing.
fn written(alloc: Global, more: u8, pieces: u32) -> Result<Vec<u8>, AllocError> {
    let made = sealed(alloc, more)?;
    let mut half = vec![in alloc; 0u8; 66 * UNIT]?;
    for k in 0..pieces.min(made.pieces()) {
        let (first, bytes) = made.piece(alloc, k)?;
        put(&mut half, first as usize * UNIT, &bytes);
    }
    Ok(half)
}

// Whether the record is written as it is spelled by hand.
fn is_record(alloc: Global) -> Result<bool, AllocError> {
    let wanted = laid(alloc, &[(0, RECORD)])?;
    Ok(written(alloc, 0, 1)?.get(..UNIT) == Some(wanted.as_slice()))
}

// A record of one unit more than so many, of which some pieces are written, and one unit isn't: whether it is found. The piece with the head is
// written last.
type Torn = (u8, u32, u8, bool);

static TORN: [Torn; 11] = [
    (1, 1, 65, true),
    (1, 1, 0, false),
    (1, 1, 1, false),
    (64, 2, 65, true),
    (64, 1, 65, false),
    (64, 2, 64, false),
    (64, 2, 63, false),
    (64, 2, 30, false),
    (64, 2, 1, false),
    (64, 2, 0, false),
    (66, 2, 255, false),
];

fn is_found_torn(alloc: Global, torn: &Torn) -> Result<bool, AllocError> {
    let mut half = written(alloc, torn.0, torn.1)?;
    put(&mut half, usize::from(torn.2) * UNIT, &[0; UNIT]);
    is_found(alloc, &half)
}

/// The place of the first of these that comes out otherwise.
pub fn first_wrong_torn(alloc: Global) -> Result<Option<usize>, AllocError> {
    for (i, torn) in TORN.iter().enumerate() {
        if is_found_torn(alloc, torn)? != torn.3 {
            return Ok(Some(i));
        }
    }
    Ok(None)
}

/// Which comes out otherwise: the slot, the record, its reading, or that of the record with a bit turned.
pub fn first_wrong(alloc: Global) -> Result<Option<usize>, AllocError> {
    Ok(first_false(&[
        is_slot(alloc)?,
        is_record(alloc)?,
        is_found_whole(alloc)?,
        bits_that_pass(alloc)? == 0,
    ]))
}
