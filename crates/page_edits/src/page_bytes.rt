//! What the units that a transaction takes are to hold, once the old bytes of its pages are there.
ghost use Rattle.std.specs.Prelude.{◌≡◌, ◌+◌, ◌-◌, ◌*◌, ◌<◌, ◌≤◌, List, ℕ, length, unwrap_or, option_copied, IfOk};
ghost use Rattle.std.specs.List.{AllByRecursion};
ghost use Rattle.byte_maps.specs.Units.{zeros};
ghost use Rattle.object_model.specs.Prelude.{object_limit};
ghost use Rattle.plan_drafts.specs.Drafts.{none_held};
ghost use Rattle.plan_drafts.specs.Edits.{end_of, bytes_read, page_after, IsInLimits};
ghost use Rattle.page_edits.specs.declared.writes.OldBytes.TheVariants.{Put};
ghost use Rattle.page_edits.specs.Writes.{widest, old_bytes, whole_or_zeros, held_old, bytes_made, after_writes, held_in, CanBeMade};

use crate::ranges::{covers_whole, page_start, span_in};
use crate::writes::{OldBytes, PageWrite};
use byte_maps::Items;
use bytes::Bytes as SharedBytes;
use object_model::Op;
use plan_rows::ReadUnit;
use std::alloc::{AllocError, Global};
use std::mem;
use unit_fields::UnitNo;
use unit_fields::limits::{OBJECT_LIMIT, UNIT_BYTES};

// The old bytes that were read of a unit. None: it wasn't read.
fn bytes_read<'a>(read: &'a [ReadUnit], unit: UnitNo) -> Option<&'a SharedBytes>
    ensures { unwrap_or (option_copied result) (zeros 4096) ≡ bytes_read read.now unit }
{
    for one in read {
        if one.unit == unit {
            return Some(&one.bytes);
        }
    }
    None
}

// A unit of zeros.
fn zero_unit(alloc: Global) -> Result<Vec<u8>, AllocError>
    ensures bytes { IfOk result (λ bytes. bytes.items ≡ zeros 4096) }
    ensures whole { IfOk result (λ bytes. length bytes.items ≡ 4096) }
{
    vec![in alloc; 0u8; UNIT_BYTES]
}

// A copy of a page, and zeros for what isn't one.
fn copy_of(alloc: Global, bytes: &[u8]) -> Result<Vec<u8>, AllocError>
    ensures bytes { IfOk result (λ copy. copy.items ≡ whole_or_zeros bytes.now) }
    ensures whole { IfOk result (λ copy. length copy.items ≡ 4096) }
{
    if bytes.len() == UNIT_BYTES {
        Vec::from_slice(alloc, bytes)
    } else {
        zero_unit(alloc)
    }
}

// What a unit is to hold so far, and zeros for what isn't a page. It is copied only where others share it.
fn own_bytes(alloc: Global, present: SharedBytes) -> Result<Vec<u8>, AllocError>
    ensures bytes { IfOk result (λ bytes. bytes.items ≡ whole_or_zeros present) }
    ensures whole { IfOk result (λ bytes. length bytes.items ≡ 4096) }
{
    if present.len() != UNIT_BYTES {
        return zero_unit(alloc);
    }
    match present.try_into_mut() {
        Ok(own) => Ok(own.into_vec()?),
        Err(shared) => copy_of(alloc, shared.as_slice()),
    }
}

// The old bytes of a page, to be changed, where the unit that has them is to hold these so far.
fn old_bytes(
    alloc: Global,
    read: &[ReadUnit],
    present: SharedBytes,
    old: OldBytes,
) -> Result<Vec<u8>, AllocError>
    requires { AllByRecursion (λ r. length r.bytes ≡ 4096) read.now }
    ensures bytes { IfOk result (λ bytes. bytes.items ≡ old_bytes read.now present old) }
    ensures whole { IfOk result (λ bytes. length bytes.items ≡ 4096) }
{
    match old {
        OldBytes::Zeros => zero_unit(alloc),
        OldBytes::Put(_) => own_bytes(alloc, present),
        OldBytes::Read(unit) => match bytes_read(read, unit) {
            Some(bytes) => copy_of(alloc, bytes.as_slice()),
            None => zero_unit(alloc),
        },
    }
}

// The bytes of a page that a write covers wholly, shared with those of the write.
fn page_shared(bytes: &SharedBytes, off: u64, page: u32) -> Result<SharedBytes, AllocError>
    requires from { off ≤ 4096 * page }
    requires to { 4096 * page + 4096 ≤ off + length bytes.now }
    ensures { IfOk result (λ new. (old : List ℕ) → new ≡ page_after off bytes.now page old) }
{
    let at = (page_start(page) - off) as usize;
    bytes.slice(at..at + UNIT_BYTES)
}

// The bytes of a page that a write covers in part: its old ones with the piece laid over them.
fn page_patched(
    mut old: Vec<u8>,
    bytes: &SharedBytes,
    off: u64,
    page: u32,
) -> Result<SharedBytes, AllocError>
    requires whole { length old.items ≡ 4096 }
    requires from { off < 4096 * page + 4096 }
    requires to { 4096 * page < off + length bytes.now }
    requires limit { off + length bytes.now ≤ object_limit }
    ensures { IfOk result (λ new. new ≡ page_after off bytes.now page old.items) }
{
    let span = span_in(off, off + bytes.len() as u64, page);
    let at = page_start(page).saturating_sub(off) as usize;
    let piece = &bytes.as_slice()[at..at + (span.end - span.start)];
    old[span].copy_from_slice(piece);
    Ok(SharedBytes::from_vec(old)?)
}

// The bytes of a page that a write touches, where the unit that has its old bytes is to hold these so far.
fn page_written(
    alloc: Global,
    bytes: &SharedBytes,
    off: u64,
    write: &PageWrite,
    read: &[ReadUnit],
    present: SharedBytes,
) -> Result<SharedBytes, AllocError>
    requires from { off < 4096 * write.now.page + 4096 }
    requires to { 4096 * write.now.page < off + length bytes.now }
    requires limit { off + length bytes.now ≤ object_limit }
    requires whole { AllByRecursion (λ r. length r.bytes ≡ 4096) read.now }
    ensures { IfOk result (λ new. new ≡ page_after off bytes.now write.now.page (old_bytes read.now present write.now.old)) }
{
    if covers_whole(off, off + bytes.len() as u64, write.page) {
        page_shared(bytes, off, write.page)
    } else {
        let old = old_bytes(alloc, read, present, write.old)?;
        page_patched(old, bytes, off, write.page)
    }
}

// The bytes of a page of which a range of zeros covers some.
fn page_zeroed(mut old: Vec<u8>, off: u64, end: u64, page: u32) -> Result<SharedBytes, AllocError>
    requires order { off ≤ end }
    requires whole { length old.items ≡ 4096 }
    requires from { off < 4096 * page + 4096 }
    requires to { 4096 * page < end }
    ensures { IfOk result (λ new. new ≡ page_after off (zeros (end - off)) page old.items) }
{
    old[span_in(off, end, page)].fill(0);
    Ok(SharedBytes::from_vec(old)?)
}

// Nothing is to be held yet by so many units.
fn none_held(alloc: Global, takings: u32) -> Result<Vec<SharedBytes>, AllocError>
    ensures held { IfOk result (λ held. held_in held.items ≡ none_held) }
    ensures count { IfOk result (λ held. length held.items ≡ takings) }
{
    let mut held = Vec::new(alloc);
    for taking in 0..takings {
        held.push(SharedBytes::new())?;
    }
    Ok(held)
}

// What a write makes of its page, where the unit that has its old bytes is to hold these so far.
fn page_made(
    alloc: Global,
    op: &Op,
    write: &PageWrite,
    read: &[ReadUnit],
    present: SharedBytes,
) -> Result<SharedBytes, AllocError>
    requires within { IsInLimits op.now }
    requires from { (widest op.now).off < 4096 * write.now.page + 4096 }
    requires to { 4096 * write.now.page < end_of (widest op.now) }
    requires whole { AllByRecursion (λ r. length r.bytes ≡ 4096) read.now }
    ensures { IfOk result (λ new. new ≡ bytes_made op.now read.now present write.now) }
{
    match op {
        Op::Write {
            object: _,
            off,
            bytes,
        } => page_written(alloc, bytes, *off, write, read, present),
        Op::Zero {
            object: _,
            off,
            len,
        } => page_zeroed(
            old_bytes(alloc, read, present, write.old)?,
            *off,
            *off + *len,
            write.page,
        ),
        Op::Truncate { object: _, size } => page_zeroed(
            old_bytes(alloc, read, present, write.old)?,
            *size,
            OBJECT_LIMIT,
            write.page,
        ),
        _ => unreachable!(),
    }
}

// What the unit is to hold so far that has a page's old bytes, if the transaction put them. It is taken from there where the page is changed on
// that unit, and shared else.
fn present_of(held: &mut Vec<SharedBytes>, write: &PageWrite) -> Result<SharedBytes, AllocError>
    requires { (taking : ℕ) → write.now.old ≡ Put taking → taking < length held.old.items }
    ensures present { IfOk result (λ present. present ≡ held_old (held_in held.old.items) write.now.old) }
    ensures others { (taking : ℕ) → ¬ (taking ≡ write.now.taking) → held_in held.new.items taking ≡ held_in held.old.items taking }
    ensures count { length held.new.items ≡ length held.old.items }
{
    match write.old {
        OldBytes::Put(from) if from == write.taking => {
            Ok(mem::replace(&mut held[from as usize], SharedBytes::new()))
        }
        OldBytes::Put(from) => held[from as usize].clone(),
        OldBytes::Zeros | OldBytes::Read(_) => Ok(SharedBytes::new()),
    }
}

/// What each unit is to hold that a transaction takes, by the numbers of their takings, after the writes of its operations in order. A page
/// that a write covers wholly shares its bytes. Of one in part, old bytes that were read are copied once; after that it is changed where it is.
pub fn contents(
    alloc: Global,
    ops: &[Op],
    writes: &[PageWrite],
    read: &[ReadUnit],
    takings: u32,
) -> Result<Items<SharedBytes>, AllocError>
    requires can { AllByRecursion (CanBeMade ops.now takings) writes.now }
    requires whole { AllByRecursion (λ r. length r.bytes ≡ 4096) read.now }
    ensures held { IfOk result (λ contents. held_in contents ≡ after_writes ops.now read.now writes.now none_held) }
    ensures count { IfOk result (λ contents. length contents ≡ takings) }
{
    let mut held = none_held(alloc, takings)?;
    for write in writes {
        let op = &ops[write.op as usize];
        let present = present_of(&mut held, write)?;
        let new = page_made(alloc, op, write, read, present)?;
        held[write.taking as usize] = new;
    }
    Ok(Items::from_vec(held))
}
