//! Pages read from memory or from the device, some at a time.
ghost use Rattle.std.specs.Prelude.{◌≡◌, ◌+◌, ◌-◌, ◌*◌, ◌^◌, ◌<◌, ◌≤◌, None, Some, IsTrue, IsSome, IfOk, IfErr, IfNone, IfSome, IsErrOf, OnOk, ℕ, length, get_or, min};
ghost use Rattle.byte_maps.specs.Units.{unit_at, zeros, IsUnits};
ghost use Rattle.crc32c_csum.specs.Prelude.{crc32c};
ghost use Rattle.block_device.specs.Prelude.{HasRead, IsNotInFlight, Rose};
ghost use Rattle.write_buffers.specs.Prelude.{memory_in};
ghost use Rattle.page_sources.specs.Found.{unit_found, IsFoundOn};
ghost use Rattle.page_sources.specs.Parts.{part_fail_of, HaveFewUnits, CanRead, AreHoles, AreKept, AreSums, IsPageRun, IsMismatch, IsUnitsFail, GivesPages, IsPartFail};
ghost use Rattle.page_sources.specs.declared.parts.PartFail.TheVariants.{Memory};

use crate::finding::UnitPages;
use block_device::{Device, Failed};
use crc32c_csum::crc32c;
use read_facts::BadSum;
use std::alloc::AllocError;
use unit_fields::UnitNo;
use unit_fields::limits::{PIECE_UNITS, UNIT_BYTES};
use write_buffers::WriteBuffers;

// The checksum of a page of zeros.
const ZEROS_SUM: u32 = 0x98f9_4189;

/// Checksums of the pages of a part, from its first page on.
pub type Sums = [u32; 64];

/// Why pages weren't read.
#[derive(Clone, Copy)]
pub enum PartFail {
    /// Memory ran out.
    Memory,
    /// The device failed at a read, and has counted it.
    Fault,
    /// The first page whose bytes have another checksum than the one that is kept.
    BadPage(BadSum),
}

impl From<AllocError> for PartFail {
    ghost from_gives = { λ _ e. e ≡ Memory };

    fn from(_e: AllocError) -> PartFail {
        PartFail::Memory
    }
}

impl From<Failed> for PartFail {
    ghost from_gives = { λ why e. e ≡ part_fail_of why };

    fn from(why: Failed) -> PartFail {
        match why {
            Failed::Memory => PartFail::Memory,
            Failed::Fault => PartFail::Fault,
        }
    }
}

// Consecutive pages that are read at once: holes, pages on consecutive units that the device is asked for, or one page whose unit is in
// memory.
enum Run {
    Hole { count: u32 },
    Units { at: u32, count: u32 },
    InMemory { unit: u32 },
}

fn is_hole(pages: &mut UnitPages, page: u32) -> bool
    ensures hole { IsTrue result → unit_found pages.old page ≡ None }
    ensures kept { pages.new ≡ pages.old }
{
    pages.find(page).is_none()
}

// How many of the pages from the first on, which is a hole, are holes in a row.
fn hole_pages(pages: &mut UnitPages, first: u32, most: u32) -> u32
    requires hole { unit_found pages.old first ≡ None }
    requires some { 0 < most }
    requires fits { first + most ≤ 2 ^ 32 }
    ensures some { 0 < result }
    ensures few { result ≤ most }
    ensures holes { AreHoles pages.old first result }
    ensures kept { pages.new ≡ pages.old }
{
    for i in 1..most {
        if !is_hole(pages, first + i) {
            return i;
        }
    }
    most
}

// The kept checksum of a page that stands on this unit. None: it is a hole, or stands elsewhere.
fn csum_on(pages: &mut UnitPages, page: u32, unit: u32) -> Option<u32>
    ensures stands { IfSome result (IsFoundOn pages.old page unit) }
    ensures kept { pages.new ≡ pages.old }
{
    let on = pages.find(page)?;
    if on.unit.number() == unit {
        return Some(on.csum);
    }
    None
}

// How many of the pages from the first on, which stands on unit `at`, stand on consecutive units. The checksums that are kept for
// them go into `sums`, where that of the first one is.
fn unit_pages(pages: &mut UnitPages, first: u32, at: u32, most: u32, sums: &mut Sums) -> u32
    requires stands { AreKept pages.old first at 1 sums.old }
    requires some { 0 < most }
    requires few { most ≤ 64 }
    requires fits { first + most ≤ 2 ^ 32 }
    requires units_fit { at + most ≤ 2 ^ 32 }
    ensures some { 0 < result }
    ensures few { result ≤ most }
    ensures units { AreKept pages.old first at result sums.new }
    ensures kept { pages.new ≡ pages.old }
{
    for i in 1..most {
        match csum_on(pages, first + i, at + i) {
            Some(csum) => sums[i as usize] = csum,
            None => return i,
        }
    }
    most
}

// The checksum of a page of zeros for each page of a part.
fn lay_zeros_sums(sums: &mut Sums)
    ensures { (i : ℕ) → i < 64 → get_or sums.new i 0 ≡ crc32c (zeros 4096) }
{
    *sums = [ZEROS_SUM; 64];
}

// The run of pages from the first on, below the end, and before the next page whose unit is in memory. The checksums that are kept for its
// pages go into `sums`, and for holes that of a page of zeros.
fn run_from(
    pages: &mut UnitPages,
    buffers: &WriteBuffers,
    first: u32,
    end: u32,
    sums: &mut Sums,
) -> Run
    requires some { first < end }
    requires inside { HaveFewUnits pages.old }
    ensures run { IsPageRun (memory_in buffers.now) pages.old first (min (end - first) 64) sums.new result }
    ensures kept { pages.new ≡ pages.old }
{
    let most = (end - first).min(PIECE_UNITS);
    match pages.find(first) {
        Some(on) => {
            let at = on.unit.number();
            let free = buffers.absent_from(at, most);
            if free == 0 {
                return Run::InMemory { unit: at };
            }
            sums[0] = on.csum;
            let count = unit_pages(pages, first, at, free, sums);
            Run::Units { at, count }
        }
        None => {
            lay_zeros_sums(sums);
            let count = hole_pages(pages, first, most);
            Run::Hole { count }
        }
    }
}

// The zeros of so many holes, in place of what `part` held.
#[tactic(auto, unfolding(byte_maps::specs::Units::zeros))]
fn lay_zeros(part: &mut Vec<u8>, count: u32) -> Result<(), AllocError>
    ensures { OnOk result (part.new.items ≡ zeros (4096 * count)) }
{
    part.clear();
    part.resize(count as usize * UNIT_BYTES, 0)
}

fn page_at(bytes: &[u8], i: usize) -> &[u8]
    requires { 4096 * i + 4096 ≤ length bytes.now }
    ensures { result.now ≡ unit_at i bytes.now }
{
    &bytes[UNIT_BYTES * i..UNIT_BYTES * i + UNIT_BYTES]
}

// The first of so many pages, which stand on consecutive units, whose bytes have another checksum than the one that is kept.
fn first_mismatch(at: u32, count: u32, sums: &Sums, part: &[u8]) -> Option<BadSum>
    requires whole { IsUnits count part.now }
    requires few { count ≤ 64 }
    requires units_fit { at + count ≤ 2 ^ 32 }
    ensures none { IfNone result (AreSums count part.now sums.now) }
    ensures some { IfSome result (IsMismatch at count part.now sums.now) }
{
    for i in 0..count {
        let kept = sums[i as usize];
        let found = crc32c(page_at(part, i as usize));
        if found != kept {
            let unit = UnitNo::new(at + i);
            return Some(BadSum { unit, kept, found });
        }
    }
    None
}

// Reads consecutive units, and compares the checksum of each.
pub(crate) fn read_units<D: Device>(
    device: &mut D,
    at: u32,
    count: u32,
    sums: &Sums,
    part: &mut Vec<u8>,
) -> Result<(), PartFail>
    requires few { count ≤ 64 }
    requires inside { at + count ≤ (D.disk device.old).units }
    requires units_fit { at + count ≤ 2 ^ 32 }
    requires free { IsNotInFlight (D.disk device.old) at (4096 * count) }
    ensures read { OnOk result (HasRead (D.disk device.old) at count part.new.items) }
    ensures good { OnOk result (AreSums count part.new.items sums.now) }
    ensures fail { IfErr result (IsUnitsFail (D.disk device.old) at count sums.now) }
    ensures same { D.disk device.new ≡ D.disk device.old }
    ensures later { D.faults device.old ≤ D.faults device.new }
    ensures cause { IsErrOf result PartFail.Fault → Rose (D.faults device.old) (D.faults device.new) }
{
    device.read(at, count, part)?;
    match first_mismatch(at, count, sums, part) {
        Some(bad) => Err(PartFail::BadPage(bad)),
        None => Ok(()),
    }
}

// The bytes of a unit that is in memory, in place of what `part` held, and their checksum, which is compared with none.
fn copy_page(
    buffers: &WriteBuffers,
    unit: u32,
    sums: &mut Sums,
    part: &mut Vec<u8>,
) -> Result<(), AllocError>
    requires there { IsSome (memory_in buffers.now unit) }
    ensures bytes { OnOk result (memory_in buffers.now unit ≡ Some part.new.items) }
    ensures sum { OnOk result (get_or sums.new 0 0 ≡ crc32c part.new.items) }
{
    let Some(bytes) = buffers.get(unit) else {
        unreachable!()
    };
    part.clear();
    part.extend_from_slice(bytes.as_slice())?;
    sums[0] = crc32c(bytes.as_slice());
    Ok(())
}

/// Reads a run of pages of an object, from the first on and below the end, in place of what `part` held, and gives how many: at most 64
/// that are holes, or that stand on consecutive units none of which is in memory, which one call of the device reads; or one, whose unit is in
/// memory. Their checksums go into `sums`. A bad page is the first one of the run.
pub fn read_part<D: Device>(
    device: &mut D,
    buffers: &WriteBuffers,
    pages: &mut UnitPages,
    first: u32,
    end: u32,
    sums: &mut Sums,
    part: &mut Vec<u8>,
) -> Result<u32, PartFail>
    requires can { CanRead (memory_in buffers.now) (D.disk device.old) pages.old }
    requires below { first < end }
    ensures some { IfOk result (λ count. 0 < count) }
    ensures few { IfOk result (λ count. (count ≤ 64) × (first + count ≤ end)) }
    ensures good { IfOk result (λ count. GivesPages (memory_in buffers.now) (D.disk device.old) pages.old first count part.new.items) }
    ensures sums { IfOk result (λ count. AreSums count part.new.items sums.new) }
    ensures fail { IfErr result (IsPartFail (memory_in buffers.now) (D.disk device.old) pages.old first (end - first)) }
    ensures same { D.disk device.new ≡ D.disk device.old }
    ensures later { D.faults device.old ≤ D.faults device.new }
    ensures cause { IsErrOf result PartFail.Fault → Rose (D.faults device.old) (D.faults device.new) }
    ensures kept { pages.new ≡ pages.old }
{
    match run_from(pages, buffers, first, end, sums) {
        Run::Hole { count } => {
            lay_zeros(part, count)?;
            Ok(count)
        }
        Run::Units { at, count } => {
            read_units(device, at, count, sums, part)?;
            Ok(count)
        }
        Run::InMemory { unit } => {
            copy_page(buffers, unit, sums, part)?;
            Ok(1)
        }
    }
}
