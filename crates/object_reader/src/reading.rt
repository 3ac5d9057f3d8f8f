//! Bytes of an object, and their checksum.
//!
//! Pages are read in runs of up to 64: pages on consecutive units by one read of the device, holes by none. Each page's checksum is
//! compared before its bytes are used; the bad unit that is answered is that of the first bad page of the range, since runs come in the
//! order of the pages. The first run is read straight into the answer. A sum takes a whole page in by its checksum, which was just
//! compared, so that no byte is summed twice.
ghost use Rattle.std.specs.Prelude.{◌≡◌, ◌+◌, ◌-◌, ◌*◌, ◌/◌, ◌≤◌, ◌<◌, IfOk, IfErr, IsErrOf, length, take, drop};
ghost use Rattle.block_device.specs.Prelude.{Rose};
ghost use Rattle.crc32c_csum.specs.Prelude.{remainder};
ghost use Rattle.object_model.specs.Prelude.{object_limit};
ghost use Rattle.store_image.specs.Prelude.{pages_of};
ghost use Rattle.read_facts.specs.Prelude.{pages_read};
ghost use Rattle.write_buffers.specs.Prelude.{memory_in};
ghost use Rattle.page_sources.specs.Prelude.{CanRead, AreSums, GivesPages, IsPartFail};
ghost use Rattle.object_reader.specs.Ranges.{GivesRange, GivesSum};

use block_device::Device;
use crc32c_csum::Digest;
use page_sources::{PartFail, Sums, UnitPages, read_part};
use std::alloc::Global;
use unit_fields::limits::UNIT_BYTES;
use write_buffers::WriteBuffers;

// The bytes of a page, as sizes of objects count them.
const PAGE_BYTES: u64 = UNIT_BYTES as u64;

// The pages of an object of so many bytes.
fn pages_of(size: u64) -> u32
    requires { size ≤ object_limit }
    ensures { result ≡ pages_of size }
{
    ((size + (PAGE_BYTES - 1)) / PAGE_BYTES) as u32
}

// Reads the pages from the first on and below the end, laid together in one buffer. The first run is read where it stays, and the others
// are laid behind it.
fn read_pages<D: Device>(
    alloc: Global,
    device: &mut D,
    buffers: &WriteBuffers,
    pages: &mut UnitPages,
    first: u32,
    end: u32,
) -> Result<Vec<u8>, PartFail>
    requires can { CanRead (memory_in buffers.now) (D.disk device.old) pages.old }
    requires below { first < end }
    ensures good { IfOk result (λ bytes. GivesPages (memory_in buffers.now) (D.disk device.old) pages.old first (end - first) bytes.items) }
    ensures fail { IfErr result (IsPartFail (memory_in buffers.now) (D.disk device.old) pages.old first (end - first)) }
    ensures same { D.disk device.new ≡ D.disk device.old }
    ensures later { D.faults device.old ≤ D.faults device.new }
    ensures cause { IsErrOf result PartFail.Fault → Rose (D.faults device.old) (D.faults device.new) }
{
    let mut bytes = Vec::with_capacity(alloc, (end - first) as usize * UNIT_BYTES)?;
    let mut sums = [0; 64];
    let front = read_part(device, buffers, pages, first, end, &mut sums, &mut bytes)?;
    let mut part = Vec::new(alloc);
    let mut next = first + front;
    'parts: while next < end {
        let count = read_part(device, buffers, pages, next, end, &mut sums, &mut part)?;
        bytes.extend_from_slice(&part)?;
        next += count;
    }
    Ok(bytes)
}

// Cuts bytes to so many from one on, in their own buffer.
fn cut(mut bytes: Vec<u8>, skip: usize, len: usize) -> Vec<u8>
    requires { skip + len ≤ length bytes.items }
    ensures { result.items ≡ take len (drop skip bytes.items) }
{
    if skip > 0 {
        bytes.copy_within(skip..skip + len, 0);
    }
    bytes.truncate(len);
    bytes
}

/// The bytes of a range of an object of this size with these pages, cut at the size. An empty one reads nothing, and no page is looked
/// up but those that are read. The answer to `Read` comes from it.
pub fn read_range<D: Device>(
    alloc: Global,
    device: &mut D,
    buffers: &WriteBuffers,
    pages: &mut UnitPages,
    size: u64,
    off: u64,
    len: u64,
) -> Result<Vec<u8>, PartFail>
    requires can { CanRead (memory_in buffers.now) (D.disk device.old) pages.old }
    requires limit { off + len ≤ object_limit }
    ensures good { IfOk result (λ bytes. GivesRange (memory_in buffers.now) (D.disk device.old) pages.old size off len bytes.items) }
    ensures fail { IfErr result (IsPartFail (memory_in buffers.now) (D.disk device.old) pages.old (off / 4096) (pages_read size off len)) }
    ensures same { D.disk device.new ≡ D.disk device.old }
    ensures later { D.faults device.old ≤ D.faults device.new }
    ensures cause { IsErrOf result PartFail.Fault → Rose (D.faults device.old) (D.faults device.new) }
{
    let end = size.min(off + len);
    if end <= off {
        return Ok(Vec::new(alloc));
    }
    let first = (off / PAGE_BYTES) as u32;
    let bytes = read_pages(alloc, device, buffers, pages, first, pages_of(end))?;
    Ok(cut(bytes, (off % PAGE_BYTES) as usize, (end - off) as usize))
}

// The first bytes, at most so many.
fn front(bytes: &[u8], most: u64) -> &[u8]
    ensures { result.now ≡ take most bytes.now }
{
    if most < bytes.len() as u64 {
        return &bytes[..most as usize];
    }
    bytes
}

// Takes in the front of a part: whole pages by their checksums, and what is left by its bytes.
fn take_in(digest: &mut Digest, front: &[u8], sums: &Sums)
    requires few { length front.now ≤ 4096 * 64 }
    requires sums { AreSums (length front.now / 4096) front.now sums.now }
    ensures { digest.new ≡ remainder digest.old front.now }
{
    let whole = front.len() / UNIT_BYTES;
    for i in 0..whole {
        digest.update_page(sums[i]);
    }
    let (_, rest) = front.split_at(UNIT_BYTES * whole);
    digest.update(rest);
}

/// The CRC-32C of the bytes of an object of this size with these pages. It reads the pages part by part, and holds one part at a time. The
/// bytes of a whole page aren't summed again: its checksum, which was compared or taken of its bytes in memory, is taken in.
pub fn sum<D: Device>(
    alloc: Global,
    device: &mut D,
    buffers: &WriteBuffers,
    pages: &mut UnitPages,
    size: u64,
) -> Result<u32, PartFail>
    requires can { CanRead (memory_in buffers.now) (D.disk device.old) pages.old }
    requires limit { size ≤ object_limit }
    ensures good { IfOk result (GivesSum (memory_in buffers.now) (D.disk device.old) pages.old size) }
    ensures fail { IfErr result (IsPartFail (memory_in buffers.now) (D.disk device.old) pages.old 0 (pages_read size 0 size)) }
    ensures same { D.disk device.new ≡ D.disk device.old }
    ensures later { D.faults device.old ≤ D.faults device.new }
    ensures cause { IsErrOf result PartFail.Fault → Rose (D.faults device.old) (D.faults device.new) }
{
    let end = pages_of(size);
    let mut digest = Digest::new();
    let mut part = Vec::new(alloc);
    let mut sums = [0; 64];
    let mut next = 0;
    'parts: while next < end {
        let count = read_part(device, buffers, pages, next, end, &mut sums, &mut part)?;
        let left = size - next as u64 * PAGE_BYTES;
        take_in(&mut digest, front(&part, left), &sums);
        next += count;
    }
    Ok(digest.finish())
}
