//! A half of the log, read from its front in pieces as its records are asked for.
//!
//! A mount reads its half of the log in pieces of 64 units, and holds the record that it reads and a few pieces: what a record's head
//! says of its length (`record_units`) is fetched before the record is judged, and no more is needed to judge it. Of the units behind the
//! records it keeps which aren't zero, since these alone are cleared. `scan` reads all records of bytes in memory.
ghost use Rattle.std.specs.Prelude.{◌≡◌, ◌≤◌, ◌<◌, ◌+◌, ◌*◌, ◌-◌, [], length, drop, OnOk, IfOk, IsErrOf, MatchOption};
ghost use Rattle.block_device.specs.Prelude.{IsSound, Rose};
ghost use Rattle.meta_log.specs.Prelude.{IsAtFront};
ghost use Rattle.log_replay.specs.HalfReading.{bytes_not_passed, IsReader, IsUnread, Skips, ReadsOn, HasNoRecord, MayStand, HasStale};

use crate::stale::{add_stale, add_stale_between};
use block_device::{Device, Failed};
use meta_log::{FoundRecord, read_record, record_units};
use std::alloc::Global;
use unit_fields::limits::{PIECE_UNITS, UNIT_BYTES};

// Takes the bytes before a place away.
fn cut_front(bytes: &mut Vec<u8>, start: usize)
    requires { start ≤ length bytes.old.items }
    ensures { bytes.new.items ≡ drop start bytes.old.items }
{
    let left = bytes.len() - start;
    bytes.copy_within(start..start + left, 0);
    bytes.truncate(left);
}

/// A half of the log as far as it was read. The bytes of the records that were passed over aren't kept for long, so that it takes the
/// memory of the longest record and of a few pieces.
#[derive(Drop)]
pub struct HalfReader {
    /// The bytes that were read last.
    pub bytes: Vec<u8>,
    /// How many of them were passed over.
    pub start: usize,
    /// The unit of the device where the others begin.
    pub at: u32,
    /// The unit that is read next.
    pub next: u32,
    /// The unit behind the half.
    pub end: u32,
    /// A buffer for one read behind bytes that are left.
    pub piece: Vec<u8>,
}

impl HalfReader {
    /// The half from unit `first` to before `end`, of which nothing was read.
    pub fn new(alloc: Global, first: u32, end: u32) -> HalfReader
        ensures { IsUnread result first end }
    {
        HalfReader {
            bytes: Vec::new(alloc),
            start: 0,
            at: first,
            next: first,
            end,
            piece: Vec::new(alloc),
        }
    }

    /// The bytes that were read and not passed over.
    fn left(&self) -> &[u8]
        requires { self.now.start ≤ length self.now.bytes.items }
        ensures { result.now ≡ bytes_not_passed self.now }
    {
        &self.bytes[self.start..]
    }

    /// Passes over so many units.
    pub fn skip(&mut self, units: u32)
        requires reader { IsReader self.old }
        requires there { 4096 * units ≤ length (bytes_not_passed self.old) }
        ensures { Skips units self.old self.new }
    {
        self.start += units as usize * UNIT_BYTES;
        self.at += units;
    }

    // Lets go of the bytes that were passed over, if others are left.
    fn shrink(&mut self)
        requires { IsReader self.old }
        ensures reader { IsReader self.new }
        ensures left { bytes_not_passed self.new ≡ bytes_not_passed self.old }
        ensures places { (self.new.at ≡ self.old.at) × (self.new.next ≡ self.old.next) × (self.new.end ≡ self.old.end) }
    {
        if self.start == self.bytes.len() {
            return;
        }
        cut_front(&mut self.bytes, self.start);
        self.start = 0;
    }

    // Reads the next units, at most 64, over bytes that were all passed over.
    fn read_over<D: Device>(&mut self, dev: &mut D) -> Result<(), Failed>
        requires idle { (D.disk dev.old).flights ≡ [] }
        requires reader { IsReader self.old }
        requires inside { self.old.end ≤ (D.disk dev.old).units }
        requires more { self.old.next < self.old.end }
        requires over { length self.old.bytes.items ≤ self.old.start }
        ensures same { D.disk dev.new ≡ D.disk dev.old }
        ensures read { OnOk result (ReadsOn (D.disk dev.old) self.old self.new × (self.old.next < self.new.next)) }
        ensures faults { D.faults dev.old ≤ D.faults dev.new }
        ensures cause { IsErrOf result Failed.Fault → Rose (D.faults dev.old) (D.faults dev.new) }
    {
        let count = (self.end - self.next).min(PIECE_UNITS);
        self.start = 0;
        dev.read(self.next, count, &mut self.bytes)?;
        self.next += count;
        Ok(())
    }

    // The same behind bytes that are left.
    fn read_behind<D: Device>(&mut self, dev: &mut D) -> Result<(), Failed>
        requires idle { (D.disk dev.old).flights ≡ [] }
        requires reader { IsReader self.old }
        requires inside { self.old.end ≤ (D.disk dev.old).units }
        requires more { self.old.next < self.old.end }
        ensures same { D.disk dev.new ≡ D.disk dev.old }
        ensures read { OnOk result (ReadsOn (D.disk dev.old) self.old self.new × (self.old.next < self.new.next)) }
        ensures faults { D.faults dev.old ≤ D.faults dev.new }
        ensures cause { IsErrOf result Failed.Fault → Rose (D.faults dev.old) (D.faults dev.new) }
    {
        let count = (self.end - self.next).min(PIECE_UNITS);
        dev.read(self.next, count, &mut self.piece)?;
        let Ok(()) = self.bytes.extend_from_slice(&self.piece) else {
            return Err(Failed::Memory);
        };
        self.next += count;
        Ok(())
    }

    // Reads the next units, at most 64.
    fn read_piece<D: Device>(&mut self, dev: &mut D) -> Result<(), Failed>
        requires idle { (D.disk dev.old).flights ≡ [] }
        requires reader { IsReader self.old }
        requires inside { self.old.end ≤ (D.disk dev.old).units }
        requires more { self.old.next < self.old.end }
        ensures same { D.disk dev.new ≡ D.disk dev.old }
        ensures read { OnOk result (ReadsOn (D.disk dev.old) self.old self.new × (self.old.next < self.new.next)) }
        ensures faults { D.faults dev.old ≤ D.faults dev.new }
        ensures cause { IsErrOf result Failed.Fault → Rose (D.faults dev.old) (D.faults dev.new) }
    {
        if self.bytes.len() <= self.start {
            return self.read_over(dev);
        }
        self.read_behind(dev)
    }

    // Reads on until so many units are there.
    fn fetch<D: Device>(&mut self, dev: &mut D, units: u32) -> Result<(), Failed>
        requires idle { (D.disk dev.old).flights ≡ [] }
        requires reader { IsReader self.old }
        requires inside { self.old.end ≤ (D.disk dev.old).units }
        requires enough { self.old.at + units ≤ self.old.end }
        ensures same { D.disk dev.new ≡ D.disk dev.old }
        ensures read { OnOk result (ReadsOn (D.disk dev.old) self.old self.new) }
        ensures there { OnOk result (4096 * units ≤ length (bytes_not_passed self.new)) }
        ensures faults { D.faults dev.old ≤ D.faults dev.new }
        ensures cause { IsErrOf result Failed.Fault → Rose (D.faults dev.old) (D.faults dev.new) }
    {
        if self.at + units <= self.next {
            return Ok(());
        }
        self.shrink();
        'pieces: while self.next < self.at + units {
            self.read_piece(dev)?;
        }
        Ok(())
    }

    // Reads as far as the record of this number takes that stands in front, and says whether one may stand there.
    fn fetch_record<D: Device>(&mut self, dev: &mut D, number: u64) -> Result<bool, Failed>
        requires idle { (D.disk dev.old).flights ≡ [] }
        requires reader { IsReader self.old }
        requires inside { self.old.end ≤ (D.disk dev.old).units }
        ensures same { D.disk dev.new ≡ D.disk dev.old }
        ensures read { IfOk result (λ may. ReadsOn (D.disk dev.old) self.old self.new) }
        ensures may { IfOk result (λ may. MayStand may self.new number) }
        ensures faults { D.faults dev.old ≤ D.faults dev.new }
        ensures cause { IsErrOf result Failed.Fault → Rose (D.faults dev.old) (D.faults dev.new) }
    {
        if self.at == self.end {
            return Ok(false);
        }
        self.fetch(dev, 1)?;
        let Some(units) = record_units(self.left(), number) else {
            return Ok(false);
        };
        if units > self.end - self.at {
            return Ok(false);
        }
        self.fetch(dev, units)?;
        Ok(true)
    }

    /// The record of this number that stands in front. The half is read as far as that record takes, or up to its end.
    pub fn record<D: Device>(
        &mut self,
        alloc: Global,
        dev: &mut D,
        number: u64,
    ) -> Result<Option<FoundRecord>, Failed>
        requires idle { (D.disk dev.old).flights ≡ [] }
        requires reader { IsReader self.old }
        requires inside { self.old.end ≤ (D.disk dev.old).units }
        ensures same { D.disk dev.new ≡ D.disk dev.old }
        ensures read { IfOk result (λ found. ReadsOn (D.disk dev.old) self.old self.new) }
        ensures found { IfOk result (λ found. MatchOption found (HasNoRecord self.new number) (IsAtFront (bytes_not_passed self.new) number)) }
        ensures faults { D.faults dev.old ≤ D.faults dev.new }
        ensures cause { IsErrOf result Failed.Fault → Rose (D.faults dev.old) (D.faults dev.new) }
    {
        if !self.fetch_record(dev, number)? {
            return Ok(None);
        }
        match read_record(alloc, self.left(), number) {
            Ok(found) => Ok(found),
            Err(_) => Err(Failed::Memory),
        }
    }

    /// The units that aren't zero, of those that weren't passed over, ascending. The half is read to its end, over the bytes that it held.
    pub fn stale<D: Device>(self, alloc: Global, dev: &mut D) -> Result<Vec<u32>, Failed>
        requires sound { IsSound (D.disk dev.old) }
        requires idle { (D.disk dev.old).flights ≡ [] }
        requires reader { IsReader self }
        requires inside { self.end ≤ (D.disk dev.old).units }
        ensures same { D.disk dev.new ≡ D.disk dev.old }
        ensures stale { IfOk result (λ units. HasStale (D.disk dev.old) self units.items) }
        ensures faults { D.faults dev.old ≤ D.faults dev.new }
        ensures cause { IsErrOf result Failed.Fault → Rose (D.faults dev.old) (D.faults dev.new) }
    {
        let mut units = Vec::new(alloc);
        let count = self.next - self.at;
        let Ok(()) = add_stale(&mut units, self.at, count, self.left()) else {
            return Err(Failed::Memory);
        };
        add_stale_between(dev, &mut units, self.next, self.end, self.bytes)?;
        Ok(units)
    }
}
