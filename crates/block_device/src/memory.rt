// A device in memory, which tells its log, and whose every answer follows from its lists.
ghost use Rattle.std.specs.Prelude.{◌≡◌, ◌≢◌, ◌++◌, ◌↔◌, false, Some, [], ◌∷◌, ◌+◌, ◌*◌, ◌%◌, ◌<◌, ◌≤◌, length, take, All, MatchOption, OnOk, OnErr, IfOk, IfErr, IfSome, IfNone, IsErrOf, IsTrue, vec_capacity};
ghost use Rattle.block_device.specs.Disk.{Submitted, Reaped, Waited, HasRead, IsSound, IsNotInFlight, Rose};
ghost use Rattle.block_device.specs.Log.{last, IsCrashImage};
ghost use Rattle.block_device.specs.Image.{IsTornImage};
ghost use Rattle.block_device.specs.Fails.{is_listed, lag_at, faults_after, read_fails};
ghost use Rattle.block_device.specs.Memory.{fresh_memory, disk_of, after_write, after_flush, after_read, GaveNext, GaveNone};
ghost use Rattle.byte_maps.specs.Units.{units_from};
ghost use Rattle.block_device.specs.declared.event.Event.TheVariants.{Write, Flush};

use crate::image::{Tear, image_of, lay};
use crate::pending::{Pending, take_ready};
use crate::{Back, Device, Done, Event, Failed, Kind, Ticket};
use byte_maps::Bytes;
use std::alloc::{AllocError, Global};
use std::marker::Model;

const DEPTH: u32 = 64;

/// A device in memory, for tests: it tells its start contents and its log, answers exactly as its
/// lists of waits and failing calls say, and gives the images of a crash.
#[derive(Drop)]
pub struct MemoryDevice {
    alloc: Global,
    units: u32,
    start: Vec<u8>,
    contents: Vec<u8>,
    log: Vec<Event>,
    pending: Vec<Pending>,
    waits: u32,
    fault_count: u64,
    writes: u64,
    flushes: u64,
    reads: u64,
    lags: Vec<u8>,
    fails: Vec<(Kind, u64)>,
}

impl Model for MemoryDevice {
    ghost use Rattle.block_device.specs.Memory.{MemoryDisk};

    ghost Value = { MemoryDisk };

    ghost use Rattle.block_device.specs.MemoryInside.{memory_disk, IsMemoryKept};

    ghost view = { memory_disk };

    ghost invariant = { IsMemoryKept };
}

// Whether a call is listed to fail.
fn fails_at(fails: &[(Kind, u64)], kind: Kind, number: u64) -> bool
    ensures { result ≡ is_listed fails.now kind number }
{
    fails.iter().any(|f| f.0 == kind && f.1 == number)
}

// The lag of a submission.
fn lag_of(lags: &[u8], number: u64) -> u8
    requires { All (λ lag. lag ≤ 63) lags.now }
    ensures lag { result ≡ lag_at lags.now number }
    ensures low { result ≤ 63 }
{
    if lags.is_empty() {
        return 0;
    }
    lags[(number % lags.len() as u64) as usize]
}

// One fault more where a call went wrong.
fn count_fault(faults: u64, ok: bool) -> u64
    ensures { result ≡ faults_after faults ok }
{
    if ok { faults } else { faults.saturating_add(1) }
}

// Makes room in the log for a submission, its Done and the Dones that are to come.
fn make_room(log: &mut Vec<Event>, pending: &mut Vec<Pending>) -> Result<(), AllocError>
    requires { length pending.old.items ≤ 64 }
    ensures log { log.new.items ≡ log.old.items }
    ensures log_room { vec_capacity log.old ≤ vec_capacity log.new }
    ensures pending { pending.new.items ≡ pending.old.items }
    ensures log_ok { OnOk result (length log.old.items + length pending.old.items + 2 ≤ vec_capacity log.new) }
    ensures pending_ok { OnOk result (length pending.old.items + 1 ≤ vec_capacity pending.new) }
{
    pending.reserve(1)?;
    log.reserve(pending.len() + 2)?;
    Ok(())
}

// Adds an item where there is room.
fn push_in_room<T: Drop>(items: &mut Vec<T>, item: T)
    requires { length items.old.items < vec_capacity items.old }
    ensures items { items.new.items ≡ items.old.items ++ item ∷ [] }
    ensures room { vec_capacity items.old ≤ vec_capacity items.new }
{
    match items.push(item) {
        Ok(()) => {}
        Err(_) => unreachable!(),
    }
}

impl MemoryDevice {
    /// A device of these contents, whole units and at most 1048576 of them.
    ///
    /// Submission k, numbered from 0 over writes and flushes together, waits for
    /// `lags[k % lags.len()]` reaps, at most 63 (none where the list is empty): each reap gives the
    /// least ticket that waits for none, and then each other waits for one fewer, also where the
    /// reap gave none. `fails` lists the calls that fail, by kind and number from 0 within the kind.
    /// A write that fails still lays its bytes over the contents, and its units stay dirty.
    pub fn new(
        alloc: Global,
        contents: Vec<u8>,
        lags: Vec<u8>,
        fails: Vec<(Kind, u64)>,
    ) -> Result<MemoryDevice, AllocError>
        requires lags { All (λ lag. lag ≤ 63) lags.items }
        requires whole { length contents.items % 4096 ≡ 0 }
        requires few { length contents.items ≤ 4096 * 1048576 }
        ensures { IfOk result (λ d. d ≡ fresh_memory contents.items lags.items fails.items) }
    {
        let copy = contents.as_slice().to_vec(alloc)?;
        Ok(MemoryDevice {
            alloc,
            units: (contents.len() / 4096) as u32,
            start: contents,
            contents: copy,
            log: Vec::new(alloc),
            pending: Vec::new(alloc),
            waits: 0,
            fault_count: 0,
            writes: 0,
            flushes: 0,
            reads: 0,
            lags,
            fails,
        })
    }

    /// How many events the log has.
    pub fn events(&self) -> u64
        ensures { result ≡ length self.now.log }
    {
        self.log.len() as u64
    }

    /// What a crash after the first `cut` events of the log may leave, with its dirty units torn in
    /// this way: just the bytes of that tear.
    pub fn image(&self, cut: u64, tear: Tear) -> Result<Vec<u8>, AllocError>
        requires { cut ≤ length self.now.log }
        ensures torn { IfOk result (λ image. IsTornImage tear self.now.start (take cut self.now.log) image.items) }
        ensures crash { IfOk result (λ image. IsCrashImage self.now.start (take cut self.now.log) image.items) }
    {
        image_of(self.alloc, &self.start, &self.log[..cut as usize], tear)
    }
}

impl Device for MemoryDevice {
    ghost disk = { disk_of };

    ghost faults = { λ d. d.faults };

    fn units(&self) -> u32 {
        self.units
    }

    fn depth(&self) -> u32 {
        let _ = &self.units;
        DEPTH
    }

    fn in_flight(&self) -> u32 {
        self.pending.len() as u32
    }

    fn submit_write(&mut self, at: u32, bytes: Vec<u8>) -> Result<Ticket, Back>
        requires room { length (disk_of self.old).flights < (disk_of self.old).depth }
        requires some { 0 < length bytes.items }
        requires few { length bytes.items ≤ 4096 * 64 }
        requires whole { length bytes.items % 4096 ≡ 0 }
        requires inside { 4096 * at + length bytes.items ≤ 4096 * (disk_of self.old).units }
        requires free { IsNotInFlight (disk_of self.old) at (length bytes.items) }
        ensures ok { IfOk result (λ t. Submitted (disk_of self.old) t.place (Write at bytes.items) (disk_of self.new)) }
        ensures exact { OnOk result (self.new ≡ after_write self.old at bytes.items) }
        ensures err { OnErr result (self.new ≡ self.old) }
        ensures back { IfErr result (λ back. back.bytes.items ≡ bytes.items) }
        ensures faults { self.new.faults ≡ self.old.faults }
        ensures sound { IsSound (disk_of self.new) }
    {
        match make_room(&mut self.log, &mut self.pending) {
            Ok(()) => {}
            Err(_) => return Err(Back { bytes }),
        }
        let place = self.log.len() as u64;
        let pending = Pending {
            ticket: place,
            first: at,
            bytes: bytes.len(),
            ok: !fails_at(&self.fails, Kind::Write, self.writes),
            lag: lag_of(&self.lags, self.writes + self.flushes),
        };
        self.writes += 1;
        lay(&mut self.contents, at as usize, &bytes);
        push_in_room(&mut self.pending, pending);
        push_in_room(&mut self.log, Event::Write(at, Bytes::from_vec(bytes)));
        Ok(Ticket { place })
    }

    fn submit_flush(&mut self) -> Result<Ticket, AllocError>
        requires { length (disk_of self.old).flights < (disk_of self.old).depth }
        ensures ok { IfOk result (λ t. Submitted (disk_of self.old) t.place Flush (disk_of self.new)) }
        ensures exact { OnOk result (self.new ≡ after_flush self.old) }
        ensures err { OnErr result (self.new ≡ self.old) }
        ensures faults { self.new.faults ≡ self.old.faults }
        ensures sound { IsSound (disk_of self.new) }
    {
        make_room(&mut self.log, &mut self.pending)?;
        let place = self.log.len() as u64;
        let pending = Pending {
            ticket: place,
            first: 0,
            bytes: 0,
            ok: !fails_at(&self.fails, Kind::Flush, self.flushes),
            lag: lag_of(&self.lags, self.writes + self.flushes),
        };
        self.flushes += 1;
        push_in_room(&mut self.pending, pending);
        push_in_room(&mut self.log, Event::Flush);
        Ok(Ticket { place })
    }

    fn reap(&mut self) -> Option<Done>
        ensures done { IfSome result (λ done. Reaped (disk_of self.old) done.ticket.place done.ok (disk_of self.new)) }
        ensures none { IfNone result (Waited (disk_of self.old) (disk_of self.new)) }
        ensures exact { MatchOption result (GaveNone self.old self.new) (λ done. GaveNext self.old done.ticket.place done.ok self.new) }
        ensures later { self.old.faults ≤ self.new.faults }
        ensures cause { IfSome result (λ done. done.ok ≡ false → Rose self.old.faults self.new.faults) }
        ensures sound { IsSound (disk_of self.new) }
    {
        if self.pending.is_empty() {
            return None;
        }
        let Some(done) = take_ready(&mut self.pending) else {
            self.waits += 1;
            return None;
        };
        self.waits = 0;
        push_in_room(&mut self.log, Event::Done(done.ticket, done.ok));
        self.fault_count = count_fault(self.fault_count, done.ok);
        Some(Done {
            ticket: Ticket { place: done.ticket },
            ok: done.ok,
        })
    }

    fn read(&mut self, at: u32, count: u32, into: &mut Vec<u8>) -> Result<(), Failed>
        requires inside { at + count ≤ (disk_of self.old).units }
        requires free { IsNotInFlight (disk_of self.old) at (4096 * count) }
        ensures same { disk_of self.new ≡ disk_of self.old }
        ensures exact { result ≢ Err Failed.Memory → self.new ≡ after_read self.old }
        ensures memory { IsErrOf result Failed.Memory → self.new ≡ self.old }
        ensures fails { IsErrOf result Failed.Fault ↔ IsTrue (read_fails self.old.fails self.old.reads) }
        ensures bytes { OnOk result (into.new.items ≡ units_from at count (last self.old.start self.old.log)) }
        ensures ok { OnOk result (HasRead (disk_of self.old) at count into.new.items) }
        ensures err { OnErr result (length into.new.items ≡ 0) }
        ensures later { self.old.faults ≤ self.new.faults }
        ensures cause { IsErrOf result Failed.Fault → Rose self.old.faults self.new.faults }
        ensures sound { IsSound (disk_of self.new) }
    {
        into.clear();
        if fails_at(&self.fails, Kind::Read, self.reads) {
            self.reads = self.reads.saturating_add(1);
            self.fault_count = count_fault(self.fault_count, false);
            return Err(Failed::Fault);
        }
        let from = 4096 * at as usize;
        let to = from + 4096 * count as usize;
        match into.extend_from_slice(&self.contents[from..to]) {
            Ok(()) => {}
            Err(_) => return Err(Failed::Memory),
        }
        self.reads = self.reads.saturating_add(1);
        Ok(())
    }
}
