//! A file that is written and flushed where a write or a flush is submitted.

ghost use Rattle.std.specs.Prelude.{◌≡◌, ◌*◌, ◌≤◌, ◌↔◌, ◌∷◌, [], IfOk, IfSome, IfNone, IsOk, IsTrue, All, false};
ghost use Rattle.std.specs.VecDeque.{deque_capacity};
ghost use Rattle.block_device.specs.Prelude.{Reaped, Waited, IsSound, Rose};
ghost use Rattle.device_file.specs.FileDisk.{fresh_file};

use crate::opening::{make_file, offset_of, open_file};
use block_device::{Back, Device, Done, Failed, Ticket};
use std::alloc::{AllocError, Global};
use std::collections::VecDeque;
use std::fs::File;
use std::io::{self, ErrorKind};
use std::marker::Model;
use std::os::unix::fs::FileExt;
use std::rt::Files;
use std::time::Clock;

const DEPTH: u32 = 64;

// A submission that was worked and waits to be reaped. A flush has no bytes.
#[derive(Clone, Copy)]
struct Pending {
    ticket: u64,
    first: u32,
    bytes: usize,
    ok: bool,
}

/// A file, or a block device of the system, as a `Device`. Each submission is worked before its call returns, a write by
/// writes at its offset and a flush by `fdatasync`, and `reap` gives the ends in ticket order, so that it answers None only
/// where nothing is in flight. The depth is 64.
///
/// A ticket is the number of submissions and ends before it, which is its place in the log of a device that tells one.
/// Where 2^64 - 1 of them were counted, submissions are refused as if memory had run out.
///
/// A call of the system that fails is a fault: a write or a flush ends with `ok` false, and a read is refused. After a
/// failing flush the system may drop what it could not write, and call a later flush good: no promise goes past a bad end.
///
/// A flush ends well at once, without a call of the system, where no write was submitted since a flush that ended well, be it
/// the one of the opening.
#[derive(Drop)]
pub struct SyncFile {
    file: File,
    units: u32,
    pending: VecDeque<Pending>,
    events: u64,
    fault_count: u64,

    // Whether a write was submitted since the last flush that ended well. The opening ends with such a flush.
    unflushed: bool,
}

impl Model for SyncFile {
    ghost use Rattle.device_file.specs.FileDisk.{FileDisk};

    ghost Value = { FileDisk };

    ghost use Rattle.device_file.specs.Sync.{file_disk, IsSyncKept};

    ghost view = { file_disk };

    ghost invariant = { IsSyncKept };
}

// Whether a call of the system did what it was asked.
fn is_good(outcome: &io::Result<()>) -> bool
    ensures { IsTrue result ↔ IsOk outcome.now }
{
    outcome.is_ok()
}

// One fault more where a call went wrong.
fn faults_after(faults: u64, ok: bool) -> u64
    ensures later { faults ≤ result }
    ensures rose { ok ≡ false → Rose faults result }
{
    if ok { faults } else { faults.saturating_add(1) }
}

// Takes out the submission that was made first.
fn take_first(pending: &mut VecDeque<Pending>) -> Option<Pending>
    ensures some { IfSome result (λ p. pending.old.items ≡ p ∷ pending.new.items) }
    ensures none { IfNone result ((pending.old.items ≡ []) × (pending.new.items ≡ [])) }
    ensures capacity { deque_capacity pending.new ≡ deque_capacity pending.old }
{
    pending.pop_front()
}

// Why a call of the system failed: memory ran out, or a fault.
fn cause_of(error: &io::Error) -> Failed {
    match error.kind() {
        ErrorKind::OutOfMemory => Failed::Memory,
        _ => Failed::Fault,
    }
}

impl SyncFile {
    /// Opens a file, or a block device of the system, as a device. `Some(n)` makes a device of exactly n units, which keeps
    /// what it held: a file is made where it is missing, and else cut or filled with zeros; a block device, which can't be cut
    /// or grown, has to have exactly n whole units. None opens what is there. Its whole units are the device, a rest of less
    /// than a unit is left alone, and more than 1048576 units are a fault.
    ///
    /// The steps come in this order, and the first call of the system that fails ends them, as a fault:
    ///
    /// - It is opened. What is neither a regular file nor a block device is a fault, and isn't opened at all.
    /// - It is locked, for as long as this value lives, since two programs that write one store at once lose what each of
    ///   them acknowledged. A lock that another opening has is asked for again for about a second, since a watcher of the system
    ///   may have it for a moment; then it is a fault, and nothing of the device was read or changed.
    /// - A file that is made gets its length.
    /// - It is flushed, since a program that was killed leaves its last writes in the system's cache: they read as if they
    ///   were stable, and are gone after a loss of power.
    /// - Of a file that is made, the folder is flushed too, so that its being there is stable.
    ///
    /// What was written before is stable from here on, so the first flush has nothing to do unless something is written before
    /// it. One thing no call here can undo: after a flush that failed, the system may keep a page that isn't on the disk and
    /// call it clean. Who opens a device after such a run has the system drop its pages first, as the script `bstore` does.
    pub fn open<R: Files<File = File> + Clock>(
        rt: &R,
        alloc: Global,
        path: &str,
        make: Option<u32>,
    ) -> Result<SyncFile, Failed>
        requires { IfSome make (λ n. n ≤ 1048576) }
        ensures fresh { IfOk result (λ d. d ≡ fresh_file d.disk.units) }
        ensures sized { IfOk result (λ d. d.disk.units ≤ 1048576) }
        ensures made { IfOk result (λ d. IfSome make (λ n. d.disk.units ≡ n)) }
    {
        let Ok(pending) = VecDeque::with_capacity(alloc, DEPTH as usize) else {
            return Err(Failed::Memory);
        };
        let opened = match make {
            Some(units) => make_file(rt, alloc, path, units).map(|file| (file, units)),
            None => open_file(rt, path),
        };
        match opened {
            Ok((file, units)) => Ok(SyncFile {
                file,
                units,
                pending,
                events: 0,
                fault_count: 0,
                unflushed: false,
            }),
            Err(error) => Err(cause_of(&error)),
        }
    }
}

impl Device for SyncFile {
    ghost disk = { λ d. d.disk };

    ghost faults = { λ d. d.faults };

    fn units(&self) -> u32 {
        self.units
    }

    fn depth(&self) -> u32 {
        let _ = &self.units;
        DEPTH
    }

    fn in_flight(&self) -> u32 {
        self.pending.len() as u32
    }

    fn submit_write(&mut self, at: u32, bytes: Vec<u8>) -> Result<Ticket, Back> {
        if self.events == u64::MAX {
            return Err(Back { bytes });
        }
        let place = self.events;
        self.unflushed = true;
        let ok = is_good(&self.file.write_all_at(&bytes, offset_of(at)));
        self.events += 1;
        self.pending.push_back_reserved(Pending {
            ticket: place,
            first: at,
            bytes: bytes.len(),
            ok,
        });
        Ok(Ticket { place })
    }

    fn submit_flush(&mut self) -> Result<Ticket, AllocError> {
        if self.events == u64::MAX {
            return Err(AllocError);
        }
        let place = self.events;
        let ok = !self.unflushed || is_good(&self.file.sync_data());
        self.unflushed = !ok;
        self.events += 1;
        self.pending.push_back_reserved(Pending {
            ticket: place,
            first: 0,
            bytes: 0,
            ok,
        });
        Ok(Ticket { place })
    }

    fn reap(&mut self) -> Option<Done>
        ensures done { IfSome result (λ done. Reaped self.old.disk done.ticket.place done.ok self.new.disk) }
        ensures none { IfNone result (Waited self.old.disk self.new.disk) }
        ensures later { self.old.faults ≤ self.new.faults }
        ensures cause { IfSome result (λ done. done.ok ≡ false → Rose self.old.faults self.new.faults) }
        ensures sound { IsSound self.new.disk }

        // The ends come in ticket order, and each call gives one while something is in flight.
        ensures in_order { IfSome result (λ done. All (λ f. done.ticket.place ≤ f.ticket) self.old.disk.flights) }
        ensures idle { IfNone result (self.old.disk.flights ≡ []) }
    {
        let done = take_first(&mut self.pending)?;
        self.events = self.events.saturating_add(1);
        self.fault_count = faults_after(self.fault_count, done.ok);
        Some(Done {
            ticket: Ticket { place: done.ticket },
            ok: done.ok,
        })
    }

    fn read(&mut self, at: u32, count: u32, into: &mut Vec<u8>) -> Result<(), Failed> {
        let file = &self.file;
        if into.resize(4096 * count as usize, 0).is_err() {
            into.clear();
            return Err(Failed::Memory);
        }
        if is_good(&file.read_exact_at(into, offset_of(at))) {
            return Ok(());
        }
        into.clear();
        self.fault_count = self.fault_count.saturating_add(1);
        Err(Failed::Fault)
    }
}
