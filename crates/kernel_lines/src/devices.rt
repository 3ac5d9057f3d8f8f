//! Making stores, mounting them, and unmounting them.
ghost use Rattle.std.specs.Prelude.{◌≡◌, ◌≤◌, [], IfOk};
ghost use Rattle.block_device.specs.Prelude.{disk_of};

use crate::lines::KernelLines;
use crate::mounted::Mounted;
use block_device::{Device, MemoryDevice};
use case_text::{CaseError, Text, Words, last_written, print_piece};
use mount_replay::{MkfsFail, MountFail, mkfs, mount};
use object_model::Book;
use std::alloc::Global;
use store_kernel::Kernel;

fn print_mkfs_fail(fail: &MkfsFail, out: &mut Text) {
    match fail {
        MkfsFail::TooSmall { units, need } => {
            out.println(format_args!("TooSmall units={units} need={need}"));
        }
        MkfsFail::Fault => out.println("Fault"),
        MkfsFail::Memory => out.println("out of memory"),
    }
}

fn print_mount_fail(fail: &MountFail, out: &mut Text) {
    match fail {
        MountFail::NoSuper => out.println("NoSuper"),
        MountFail::BadRow { key } => {
            out.print("BadRow ");
            for byte in key.as_slice() {
                out.print(format_args!("{byte:02x}"));
            }
            out.print("\n");
        }
        MountFail::NotExact { unit } => out.println(format_args!("NotExact unit={unit}")),
        MountFail::WornOut { value } => out.println(format_args!("WornOut value={value}")),
        MountFail::Fault => out.println("Fault"),
        MountFail::Memory => out.println("out of memory"),
    }
}

/// Shows how many units a device has, how many events its log, and what is in flight.
fn print_device(dev: &MemoryDevice, out: &mut Text) {
    let units = dev.units();
    let events = dev.events();
    let flying = dev.in_flight();
    out.println(format_args!("units={units} events={events} flying={flying}"));
}

fn print_book(book: &Book, out: &mut Text) {
    let entries = book.entries.len();
    let commits = book.commits.len();
    out.println(format_args!("entries={entries} commits={commits}"));
}

/// The size of a half that a store may have.
fn half_of(number: u32) -> Result<u32, CaseError>
    ensures { IfOk result (λ half. (8 ≤ half) × (half ≤ 65536)) }
{
    if number < 8 || 65536 < number {
        return Err(CaseError::Line("no half"));
    }
    Ok(number)
}

fn made(
    alloc: Global,
    dev: MemoryDevice,
    half: u32,
) -> Result<MemoryDevice, (MkfsFail, MemoryDevice)>
    requires idle { (disk_of dev).flights ≡ [] }
    requires least { 8 ≤ half }
    requires most { half ≤ 65536 }
{
    mkfs(alloc, dev, half, 32768)
}

/// Mounts a device on which nothing is in flight.
pub fn opened(
    alloc: Global,
    dev: MemoryDevice,
) -> Result<Kernel<MemoryDevice>, (MountFail, MemoryDevice)>
    requires { (disk_of dev).flights ≡ [] }
{
    mount(alloc, dev)
}

/// Makes a store on a device, and shows what came of it.
fn make_store(alloc: Global, dev: MemoryDevice, half: u32, out: &mut Text) -> MemoryDevice
    requires idle { (disk_of dev).flights ≡ [] }
    requires least { 8 ≤ half }
    requires most { half ≤ 65536 }
{
    match made(alloc, dev, half) {
        Ok(dev) => {
            out.print("made ");
            dev
        }
        Err((fail, dev)) => {
            print_mkfs_fail(&fail, out);
            dev
        }
    }
}

impl KernelLines {
    /// Keeps what a device was last written under a name.
    fn keep(&mut self, name: &str, dev: &MemoryDevice) -> Result<(), CaseError> {
        let contents = last_written(dev)?;
        self.setup.put_device(name, contents)
    }

    /// Follows `make NAME HALF`, from its second word on.
    pub fn make(&mut self, mut words: Words<'_>, out: &mut Text) -> Result<(), CaseError> {
        let name = words.next()?;
        let half = half_of(words.small()?)?;
        words.end()?;
        let dev = self.setup.device(name)?;
        let dev = make_store(self.alloc, dev, half, out);
        print_device(&dev, out);
        let kept = self.keep(name, &dev);
        drop(dev);
        kept
    }

    /// Follows `mount NAME`, from its second word on.
    pub fn mount(&mut self, words: Words<'_>, out: &mut Text) -> Result<(), CaseError> {
        let name = words.last()?;
        if self.mounted.is_some() {
            return Err(CaseError::Line("a store is mounted"));
        }
        let dev = self.setup.device(name)?;
        self.remember()?;
        match opened(self.alloc, dev) {
            Ok(kernel) => {
                self.keep_mounted(kernel, out);
                Ok(())
            }
            Err((fail, dev)) => {
                print_mount_fail(&fail, out);
                drop(fail);
                print_device(&dev, out);
                let kept = self.keep(name, &dev);
                drop(dev);
                kept
            }
        }
    }

    fn keep_mounted(&mut self, kernel: Kernel<MemoryDevice>, out: &mut Text) {
        let free = kernel.free_units();
        drop(self.mounted.replace(Mounted::new(self.alloc, kernel)));
        out.println(format_args!("mounted free={free}"));
    }

    /// Follows `unmount NAME`, from its second word on: keeps the device under the name.
    pub fn unmount(&mut self, words: Words<'_>, out: &mut Text) -> Result<(), CaseError> {
        let name = words.last()?;
        let Some(mounted) = self.mounted.take() else {
            return Err(CaseError::Line("nothing is mounted"));
        };
        let left = mounted.close();
        print_device(&left.dev, out);
        print_book(&left.book, out);
        let kept = self.keep(name, &left.dev);
        drop(self.left.replace(left));
        kept
    }

    /// Follows `see NAME AT COUNT`, from its second word on: shows bytes of a device, as runs of equal ones.
    pub fn see(&self, mut words: Words<'_>, out: &mut Text) -> Result<(), CaseError> {
        let contents = self.setup.contents(words.next()?)?;
        let [at, count] = words.numbers::<2>()?;
        out.print("bytes");
        print_piece(out, &contents, at, count)
    }
}
