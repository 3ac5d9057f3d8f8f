//! Devices and scripts in files.
ghost use Rattle.std.specs.Prelude.{◌≡◌, ◌+◌, ◌<◌, ◌≤◌, IfOk};
ghost use Rattle.block_device.specs.Prelude.{Rose};
ghost use Rattle.device_file.specs.FileDisk.{fresh_file};
ghost use Rattle.end_points.specs.Bay.{IsFewUnits, HasAskedUnits};
ghost use Rattle.file_ends.specs.Shelf.{shelf_view};

use crate::source::FileSource;
use crate::standard::StandardDescriptors;
use block_device::Failed;
use device_file::SyncFile;
use end_points::{Bay, How};
use std::alloc::Global;
use std::fs::File;
use std::marker::Model;
use std::rt::Files;
use std::time::Clock;

/// Hands out the files of the system by their paths. Each call of the system that fails is a fault, of which it keeps the
/// count. A device works each write and flush where it is submitted, also where it was asked for as queued.
///
/// A bay that couldn't make sure of the standard descriptors opens nothing: then each of its calls is a fault.
#[derive(Drop)]
pub struct FileBay<R: Files<File = File> + Clock + Copy> {
    rt: R,
    alloc: Global,
    standard: Option<StandardDescriptors>,
    given: u32,
    fault_count: u64,
}

impl<R: Files<File = File> + Clock + Copy> Model for FileBay<R> {
    ghost use Rattle.file_ends.specs.Shelf.{Shelf};

    ghost Value = { Shelf };

    ghost view = { λ b. record { given = b.given; faults = b.fault_count } };
}

// Opens a device, made of so many units or as it is there.
fn open_device<R: Files<File = File> + Clock>(
    rt: &R,
    alloc: Global,
    name: &str,
    how: How,
) -> Result<SyncFile, Failed>
    requires { IsFewUnits how }
    ensures fresh { IfOk result (λ dev. dev ≡ fresh_file dev.disk.units) }
    ensures units { IfOk result (λ dev. HasAskedUnits how dev.disk.units) }
{
    match how {
        How::Make(units) => SyncFile::open(rt, alloc, name, Some(units)),
        How::Plain | How::Queued => SyncFile::open(rt, alloc, name, None),
    }
}

// Opens a script.
fn open_script<R: Files<File = File>>(rt: &R, name: &str) -> Result<FileSource, Failed>
    ensures { IfOk result (λ src. src ≡ 0) }
{
    match File::open(rt, name) {
        Ok(file) => Ok(FileSource::new(file)),
        Err(_) => Err(Failed::Fault),
    }
}

// The count of faults after a call that failed: want of memory is none.
fn faults_after(count: u64, failed: Failed) -> u64
    ensures later { count ≤ result }
    ensures cause { failed ≡ Failed.Fault → Rose count result }
    ensures memory { failed ≡ Failed.Memory → result ≡ count }
{
    match failed {
        Failed::Fault => count.saturating_add(1),
        Failed::Memory => count,
    }
}

impl<R: Files<File = File> + Clock + Copy> FileBay<R> {
    /// A bay over the system's files, which makes sure of the standard descriptors first.
    pub fn new(rt: R, alloc: Global) -> FileBay<R>
        ensures { result ≡ record { given = 0; faults = 0 } }
    {
        let standard = StandardDescriptors::keep(&rt).ok();
        FileBay {
            rt,
            alloc,
            standard,
            given: 0,
            fault_count: 0,
        }
    }
}

impl<R: Files<File = File> + Clock + Copy> Bay for FileBay<R> {
    type Dev = SyncFile;

    type Src = FileSource;

    ghost bay = { shelf_view };

    ghost faults = { λ b. b.faults };

    fn given(&self) -> u32 {
        self.given
    }

    fn device(&mut self, name: &str, how: How) -> Result<SyncFile, Failed> {
        let opened = match self.standard {
            Some(_) => open_device(&self.rt, self.alloc, name, how),
            None => Err(Failed::Fault),
        };
        match opened {
            Ok(device) => {
                self.given += 1;
                Ok(device)
            }
            Err(failed) => {
                self.fault_count = faults_after(self.fault_count, failed);
                Err(failed)
            }
        }
    }

    fn script(&mut self, name: &str) -> Result<FileSource, Failed> {
        let opened = match self.standard {
            Some(_) => open_script(&self.rt, name),
            None => Err(Failed::Fault),
        };
        if let Err(failed) = opened {
            self.fault_count = faults_after(self.fault_count, failed);
        }
        opened
    }
}
