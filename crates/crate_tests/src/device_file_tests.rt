//! On files of the folder that the tests run in.

use block_device::{Device, Failed};
use device_file::SyncFile;
use std::alloc::{AllocError, Global};
use std::fs;
use std::fs::File;
use std::rt::Files;
use std::test::Fail;
use std::time::Clock;

// A submission to a device.
#[derive(Clone, Copy)]
enum Step {
    // Writes a unit of a byte.
    Write(u32, u8),
    Flush,
}

// Whether it is taken.
fn submits(alloc: Global, device: &mut SyncFile, step: Step) -> Result<bool, AllocError> {
    let units = device.units();
    if device.in_flight() > 0 {
        return Ok(false);
    }
    match step {
        Step::Flush => Ok(device.submit_flush().is_ok()),
        Step::Write(at, byte) if at < units => {
            let bytes = vec![in alloc; byte; 4096]?;
            Ok(device.submit_write(at, bytes).is_ok())
        }
        Step::Write(..) => Ok(false),
    }
}

fn ends_well(device: &mut SyncFile) -> bool {
    match device.reap() {
        Some(done) => done.ok,
        None => false,
    }
}

// Whether each is taken and ends well, one behind the other.
fn end_well(alloc: Global, device: &mut SyncFile, steps: &[Step]) -> Result<bool, AllocError> {
    for step in steps {
        if !submits(alloc, device, *step)? || !ends_well(device) {
            return Ok(false);
        }
    }
    Ok(true)
}

// All bytes of a device on which nothing is in flight.
fn contents(alloc: Global, device: &mut SyncFile) -> Result<Vec<u8>, Failed> {
    let mut bytes = Vec::new(alloc);
    let units = device.units();
    if device.in_flight() == 0 {
        device.read(0, units, &mut bytes)?;
    }
    Ok(bytes)
}

// All bytes of a file that is opened, or made of so many units.
fn bytes_of(
    rt: &(impl AllocGlobal + Clock + Files<File = File>),
    path: &str,
    make: Option<u16>,
) -> Result<Vec<u8>, Failed> {
    let make = match make {
        Some(units) => Some(u32::from(units)),
        None => None,
    };
    contents(rt.alloc(), &mut SyncFile::open(rt, rt.alloc(), path, make)?)
}

// Whether the bytes are these runs, one behind the other.
fn are_runs(bytes: &[u8], runs: &[(usize, u8)]) -> bool {
    let mut left = bytes.iter();
    for (length, byte) in runs {
        for _ in 0..*length {
            if left.next() != Some(byte) {
                return false;
            }
        }
    }
    left.next().is_none()
}

// A flush with nothing to flush ends as each other one does.
#[test]
fn what_is_written_is_there_again(rt: HostRuntime) -> Result<(), Fail> {
    let steps = [
        Step::Flush,
        Step::Flush,
        Step::Write(1, 7),
        Step::Flush,
        Step::Write(3, 8),
        Step::Flush,
        Step::Flush,
    ];
    let mut device = SyncFile::open(&rt, rt.alloc(), "written", Some(4))?;
    assert!(rt; end_well(rt.alloc(), &mut device, &steps)?);
    drop(device);
    let runs = [(4096, 0), (4096, 7), (4096, 0), (4096, 8)];
    assert!(rt; are_runs(&bytes_of(&rt, "written", None)?, &runs));
    fs::remove_file(&rt, "written")?;
    Ok(())
}

// A file of one unit and a part of one, as it is, made longer, and made shorter.
static KEPT: [(Option<u16>, &[(usize, u8)]); 3] = [
    (None, &[(4096, 9)]),
    (Some(3), &[(5000, 9), (7288, 0)]),
    (Some(1), &[(4096, 9)]),
];

#[test]
fn make_keeps_what_fits(rt: HostRuntime) -> Result<(), Fail> {
    fs::write(&rt, "kept", vec![in rt.alloc(); 9u8; 5000]?)?;
    for (make, runs) in &KEPT {
        assert!(rt; are_runs(&bytes_of(&rt, "kept", *make)?, runs), "{make:?}");
    }
    fs::remove_file(&rt, "kept")?;
    Ok(())
}

// What is no file, and one that is open already: it is locked while it is open, and another opening doesn't cut it.
#[test]
fn faults_of_openings(rt: HostRuntime) -> Result<(), Fail> {
    let first = SyncFile::open(&rt, rt.alloc(), "locked", Some(2))?;
    for (path, make) in [
        ("locked", None),
        ("locked", Some(1)),
        (".", None),
        (".", Some(1)),
        ("absent", None),
        ("absent/file", Some(1)),
        ("/dev/null", None),
        ("/dev/zero", Some(1)),
    ] {
        let opened = bytes_of(&rt, path, make);
        assert_eq!(rt; opened.err(), Some(Failed::Fault), "{path}");
    }
    drop(first);
    assert_eq!(rt; bytes_of(&rt, "locked", None)?.len(), 8192);
    fs::remove_file(&rt, "locked")?;
    Ok(())
}

// A file that was cut since it was opened has fewer bytes than its units.
#[test]
fn a_read_past_the_end_is_a_fault(rt: HostRuntime) -> Result<(), Fail> {
    let mut device = SyncFile::open(&rt, rt.alloc(), "cut", Some(2))?;
    fs::write(&rt, "cut", "short")?;
    let read = contents(rt.alloc(), &mut device);
    assert_eq!(rt; read.err(), Some(Failed::Fault));
    fs::remove_file(&rt, "cut")?;
    Ok(())
}
