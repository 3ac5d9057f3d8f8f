//! Over files of the folder that the tests run in. What a good output takes is seen of each run of the program.
ghost use Rattle.std.specs.Prelude.{IsTrue};
ghost use Rattle.end_points.specs.Bay.{IsFewUnits};

use block_device::{Device, Failed};
use end_points::{Bay, Fault, How, Sink, Source};
use file_ends::{FileBay, OutSink};
use std::alloc::{AllocError, Global};
use std::fs::{self, File, OpenOptions};
use std::rt::Files;
use std::test::Fail;
use std::time::Clock;

fn is_few(how: How) -> bool
    ensures { IsTrue result → IsFewUnits how }
{
    match how {
        How::Make(units) => units < 10,
        How::Plain | How::Queued => true,
    }
}

// How many units a device has that is asked for, or None at a fault.
fn units<R: Files<File = File> + Clock + Copy>(
    bay: &mut FileBay<R>,
    name: &str,
    how: How,
) -> Result<Option<u32>, AllocError> {
    if bay.given() > 9 || !is_few(how) {
        return Ok(None);
    }
    match bay.device(name, how) {
        Ok(device) => Ok(Some(device.units())),
        Err(Failed::Fault) => Ok(None),
        Err(Failed::Memory) => Err(AllocError),
    }
}

#[test]
fn devices_by_their_paths(rt: HostRuntime) -> Result<(), Fail> {
    let mut bay = FileBay::new(rt, rt.alloc());
    for (how, wanted) in [
        (How::Plain, None),
        (How::Make(3), Some(3)),
        (How::Plain, Some(3)),
        (How::Queued, Some(3)),
    ] {
        assert_eq!(rt; units(&mut bay, "device", how)?, wanted);
    }
    fs::remove_file(&rt, "device")?;
    Ok(())
}

// What two reads of a script give, of at most four bytes each, or None at a fault.
fn text_of<R: Files<File = File> + Clock + Copy>(
    alloc: Global,
    bay: &mut FileBay<R>,
    name: &str,
) -> Result<Vec<u8>, Failed> {
    let mut source = bay.script(name)?;
    let mut text = Vec::new(alloc);
    for _ in 0..2u32 {
        source.read(&mut text, 4)?;
    }
    Ok(text)
}

// A script, one that isn't there, and a folder, which can be opened and not read.
#[test]
fn scripts_by_their_paths(rt: HostRuntime) -> Result<(), Fail> {
    fs::write(&rt, "script", "wait\n")?;
    let mut bay = FileBay::new(rt, rt.alloc());
    assert_eq!(rt;
        text_of(rt.alloc(), &mut bay, "script")?.as_slice(),
        b"wait\n".as_slice()
    );
    for name in ["absent", "."] {
        assert_eq!(rt;
            text_of(rt.alloc(), &mut bay, name).err(),
            Some(Failed::Fault),
            "{name}"
        );
    }
    fs::remove_file(&rt, "script")?;
    Ok(())
}

// A full device, and a file that was opened for reads alone.
#[test]
fn failing_writes(rt: HostRuntime) -> Result<(), Fail> {
    let full = OpenOptions::new().write(true).open(&rt, "/dev/full")?;
    let no_output = File::open(&rt, "/dev/null")?;
    for file in [full, no_output] {
        assert_eq!(rt; OutSink::new(file, rt).write(b"64"), Err(Fault));
    }
    Ok(())
}
