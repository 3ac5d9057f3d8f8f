//! How a device over a file begins: the file is opened, locked, brought to its size, and settled.

ghost use Rattle.std.specs.Prelude.{◌≡◌, ◌*◌, ◌≤◌, IfOk};

use std::alloc::Global;
use std::fs::{self, File, Metadata, OpenOptions, TryLockError};
use std::io::{self, ErrorKind, Seek, SeekFrom};
use std::os::unix::fs::FileTypeExt;
use std::path::Path;
use std::rt::Files;
use std::thread;
use std::time::{Clock, Duration};

const UNIT_BYTES: u64 = 4096;

const MOST_UNITS: u64 = 1_048_576;

// A lock that another opening has is asked for so often, with a pause of so many milliseconds behind each time: for a second.
const LOCK_TRIES: u32 = 100;

const LOCK_PAUSE: u64 = 10;

// The place in the file of a unit.
pub(crate) fn offset_of(unit: u32) -> u64
    ensures { result ≡ 4096 * unit }
{
    UNIT_BYTES * unit as u64
}

// Only a regular file and a block device hold units.
fn holds_units(found: &Metadata) -> bool {
    found.is_file() || found.file_type().is_block_device()
}

// Locks a file. Where another opening has the lock, it is asked for again for about a second: a watcher of the system takes the
// lock of a block device for some milliseconds each time the device is closed after writes.
fn lock<R: Clock>(rt: &R, file: &File) -> io::Result<()> {
    for _ in 0..LOCK_TRIES {
        match file.try_lock() {
            Err(TryLockError::WouldBlock) => thread::sleep(rt, Duration::from_millis(LOCK_PAUSE)),
            outcome => return Ok(outcome?),
        }
    }
    Err(io::Error::from(ErrorKind::WouldBlock))
}

// Opens a regular file or a block device for reads and writes, made as an empty file where it is missing and `create` says
// so, and locks it before anything of it is read or changed. What stands under the path is looked at before it is opened
// too, since opening some other things waits, or does something by itself.
fn open_locked<R: Files<File = File> + Clock>(
    rt: &R,
    path: &str,
    create: bool,
) -> io::Result<File> {
    if fs::metadata(rt, path).is_ok_and(|found| !holds_units(&found)) {
        return Err(io::Error::from(ErrorKind::Unsupported));
    }
    let file = OpenOptions::new()
        .read(true)
        .write(true)
        .create(create)
        .open(rt, path)?;
    if !holds_units(&file.metadata()?) {
        return Err(io::Error::from(ErrorKind::Unsupported));
    }
    lock(rt, &file)?;
    Ok(file)
}

// The number of whole units. The end is sought, since a block device has no length.
fn whole_units(mut file: &File) -> io::Result<u32>
    ensures { IfOk result (λ units. units ≤ 1048576) }
{
    let units = file.seek(SeekFrom::End(0))? / UNIT_BYTES;
    if units > MOST_UNITS {
        return Err(io::Error::from(ErrorKind::FileTooLarge));
    }
    Ok(units as u32)
}

// Flushes the folder that a path is in.
fn sync_folder<R: Files<File = File>>(rt: &R, path: &str) -> io::Result<()> {
    match Path::new(path).parent() {
        Some(folder) if !folder.as_str().is_empty() => File::open(rt, folder)?.sync_all(),
        _ => File::open(rt, ".")?.sync_all(),
    }
}

// Flushes the folder that the file is in. Where the path is a link, that is the folder of the file that it leads to.
fn sync_name<R: Files<File = File>>(rt: &R, alloc: Global, path: &str) -> io::Result<()> {
    if !fs::symlink_metadata(rt, path)?.is_symlink() {
        return sync_folder(rt, path);
    }
    let real = rt.canonicalize(alloc, path)?;
    sync_folder(rt, real.as_str())
}

// Opens a device of exactly so many units. A file is made where it is missing, and else cut or filled with zeros; then its
// length and its being there are stable before this returns. A block device can't be cut or grown, so it is taken where it
// has just so many whole units.
pub(crate) fn make_file<R: Files<File = File> + Clock>(
    rt: &R,
    alloc: Global,
    path: &str,
    units: u32,
) -> io::Result<File> {
    let file = open_locked(rt, path, true)?;
    if file.metadata()?.is_file() {
        file.set_len(offset_of(units))?;
        file.sync_all()?;
        sync_name(rt, alloc, path)?;
    } else if whole_units(&file)? == units {
        file.sync_all()?;
    } else {
        return Err(io::Error::from(ErrorKind::InvalidInput));
    }
    Ok(file)
}

// Opens what is there, with the number of its whole units.
pub(crate) fn open_file<R: Files<File = File> + Clock>(
    rt: &R,
    path: &str,
) -> io::Result<(File, u32)>
    ensures { IfOk result (λ opened. opened.1 ≤ 1048576) }
{
    let file = open_locked(rt, path, false)?;
    file.sync_all()?;
    let units = whole_units(&file)?;
    Ok((file, units))
}
