//! The descriptors of standard input, output and error.

use std::fs::File;
use std::io;
use std::rt::Files;

// A file that stays as it is, whatever is done by its descriptor, since it is opened for reads alone: an empty one, and where
// that isn't there, as in a bare root, a folder.
fn open_idle<R: Files<File = File>>(rt: &R) -> io::Result<File> {
    File::open(rt, "/dev/null")
        .or_else(|_| File::open(rt, "/"))
        .or_else(|_| File::open(rt, "."))
}

/// Three openings of `/dev/null`, or of a folder where it isn't there: for as long as they are kept, none of the descriptors
/// 0, 1 and 2 is free.
///
/// A program may be started with some of them closed, as by `>&-`. The system gives each opening the lowest number that is
/// free, so a device that is opened then could stand under number 1, and the program's text would be written into the
/// store. Each of these openings takes one of the three numbers while one is free, so after three none is, whatever the
/// numbers of the three are. A write to a number that they took fails, as it does where nothing is open.
#[derive(Drop)]
pub struct StandardDescriptors {
    _kept: [File; 3],
}

impl StandardDescriptors {
    /// Makes sure of the three. Where the system refuses an opening there is no such promise.
    pub fn keep<R: Files<File = File>>(rt: &R) -> io::Result<StandardDescriptors> {
        let kept = [open_idle(rt)?, open_idle(rt)?, open_idle(rt)?];
        Ok(StandardDescriptors { _kept: kept })
    }
}
