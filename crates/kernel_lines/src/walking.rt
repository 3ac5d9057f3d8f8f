//! Walks over all collections and their objects.

use block_device::MemoryDevice;
use case_text::{CaseError, Text};
use read_facts::ObjectView;
use std::alloc::Global;
use store_kernel::{Kernel, WalkFail};
use unit_fields::{CollName, Name};

/// The most collections, and objects of one, that are shown.
const MOST_SHOWN: u32 = 1000;

fn print_fail(why: WalkFail, out: &mut Text) {
    match why {
        WalkFail::Down { ticket } => out.println(format_args!("down by {}", ticket.place)),
        WalkFail::DeviceRead => out.println("the device failed"),
        WalkFail::Memory => out.println("out of memory"),
    }
}

fn print_object(view: &ObjectView, out: &mut Text) {
    let name = str::from_utf8(view.name.as_slice()).unwrap_or("?");
    out.print(format_args!("object {name} {}", view.size));
    match &view.sum {
        Ok(sum) => out.println(format_args!(" {sum:08x}")),
        Err(bad) => out.println(format_args!(" bad unit {}", bad.unit.number())),
    }
}

/// The next object of a collection; None behind the last one, and where a read fails, which is shown.
fn next_object(
    alloc: Global,
    kernel: &mut Kernel<MemoryDevice>,
    coll: &CollName,
    after: Option<&Name>,
    out: &mut Text,
) -> Option<ObjectView> {
    match kernel.next_object(alloc, coll, after) {
        Ok(found) => found,
        Err(why) => {
            print_fail(why, out);
            None
        }
    }
}

fn walk_objects(
    alloc: Global,
    kernel: &mut Kernel<MemoryDevice>,
    coll: &CollName,
    out: &mut Text,
) -> Result<(), CaseError> {
    let mut after: Option<Name> = None;
    for _ in 0..MOST_SHOWN {
        let Some(view) = next_object(alloc, kernel, coll, after.as_ref(), out) else {
            return Ok(());
        };
        print_object(&view, out);
        after = Some(view.name);
    }
    Err(CaseError::Line("too many objects"))
}

/// The next collection; None behind the last one, and where the kernel is down, which is shown.
fn next_collection(
    alloc: Global,
    kernel: &Kernel<MemoryDevice>,
    after: Option<&CollName>,
    out: &mut Text,
) -> Option<CollName> {
    match kernel.next_collection(alloc, after) {
        Ok(found) => found,
        Err(why) => {
            print_fail(why, out);
            None
        }
    }
}

fn print_collection(coll: &CollName, out: &mut Text) {
    let name = str::from_utf8(coll.as_slice()).unwrap_or("?");
    out.println(format_args!("coll {name}"));
}

/// Follows `walk`.
pub fn walk(
    alloc: Global,
    kernel: &mut Kernel<MemoryDevice>,
    out: &mut Text,
) -> Result<(), CaseError> {
    let mut after: Option<CollName> = None;
    for _ in 0..MOST_SHOWN {
        let Some(coll) = next_collection(alloc, kernel, after.as_ref(), out) else {
            return Ok(());
        };
        print_collection(&coll, out);
        walk_objects(alloc, kernel, &coll, out)?;
        after = Some(coll);
    }
    Err(CaseError::Line("too many collections"))
}
