//! The work of the command `dump`: a walk over all objects, of which each is printed once the walk has come to it.
ghost use Rattle.std.specs.Prelude.{◌≡◌, ◌<◌, ◌≤◌, ◌+◌, ◌^◌, [], None, IfErr, IsErrOf};
ghost use Rattle.std.specs.Option.{option_map};
ghost use Rattle.meta_log.specs.Prelude.{width_of};
ghost use Rattle.block_device.specs.Prelude.{IsSound, IsFresh, Rose};
ghost use Rattle.read_facts.specs.Prelude.{no_memory};
ghost use Rattle.store_steps.specs.Prelude.{memory_of};
ghost use Rattle.log_replay.specs.Prelude.{IsLater};
ghost use Rattle.command_words.specs.declared.command_line.CommandLine.TheVariants.{Dump};
ghost use Rattle.run_texts.specs.Prelude.{output};
ghost use Rattle.bstore_top.specs.Dumping.{IsOfUp, end_of_walk, PrintsColl, PrintsWalk, PrintsDump, PrintsDone};
ghost use Rattle.bstore_top.specs.Keeping.{StaysDurable};
ghost use Rattle.client_runs.specs.Prelude.{empty_book};
ghost use Rattle.bstore_top.specs.StepRun.{seen};
ghost use Rattle.bstore_top.specs.Run.{ComesBack};

use crate::script_work::{unmounted, unopened};
use block_device::Device;
use command_words::FileName;
use end_points::{Bay, How, Sink};
use mount_replay::{mount, unmount};
use run_texts::{DumpPrinter, WorkEnd};
use std::alloc::Global;
use store_kernel::{Kernel, WalkFail};
use unit_fields::{CollName, Name};

/// How the work of `dump` ended, before the last lines were printed, and what it leaves.
pub struct DumpWork<D> {
    pub end: WorkEnd,
    /// The device, where the bay gave it.
    pub dev: Option<D>,
}

/// Prints a collection, and goes over its objects, from the first one on, of which one at a time is in memory. What was seen is
/// printed, also where it fails. Once the sink has failed it goes no further.
fn walk_coll<D: Device, K: Sink>(
    alloc: Global,
    kernel: &mut Kernel<D>,
    coll: &CollName,
    text: &mut DumpPrinter,
    out: &mut K,
) -> Result<(), WalkFail>
    requires up { kernel.old.state.down ≡ None }
    requires nothing { memory_of kernel.old.state ≡ no_memory }
    ensures prints { PrintsColl (width_of kernel.old.state.log.sup) (D.disk kernel.old.device) kernel.old.state.submitted coll.now result
        text.old text.new (output (K.written out.old) (K.faults out.old)) (output (K.written out.new) (K.faults out.new)) }
    ensures fails { IfErr result IsOfUp }
    ensures same { kernel.new.state ≡ kernel.old.state }
    ensures disk { D.disk kernel.new.device ≡ D.disk kernel.old.device }
    ensures later { D.faults kernel.old.device ≤ D.faults kernel.new.device }
    ensures cause { IsErrOf result WalkFail.DeviceRead → Rose (D.faults kernel.old.device) (D.faults kernel.new.device) }
{
    text.push_coll(out, coll);
    let mut last: Option<Name> = None;
    'objects: while !text.has_failed() {
        let Some(object) = kernel.next_object(alloc, coll, last.as_ref())? else {
            return Ok(());
        };
        text.push_object(out, &object);
        last = Some(object.name);
    }
    Ok(())
}

/// Goes over all collections and their objects, and prints them. What was seen is printed, also where it fails. Once the sink has
/// failed it goes no further.
fn walk_store<D: Device, K: Sink>(
    alloc: Global,
    kernel: &mut Kernel<D>,
    text: &mut DumpPrinter,
    out: &mut K,
) -> Result<(), WalkFail>
    requires up { kernel.old.state.down ≡ None }
    requires nothing { memory_of kernel.old.state ≡ no_memory }
    ensures prints { PrintsWalk (width_of kernel.old.state.log.sup) (D.disk kernel.old.device) kernel.old.state.submitted result
        text.old text.new (output (K.written out.old) (K.faults out.old)) (output (K.written out.new) (K.faults out.new)) }
    ensures fails { IfErr result IsOfUp }
    ensures same { kernel.new.state ≡ kernel.old.state }
    ensures disk { D.disk kernel.new.device ≡ D.disk kernel.old.device }
    ensures later { D.faults kernel.old.device ≤ D.faults kernel.new.device }
    ensures cause { IsErrOf result WalkFail.DeviceRead → Rose (D.faults kernel.old.device) (D.faults kernel.new.device) }
{
    let mut last: Option<CollName> = None;
    'colls: while let Some(coll) = kernel.next_collection(alloc, last.as_ref())? {
        walk_coll(alloc, kernel, &coll, text, out)?;
        if text.has_failed() {
            return Ok(());
        }
        last = Some(coll);
    }
    Ok(())
}

/// How a run ends whose walk ended so, and whose sink has failed by then, or not, with so many units free. A kernel that was just
/// mounted isn't down.
fn ended(walked: Result<(), WalkFail>, failed: bool, free: u32) -> WorkEnd
    requires { IfErr walked IsOfUp }
    ensures { result ≡ end_of_walk walked failed free }
{
    match walked {
        Ok(()) if failed => WorkEnd::SinkFault,
        Ok(()) => WorkEnd::Done { free },
        Err(WalkFail::Memory) => WorkEnd::OutOfMemory,
        Err(WalkFail::DeviceRead) => WorkEnd::DeviceFault,
        Err(WalkFail::Down { .. }) => unreachable!(),
    }
}

/// Mounts the store on the device, goes over all its objects, which it prints, and unmounts it.
fn dump_on<D: Device, K: Sink>(
    alloc: Global,
    dev: D,
    text: &mut DumpPrinter,
    out: &mut K,
) -> (WorkEnd, D)
    requires idle { (D.disk dev).flights ≡ [] }
    ensures prints { PrintsDump (D.disk dev) (D.faults dev) result.0 (D.disk result.1) (D.faults result.1)
        text.old text.new (output (K.written out.old) (K.faults out.old)) (output (K.written out.new) (K.faults out.new)) }
    ensures durable { IsSound (D.disk dev) → IsFresh (D.disk dev) → StaysDurable (D.disk dev) empty_book (D.disk result.1) }
    ensures later { IsLater (D.disk dev) (D.disk result.1) }
{
    let mut kernel = match mount(alloc, dev) {
        Ok(kernel) => kernel,
        Err((fail, dev)) => return (unmounted(fail), dev),
    };
    let walked = walk_store(alloc, &mut kernel, text, out);
    let end = ended(walked, text.has_failed(), kernel.free_units());
    let (dev, _) = unmount(alloc, kernel);
    (end, dev)
}

/// Opens the device of this name, and prints all objects of the store there.
pub fn dump_store<B: Bay, K: Sink>(
    alloc: Global,
    dev: &FileName<'_>,
    bay: &mut B,
    text: &mut DumpPrinter,
    out: &mut K,
) -> DumpWork<B::Dev>
    requires { (B.bay bay.old).given + 1 < 2 ^ 32 }
    ensures prints { PrintsDone dev.now result.end
        (seen (option_map B.Dev.disk result.dev) (option_map B.Dev.faults result.dev) [] empty_book)
        (B.bay bay.old) (B.bay bay.new) (B.faults bay.old) (B.faults bay.new)
        text.old text.new (output (K.written out.old) (K.faults out.old)) (output (K.written out.new) (K.faults out.new)) }
    ensures device { ComesBack (Dump dev.now) (B.bay bay.old) (option_map B.Dev.disk result.dev) (B.bay bay.new) }
{
    let device = match bay.device(dev.as_str(), How::Plain) {
        Ok(device) => device,
        Err(fail) => return DumpWork {
            end: unopened(fail),
            dev: None,
        },
    };
    let _ = device.units();
    let (end, device) = dump_on(alloc, device, text, out);
    DumpWork {
        end,
        dev: Some(device),
    }
}
