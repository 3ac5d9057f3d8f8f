//! The work of the command `fsck`: a store is looked through, and nothing is written.
ghost use Rattle.std.specs.Prelude.{◌≡◌, ◌<◌, ◌≤◌, ◌+◌, ◌^◌, []};
ghost use Rattle.std.specs.Option.{option_map};
ghost use Rattle.command_words.specs.declared.command_line.CommandLine.TheVariants.{Fsck};
ghost use Rattle.client_runs.specs.Prelude.{empty_book};
ghost use Rattle.bstore_top.specs.StepRun.{seen};
ghost use Rattle.bstore_top.specs.FsckRun.{end_of_fsck, LooksThrough, IsFsckDone};
ghost use Rattle.bstore_top.specs.Run.{ComesBack};

use crate::script_work::unopened;
use block_device::Device;
use byte_maps::Items;
use command_words::FileName;
use end_points::{Bay, How};
use fsck_check::{Finding, FsckFail, fsck};
use run_texts::WorkEnd;
use std::alloc::Global;

/// What `fsck` found, or why it looked through no store, before anything of it was printed; and what it leaves.
pub struct FsckWork<D> {
    pub ended: Result<Items<Finding>, WorkEnd>,
    /// The device, where the bay gave it.
    pub dev: Option<D>,
}

/// How a run ends that looked through no store.
fn unlooked(fail: FsckFail) -> WorkEnd
    ensures { result ≡ end_of_fsck fail }
{
    match fail {
        FsckFail::Memory => WorkEnd::OutOfMemory,
        FsckFail::NoSuper => WorkEnd::NoSuper,
        FsckFail::Fault => WorkEnd::DeviceFault,
    }
}

/// Looks through the store on the device.
fn fsck_on<D: Device>(alloc: Global, dev: &mut D) -> Result<Items<Finding>, WorkEnd>
    requires idle { (D.disk dev.old).flights ≡ [] }
    ensures same { D.disk dev.new ≡ D.disk dev.old }
    ensures looks { LooksThrough (D.disk dev.old) (D.faults dev.old) result (D.faults dev.new) }
{
    match fsck(alloc, dev) {
        Ok(found) => Ok(Items::from_vec(found)),
        Err(fail) => Err(unlooked(fail)),
    }
}

/// Opens the device of this name, and looks through the store there.
pub fn fsck_store<B: Bay>(alloc: Global, dev: &FileName<'_>, bay: &mut B) -> FsckWork<B::Dev>
    requires { (B.bay bay.old).given + 1 < 2 ^ 32 }
    ensures done { IsFsckDone dev.now result.ended
        (seen (option_map B.Dev.disk result.dev) (option_map B.Dev.faults result.dev) [] empty_book)
        (B.bay bay.old) (B.bay bay.new) (B.faults bay.old) (B.faults bay.new) }
    ensures device { ComesBack (Fsck dev.now) (B.bay bay.old) (option_map B.Dev.disk result.dev) (B.bay bay.new) }
{
    let mut device = match bay.device(dev.as_str(), How::Plain) {
        Ok(device) => device,
        Err(fail) => return FsckWork {
            ended: Err(unopened(fail)),
            dev: None,
        },
    };
    let _ = device.units();
    let ended = fsck_on(alloc, &mut device);
    FsckWork {
        ended,
        dev: Some(device),
    }
}
