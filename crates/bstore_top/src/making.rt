//! The work of the command `mkfs`.
ghost use Rattle.std.specs.Prelude.{◌≡◌, ◌<◌, ◌≤◌, ◌+◌, ◌^◌, Some, None, IsSomeAnd};
ghost use Rattle.std.specs.Option.{option_map};
ghost use Rattle.command_words.specs.declared.command_line.CommandLine.TheVariants.{Mkfs};
ghost use Rattle.command_words.specs.CommandLine.{IsHalf, IsUnitCount};
ghost use Rattle.bstore_top.specs.Run.{HasCause, LeavesGiven, ComesBack, HasStore};

use block_device::Failed;
use command_words::FileName;
use end_points::{Bay, How};
use mount_replay::{MkfsFail, mkfs, units_needed};
use run_texts::Stop;
use std::alloc::Global;

/// How the work of a command ended, before anything of it was printed, and the device that the bay gave for it.
pub struct Work<D> {
    pub stop: Option<Stop>,
    pub dev: Option<D>,
}

/// Work that stopped before the bay gave a device.
fn stopped<D>(stop: Stop) -> Work<D>
    ensures { result ≡ record { stop = Some stop; dev = None } }
{
    Work {
        stop: Some(stop),
        dev: None,
    }
}

/// Makes a device of so many units, and an empty store on it, whose superblock keeps `prefer`. Where so many units are too few, the bay isn't
/// asked for a device.
pub fn make_store<B: Bay>(
    alloc: Global,
    dev: &FileName<'_>,
    half: u32,
    units: u32,
    prefer: u32,
    bay: &mut B,
) -> Work<B::Dev>
    requires half { IsHalf half }
    requires units { IsUnitCount units }
    requires prefer { prefer ≤ 1048576 }
    requires given { (B.bay bay.old).given + 1 < 2 ^ 32 }
    ensures cause { HasCause half units result.stop (option_map B.Dev.faults result.dev) (B.faults bay.old) (B.faults bay.new) }
    ensures left { LeavesGiven dev.now units result.stop (B.bay bay.old) (option_map B.Dev.disk result.dev) (B.bay bay.new) }
    ensures device { ComesBack (Mkfs dev.now half units prefer) (B.bay bay.old) (option_map B.Dev.disk result.dev) (B.bay bay.new) }
    ensures store { result.stop ≡ None → IsSomeAnd (option_map B.Dev.disk result.dev) (HasStore (Mkfs dev.now half units prefer)) }
{
    if units < units_needed(half) {
        return stopped(Stop::Refused);
    }
    let device = match bay.device(dev.as_str(), How::Make(units)) {
        Ok(device) => device,
        Err(Failed::Memory) => return stopped(Stop::OutOfMemory),
        Err(Failed::Fault) => return stopped(Stop::BayFault),
    };
    match mkfs(alloc, device, half, prefer) {
        Ok(device) => Work {
            stop: None,
            dev: Some(device),
        },
        Err((MkfsFail::Memory, device)) => Work {
            stop: Some(Stop::OutOfMemory),
            dev: Some(device),
        },
        Err((MkfsFail::Fault, device)) => Work {
            stop: Some(Stop::DeviceFault),
            dev: Some(device),
        },
        Err((MkfsFail::TooSmall { .. }, _)) => unreachable!(),
    }
}
