//! The active half of the log is read, and its records make the rows.
ghost use Rattle.std.specs.Prelude.{◌≡◌, ◌≤◌, ◌+◌, [], IfOk, IfErr, IsErrOf};
ghost use Rattle.block_device.specs.Prelude.{IsSound, Rose};
ghost use Rattle.meta_log.specs.declared.slot.Super.{Super};
ghost use Rattle.log_replay.specs.Opening.{FailsMount, IsUnfound};
ghost use Rattle.log_replay.specs.HalfReading.{IsUnread, HasReplayed, IsHalfRead};
ghost use Rattle.log_replay.specs.FoundOn.{IsFoundOn};

use crate::gathering::Gathered;
use crate::half_reader::HalfReader;
use crate::opening::{MountFail, failed, find_super};
use block_device::{Device, Failed};
use meta_log::Super;
use meta_rows::RowTable;
use std::alloc::Global;

/// The rows that the records of a log make, and where the next record goes.
#[derive(Drop)]
pub struct Replayed {
    /// The rows after all records.
    pub rows: RowTable,
    /// The units that the records take.
    pub tail: u32,
    /// The number of the next record.
    pub number: u64,
}

/// A store as its superblock and its log tell it.
#[derive(Drop)]
pub struct FoundStore {
    /// What the active slot says.
    pub sup: Super,
    /// What the records of the active half make.
    pub log: Replayed,
    /// The units of the active half behind the records that aren't zero, ascending.
    pub stale: Vec<u32>,
}

/// The rows that the records of a half of the log make, of consecutive numbers from `first` on. The operations of many
/// records are applied together, by one merge with the rows.
fn replay<D: Device>(
    alloc: Global,
    dev: &mut D,
    half: &mut HalfReader,
    first: u64,
) -> Result<Replayed, Failed>
    requires idle { (D.disk dev.old).flights ≡ [] }
    requires begin { IsUnread half.old half.old.at half.old.end }
    requires order { half.old.at ≤ half.old.end }
    requires inside { half.old.end ≤ (D.disk dev.old).units }
    ensures same { D.disk dev.new ≡ D.disk dev.old }
    ensures replayed { IfOk result (HasReplayed (D.disk dev.old) half.old first half.new) }
    ensures faults { D.faults dev.old ≤ D.faults dev.new }
    ensures cause { IsErrOf result Failed.Fault → Rose (D.faults dev.old) (D.faults dev.new) }
{
    let mut gathered = Gathered::new(alloc);
    let mut tail = 0;
    let mut number = first;
    'records: while let Some(found) = half.record(alloc, dev, number)? {
        half.skip(found.units);
        tail += found.units;
        number += 1;
        let Ok(()) = gathered.take(alloc, found) else {
            return Err(Failed::Memory);
        };
    }
    let Ok(rows) = gathered.finish(alloc) else {
        return Err(Failed::Memory);
    };
    Ok(Replayed { rows, tail, number })
}

/// What the records of a half of the log make, the first of which has this number, and the units behind them that aren't zero.
fn read_half<D: Device>(
    alloc: Global,
    dev: &mut D,
    first: u32,
    count: u32,
    number: u64,
) -> Result<(Replayed, Vec<u32>), Failed>
    requires sound { IsSound (D.disk dev.old) }
    requires idle { (D.disk dev.old).flights ≡ [] }
    requires inside { first + count ≤ (D.disk dev.old).units }
    ensures same { D.disk dev.new ≡ D.disk dev.old }
    ensures read { IfOk result (λ found. IsHalfRead (D.disk dev.old) first count number found.0 found.1.items) }
    ensures faults { D.faults dev.old ≤ D.faults dev.new }
    ensures cause { IsErrOf result Failed.Fault → Rose (D.faults dev.old) (D.faults dev.new) }
{
    let mut half = HalfReader::new(alloc, first, first + count);
    let log = replay(alloc, dev, &mut half, number)?;
    let stale = half.stale(alloc, dev)?;
    Ok((log, stale))
}

/// The store on the device, or why there is none. It reads both slots and the active half of the log, and submits nothing.
pub fn find_store<D: Device>(alloc: Global, dev: &mut D) -> Result<FoundStore, MountFail>
    requires idle { (D.disk dev.old).flights ≡ [] }
    ensures same { D.disk dev.new ≡ D.disk dev.old }
    ensures sound { IsSound (D.disk dev.old) }
    ensures found { IfOk result (IsFoundOn (D.disk dev.old)) }
    ensures fails { IfErr result (λ fail. FailsMount fail (D.disk dev.old) (D.faults dev.old) (D.faults dev.new)) }
    ensures unfound { IfErr result IsUnfound }
    ensures faults { D.faults dev.old ≤ D.faults dev.new }
{
    let found = match find_super(alloc, dev) {
        Ok(found) => found,
        Err(why) => return Err(failed(why)),
    };
    let Some(sup) = found else {
        return Err(MountFail::NoSuper);
    };
    let active = sup.active_unit();
    match read_half(alloc, dev, active, sup.half, sup.first) {
        Ok((log, stale)) => Ok(FoundStore { sup, log, stale }),
        Err(why) => Err(failed(why)),
    }
}
