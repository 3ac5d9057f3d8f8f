//! Walks over the objects of a collection.
ghost use Rattle.std.specs.Prelude.{◌≡◌, ◌≤◌, IfOk, IsErrOf, MatchOption};
ghost use Rattle.std.specs.Option.{option_copied};
ghost use Rattle.block_device.specs.Prelude.{Rose};
ghost use Rattle.read_facts.specs.Prelude.{IsHeldAt, IsObject, IsPast, IsViewOf};
ghost use Rattle.write_buffers.specs.Prelude.{memory_in};
ghost use Rattle.object_reader.specs.PartFails.{IsSumOf};
ghost use Rattle.object_reader.specs.Readable.{IsReadable, IsNextView};

use crate::fail::ReadFail;
use crate::reading::sum;
use crate::values::{attributes_of, pairs_of, row_bytes};
use block_device::Device;
use meta_rows::RowTable;
use object_rows::next_name;
use onode_codec::header_key;
use onode_state::find_object;
use page_sources::{PartFail, UnitPages};
use read_facts::{BadSum, ObjectView};
use std::alloc::Global;
use unit_fields::{CollName, Name, Width};
use write_buffers::WriteBuffers;

// What a read of all pages of an object came to: their checksum, or the first bad one.
fn sum_or_bad(read: Result<u32, PartFail>) -> Result<Result<u32, BadSum>, ReadFail>
    ensures ok { IfOk result (IsSumOf read) }
    ensures cause { IsErrOf result ReadFail.Fault → IsErrOf read PartFail.Fault }
{
    match read {
        Ok(crc) => Ok(Ok(crc)),
        Err(PartFail::BadPage(bad)) => Ok(Err(bad)),
        Err(PartFail::Memory) => Err(ReadFail::Memory),
        Err(PartFail::Fault) => Err(ReadFail::Fault),
    }
}

// An object with its size, the checksum of its bytes and all its values. The values are copied, each once.
fn view_of<D: Device>(
    alloc: Global,
    device: &mut D,
    buffers: &WriteBuffers,
    width: Width,
    rows: &RowTable,
    coll: &CollName,
    name: Name,
) -> Result<ObjectView, ReadFail>
    requires readable { IsReadable width (memory_in buffers.now) rows.now.rows (D.disk device.old) }
    requires is { IsObject rows.now.rows coll.now name }
    ensures name { IfOk result (λ view. view.name ≡ name) }
    ensures ok { IfOk result (IsViewOf width (memory_in buffers.now) (IsHeldAt (D.disk device.old)) rows.now.rows coll.now) }
    ensures same { D.disk device.new ≡ D.disk device.old }
    ensures later { D.faults device.old ≤ D.faults device.new }
    ensures cause { IsErrOf result ReadFail.Fault → Rose (D.faults device.old) (D.faults device.new) }
{
    let Some(found) = find_object(alloc, width, rows, coll, &name)? else {
        unreachable!()
    };
    let size = found.size;
    let mut pages = UnitPages::new(width, rows, found.pages);
    let sum = sum_or_bad(sum(alloc, device, buffers, &mut pages, size))?;
    let attrs = attributes_of(alloc, rows, coll, &name)?;
    let header = row_bytes(alloc, rows, &header_key(alloc, coll, &name)?)?;
    let omap = pairs_of(alloc, rows, coll, &name)?;
    Ok(ObjectView {
        name,
        size,
        sum,
        attrs,
        header,
        omap,
    })
}

/// The object of a collection that comes next behind another one in byte order, or the first one, with its size, the checksum of its
/// bytes, its attributes and its omap. None: there is none behind it, or no such collection.
pub fn next_object<D: Device>(
    alloc: Global,
    device: &mut D,
    buffers: &WriteBuffers,
    width: Width,
    rows: &RowTable,
    coll: &CollName,
    after: Option<&Name>,
) -> Result<Option<ObjectView>, ReadFail>
    requires readable { IsReadable width (memory_in buffers.now) rows.now.rows (D.disk device.old) }
    ensures ok { IfOk result (λ found. MatchOption found (IsPast (IsObject rows.now.rows coll.now) (option_copied after.entry))
        (IsNextView width (memory_in buffers.now) (IsHeldAt (D.disk device.old)) rows.now.rows coll.now (option_copied after.entry))) }
    ensures same { D.disk device.new ≡ D.disk device.old }
    ensures later { D.faults device.old ≤ D.faults device.new }
    ensures cause { IsErrOf result ReadFail.Fault → Rose (D.faults device.old) (D.faults device.new) }
{
    let Some(name) = next_name(alloc, rows, coll, after)? else {
        return Ok(None);
    };
    Ok(Some(view_of(alloc, device, buffers, width, rows, coll, name)?))
}
