//! Reads, answered.
ghost use Rattle.std.specs.Prelude.{◌≡◌, ℕ, ◌≤◌, List, Option, None, IfOk, IsErrOf, MatchOption};
ghost use Rattle.std.specs.Option.{option_map_or};
ghost use Rattle.std.specs.FinMap as finite;
ghost use Rattle.object_model.specs.declared.op.Refusal.TheVariants.{NoAttr};
ghost use Rattle.object_model.specs.declared.command.Answer.TheVariants as answer;
ghost use Rattle.block_device.specs.Prelude.{Rose, Disk};
ghost use Rattle.object_model.specs.declared.command.Read.TheVariants as reads;
ghost use Rattle.object_rows.specs.Stores.{AreRowsOfAStore};
ghost use Rattle.unit_fields.specs.Prelude.{IsName, IsCollName};
ghost use Rattle.row_format.specs.Prelude.{coll_key, onode_key};
ghost use Rattle.store_image.specs.Prelude.{HasKey, HasObject};
ghost use Rattle.read_facts.specs.Prelude.{IsHeldAt, HasReadNames, IsAnswerOf};
ghost use Rattle.write_buffers.specs.Prelude.{memory_in};
ghost use Rattle.object_reader.specs.Missing.{IsCollMissing, IsObjectMissing};
ghost use Rattle.object_reader.specs.Readable.{IsReadable};
ghost use Rattle.object_reader.specs.PartFails.{IsCsumOf};
ghost use Rattle.object_reader.specs.ToRead.{ReadNeedsDevice};

use crate::fail::ReadFail;
use crate::reading::{read_range, sum};
use crate::values::row_bytes;
use block_device::Device;
use byte_maps::{Bytes, Items};
use meta_rows::RowTable;
use object_model::{Answer, Read, Refusal, ends_too_far};
use object_rows::object_names;
use onode_codec::{attr_key, coll_key, header_key, omap_key, onode_key};
use onode_state::{find_object, object_size};
use page_sources::{PartFail, UnitPages};
use std::alloc::{AllocError, Global};
use unit_fields::{CollName, Name, Width};
use write_buffers::WriteBuffers;

/// The answer to a read, by the rows of a store, the bytes of units that are in memory and the device that holds the others: a
/// refusal, what it asks for, or the first of the units that must be read of the device whose bytes have another checksum than the one that is
/// kept. The kernel calls it, with the submitted rows.
pub fn answer<D: Device>(
    alloc: Global,
    device: &mut D,
    buffers: &WriteBuffers,
    width: Width,
    rows: &RowTable,
    read: &Read,
) -> Result<Answer, ReadFail>
    requires readable { IsReadable width (memory_in buffers.now) rows.now.rows (D.disk device.old) }
    ensures names { HasReadNames read.now }
    ensures ok { IfOk result (IsAnswerOf width (memory_in buffers.now) (IsHeldAt (D.disk device.old)) rows.now.rows read.now) }
    ensures fault { IsErrOf result ReadFail.Fault → ReadNeedsDevice width (memory_in buffers.now) rows.now.rows read.now }
    ensures same { D.disk device.new ≡ D.disk device.old }
    ensures later { D.faults device.old ≤ D.faults device.new }
    ensures cause { IsErrOf result ReadFail.Fault → Rose (D.faults device.old) (D.faults device.new) }
{
    match read {
        Read::Bytes {
            coll,
            object,
            off,
            len,
        } => answer_read(
            alloc, device, buffers, width, rows, coll, object, *off, *len,
        ),
        Read::Sum { coll, object } => answer_sum(alloc, device, buffers, width, rows, coll, object),
        Read::Stat { coll, object } => Ok(answer_stat(alloc, rows, coll, object)?),
        Read::GetAttr { coll, object, name } => {
            Ok(answer_attr(alloc, rows, coll, object, name)?)
        }
        Read::OmapGet { coll, object, key } => { Ok(answer_pair(alloc, rows, coll, object, key)?) }
        Read::OmapHeader { coll, object } => Ok(answer_header(alloc, rows, coll, object)?),
        Read::List { coll } => Ok(answer_list(alloc, rows, coll)?),
    }
}

fn has_row(rows: &RowTable, key: &Bytes) -> bool
    ensures { result ≡ finite.contains_key rows.now.rows key.now }
{
    rows.get(key.as_slice()).is_some()
}

// The refusal of what is done with a collection, which must be there.
fn coll_refusal(
    alloc: Global,
    rows: &RowTable,
    coll: &CollName,
) -> Result<Option<Refusal>, AllocError>
    ensures coll { IsCollName coll.now }
    ensures refusal { IfOk result (λ refusal. MatchOption refusal (HasKey rows.now.rows (coll_key coll.now)) (IsCollMissing rows.now.rows coll.now)) }
{
    let key = coll_key(alloc, coll)?;
    if has_row(rows, &key) {
        return Ok(None);
    }
    Ok(Some(Refusal::NoCollection))
}

// The refusal of what is done with an object, which must be there in its collection.
fn object_refusal(
    alloc: Global,
    rows: &RowTable,
    coll: &CollName,
    object: &Name,
) -> Result<Option<Refusal>, AllocError>
    ensures names { IsCollName coll.now × IsName object.now }
    ensures refusal { IfOk result (λ refusal. MatchOption refusal (HasObject rows.now.rows coll.now object.now)
        (IsObjectMissing rows.now.rows coll.now object.now)) }
{
    let key = onode_key(alloc, coll, object)?;
    if let Some(refusal) = coll_refusal(alloc, rows, coll)? {
        return Ok(Some(refusal));
    }
    if has_row(rows, &key) {
        return Ok(None);
    }
    Ok(Some(Refusal::NoObject))
}

// The refusal of what is done with an object of a collection that has no onode.
fn missing_refusal(alloc: Global, rows: &RowTable, coll: &CollName) -> Result<Refusal, AllocError>
    ensures { IfOk result (λ refusal. (object : List ℕ) → IsName object → finite.get rows.now.rows (onode_key coll.now object) ≡ None
        → IsObjectMissing rows.now.rows coll.now object refusal) }
{
    match coll_refusal(alloc, rows, coll)? {
        Some(refusal) => Ok(refusal),
        None => Ok(Refusal::NoObject),
    }
}

// What a failed read of pages answers: the bad unit, if there is one.
fn csum_answer(why: PartFail) -> Result<Answer, ReadFail>
    ensures ok { IfOk result (IsCsumOf why) }
    ensures cause { IsErrOf result ReadFail.Fault → why ≡ PartFail.Fault }
{
    match why {
        PartFail::Memory => Err(ReadFail::Memory),
        PartFail::Fault => Err(ReadFail::Fault),
        PartFail::BadPage(bad) => Ok(Answer::Csum {
            unit: bad.unit,
            kept: bad.kept,
            found: bad.found,
        }),
    }
}

fn answer_read<D: Device>(
    alloc: Global,
    device: &mut D,
    buffers: &WriteBuffers,
    width: Width,
    rows: &RowTable,
    coll: &CollName,
    object: &Name,
    off: u64,
    len: u64,
) -> Result<Answer, ReadFail>
    requires readable { IsReadable width (memory_in buffers.now) rows.now.rows (D.disk device.old) }
    ensures names { IsCollName coll.now × IsName object.now }
    ensures ok { IfOk result (IsAnswerOf width (memory_in buffers.now) (IsHeldAt (D.disk device.old)) rows.now.rows (reads.Bytes coll.now object.now off len)) }
    ensures fault { IsErrOf result ReadFail.Fault → ReadNeedsDevice width (memory_in buffers.now) rows.now.rows (reads.Bytes coll.now object.now off len) }
    ensures same { D.disk device.new ≡ D.disk device.old }
    ensures later { D.faults device.old ≤ D.faults device.new }
    ensures cause { IsErrOf result ReadFail.Fault → Rose (D.faults device.old) (D.faults device.new) }
{
    let Some(found) = find_object(alloc, width, rows, coll, object)? else {
        return Ok(Answer::Refused(missing_refusal(alloc, rows, coll)?));
    };
    if ends_too_far(off, len) {
        return Ok(Answer::Refused(Refusal::BadRange));
    }
    let size = found.size;
    let mut pages = UnitPages::new(width, rows, found.pages);
    match read_range(alloc, device, buffers, &mut pages, size, off, len) {
        Ok(bytes) => Ok(Answer::Bytes(Bytes::from_vec(bytes))),
        Err(why) => csum_answer(why),
    }
}

fn answer_sum<D: Device>(
    alloc: Global,
    device: &mut D,
    buffers: &WriteBuffers,
    width: Width,
    rows: &RowTable,
    coll: &CollName,
    object: &Name,
) -> Result<Answer, ReadFail>
    requires readable { IsReadable width (memory_in buffers.now) rows.now.rows (D.disk device.old) }
    ensures names { IsCollName coll.now × IsName object.now }
    ensures ok { IfOk result (IsAnswerOf width (memory_in buffers.now) (IsHeldAt (D.disk device.old)) rows.now.rows (reads.Sum coll.now object.now)) }
    ensures fault { IsErrOf result ReadFail.Fault → ReadNeedsDevice width (memory_in buffers.now) rows.now.rows (reads.Sum coll.now object.now) }
    ensures same { D.disk device.new ≡ D.disk device.old }
    ensures later { D.faults device.old ≤ D.faults device.new }
    ensures cause { IsErrOf result ReadFail.Fault → Rose (D.faults device.old) (D.faults device.new) }
{
    let Some(found) = find_object(alloc, width, rows, coll, object)? else {
        return Ok(Answer::Refused(missing_refusal(alloc, rows, coll)?));
    };
    let size = found.size;
    let mut pages = UnitPages::new(width, rows, found.pages);
    match sum(alloc, device, buffers, &mut pages, size) {
        Ok(crc) => Ok(Answer::Sum { size, crc }),
        Err(why) => csum_answer(why),
    }
}

fn answer_stat(
    alloc: Global,
    rows: &RowTable,
    coll: &CollName,
    object: &Name,
) -> Result<Answer, AllocError>
    requires { AreRowsOfAStore rows.now.rows }
    ensures names { IsCollName coll.now × IsName object.now }
    ensures ok { IfOk result (λ a. (width : Width) (memory : ℕ → Option (List ℕ)) (d : Disk)
        → IsAnswerOf width memory (IsHeldAt d) rows.now.rows (reads.Stat coll.now object.now) a) }
{
    if let Some(refusal) = object_refusal(alloc, rows, coll, object)? {
        return Ok(Answer::Refused(refusal));
    }
    match object_size(alloc, rows, coll, object)? {
        Some(size) => Ok(Answer::Size(size)),
        None => unreachable!(),
    }
}

// The value that stands under a key, or that there is none.
fn value_answer(alloc: Global, rows: &RowTable, key: &Bytes) -> Result<Answer, AllocError>
    ensures { IfOk result (λ a. a ≡ option_map_or (λ value. answer.Bytes value) (finite.get rows.now.rows key.now) (answer.Refused NoAttr)) }
{
    match rows.get(key.as_slice()) {
        Some(value) => Ok(Answer::Bytes(Bytes::from_slice(alloc, value.as_slice())?)),
        None => Ok(Answer::Refused(Refusal::NoAttr)),
    }
}

fn answer_attr(
    alloc: Global,
    rows: &RowTable,
    coll: &CollName,
    object: &Name,
    name: &Name,
) -> Result<Answer, AllocError>
    ensures names { IsCollName coll.now × IsName object.now × IsName name.now }
    ensures ok { IfOk result (λ a. (width : Width) (memory : ℕ → Option (List ℕ)) (d : Disk)
        → IsAnswerOf width memory (IsHeldAt d) rows.now.rows (reads.GetAttr coll.now object.now name.now) a) }
{
    let key = attr_key(alloc, coll, object, name)?;
    if let Some(refusal) = object_refusal(alloc, rows, coll, object)? {
        return Ok(Answer::Refused(refusal));
    }
    value_answer(alloc, rows, &key)
}

fn answer_pair(
    alloc: Global,
    rows: &RowTable,
    coll: &CollName,
    object: &Name,
    key: &Name,
) -> Result<Answer, AllocError>
    ensures names { IsCollName coll.now × IsName object.now × IsName key.now }
    ensures ok { IfOk result (λ a. (width : Width) (memory : ℕ → Option (List ℕ)) (d : Disk)
        → IsAnswerOf width memory (IsHeldAt d) rows.now.rows (reads.OmapGet coll.now object.now key.now) a) }
{
    let row = omap_key(alloc, coll, object, key)?;
    if let Some(refusal) = object_refusal(alloc, rows, coll, object)? {
        return Ok(Answer::Refused(refusal));
    }
    value_answer(alloc, rows, &row)
}

fn answer_header(
    alloc: Global,
    rows: &RowTable,
    coll: &CollName,
    object: &Name,
) -> Result<Answer, AllocError>
    ensures names { IsCollName coll.now × IsName object.now }
    ensures ok { IfOk result (λ a. (width : Width) (memory : ℕ → Option (List ℕ)) (d : Disk)
        → IsAnswerOf width memory (IsHeldAt d) rows.now.rows (reads.OmapHeader coll.now object.now) a) }
{
    if let Some(refusal) = object_refusal(alloc, rows, coll, object)? {
        return Ok(Answer::Refused(refusal));
    }
    let key = header_key(alloc, coll, object)?;
    Ok(Answer::Bytes(row_bytes(alloc, rows, &key)?))
}

fn answer_list(alloc: Global, rows: &RowTable, coll: &CollName) -> Result<Answer, AllocError>
    requires { AreRowsOfAStore rows.now.rows }
    ensures names { IsCollName coll.now }
    ensures ok { IfOk result (λ a. (width : Width) (memory : ℕ → Option (List ℕ)) (d : Disk)
        → IsAnswerOf width memory (IsHeldAt d) rows.now.rows (reads.List coll.now) a) }
{
    if let Some(refusal) = coll_refusal(alloc, rows, coll)? {
        return Ok(Answer::Refused(refusal));
    }
    Ok(Answer::Names(Items::from_vec(object_names(alloc, rows, coll)?)))
}
