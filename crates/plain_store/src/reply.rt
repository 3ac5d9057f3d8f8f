//! What the reference store answers to a command.
ghost use Rattle.std.specs.Prelude.{◌≡◌, ◌+◌, ◌<◌, length, take, drop, nat_lt, IfOk, if◌then◌else◌};
ghost use Rattle.std.specs.FinMap as finite;
ghost use Rattle.object_model.specs.declared.command.Answer.TheVariants as answer;
ghost use Rattle.object_model.specs.declared.command.Command.TheVariants as ask;
ghost use Rattle.object_model.specs.declared.op.Refusal.TheVariants.{BadRange};
ghost use Rattle.crc32c_csum.specs.Prelude.{crc32c};
ghost use Rattle.object_model.specs.Prelude.{object_limit, read_reply, reply_of, value_of};

use crate::collection::Collection;
use crate::fault::ArgFault;
use crate::object::PlainObject;
use crate::plain::Plain;
use byte_maps::{ByteMap, Bytes, Duplicate, Items};
use crc32c_csum::crc32c;
use object_model::{Answer, Command, Read, Refusal, Transaction, ends_too_far};
use std::alloc::{AllocError, Global};
use unit_fields::Name;

// A range of an object's bytes, cut at its size.
fn bytes_of(alloc: Global, object: &PlainObject, off: u64, len: u64) -> Result<Answer, AllocError>
    ensures { IfOk result (λ a. a ≡
        (if nat_lt object_limit (off + len) then answer.Refused BadRange else answer.Bytes (take len (drop off object.now.bytes)))) }
{
    if ends_too_far(off, len) {
        return Ok(Answer::Refused(Refusal::BadRange));
    }
    let bytes = object.bytes.as_slice();
    let from = &bytes[bytes.len().min(off as usize)..];
    let piece = &from[..from.len().min(len as usize)];
    Bytes::from_slice(alloc, piece).map(Answer::Bytes)
}

fn sum(object: &PlainObject) -> Answer
    ensures { result ≡ answer.Sum (length object.now.bytes) (crc32c object.now.bytes) }
{
    let bytes = object.bytes.as_slice();
    Answer::Sum {
        size: bytes.len() as u64,
        crc: crc32c(bytes),
    }
}

fn value_of(alloc: Global, map: &ByteMap<Bytes>, name: &Name) -> Result<Answer, AllocError>
    ensures { IfOk result (λ a. a ≡ value_of map.now name.now) }
{
    match map.get(name.as_slice()) {
        Some(value) => value.duplicate(alloc).map(Answer::Bytes),
        None => Ok(Answer::Refused(Refusal::NoAttr)),
    }
}

fn header_of(alloc: Global, object: &PlainObject) -> Result<Answer, AllocError>
    ensures { IfOk result (λ a. a ≡ answer.Bytes object.now.header) }
{
    object.header.duplicate(alloc).map(Answer::Bytes)
}

fn names(alloc: Global, c: &Collection) -> Result<Answer, AllocError>
    ensures { IfOk result (λ a. a ≡ answer.Names (finite.keys c.now)) }
{
    let mut names = Vec::new(alloc);
    for entry in c.entries() {
        names.push(entry.0.duplicate(alloc)?)?;
    }
    Ok(Answer::Names(Items::from_vec(names)))
}

impl Plain {
    // Whether a transaction would be accepted.
    fn accepts(&self, alloc: Global, change: &Transaction) -> Result<Answer, AllocError>
        ensures { IfOk result (λ a. a ≡ reply_of (ask.Change change.now) self.now) }
    {
        match self.check(alloc, change) {
            Ok(()) => Ok(Answer::Accepted),
            Err(ArgFault::Refused(refusal)) => Ok(Answer::Refused(refusal)),
            Err(ArgFault::Memory) => Err(AllocError),
        }
    }

    fn read_reply(&self, alloc: Global, read: &Read) -> Result<Answer, AllocError>
        ensures { IfOk result (λ a. a ≡ read_reply read.now self.now) }
    {
        match read {
            Read::Bytes {
                coll,
                object,
                off,
                len,
            } => match self.object(coll, object) {
                Ok(object) => bytes_of(alloc, object, *off, *len),
                Err(refusal) => Ok(Answer::Refused(refusal)),
            },
            Read::Sum { coll, object } => match self.object(coll, object) {
                Ok(object) => Ok(sum(object)),
                Err(refusal) => Ok(Answer::Refused(refusal)),
            },
            Read::Stat { coll, object } => match self.object(coll, object) {
                Ok(object) => Ok(Answer::Size(object.bytes.len() as u64)),
                Err(refusal) => Ok(Answer::Refused(refusal)),
            },
            Read::GetAttr { coll, object, name } => match self.object(coll, object) {
                Ok(object) => value_of(alloc, &object.attrs, name),
                Err(refusal) => Ok(Answer::Refused(refusal)),
            },
            Read::OmapGet { coll, object, key } => match self.object(coll, object) {
                Ok(object) => value_of(alloc, &object.omap, key),
                Err(refusal) => Ok(Answer::Refused(refusal)),
            },
            Read::OmapHeader { coll, object } => match self.object(coll, object) {
                Ok(object) => header_of(alloc, object),
                Err(refusal) => Ok(Answer::Refused(refusal)),
            },
            Read::List { coll } => match self.collection(coll) {
                Ok(c) => names(alloc, c),
                Err(refusal) => Ok(Answer::Refused(refusal)),
            },
        }
    }
    /// The answer to a command: to a transaction whether it would be accepted, without any effect.
    pub fn reply(&self, alloc: Global, command: &Command) -> Result<Answer, AllocError>
        ensures { IfOk result (λ a. a ≡ reply_of command.now self.now) }
    {
        match command {
            Command::Change(change) => self.accepts(alloc, change),
            Command::Read(read) => self.read_reply(alloc, read),
        }
    }
}
