//! Operations of a transaction.

use crate::reading::{keys, last_bytes, last_name, next_name, pairs, two_names};
use bytes::Bytes as SharedBytes;
use case_text::{CaseError, Words, kind_of};
use object_model::Op;
use std::alloc::Global;
use unit_fields::Name;

/// The operations, by what stands behind their words.
#[derive(Clone, Copy)]
enum OpKind {
    /// `WORD`: of the whole collection.
    Coll(CollOp),
    /// `WORD NAME`
    Alone(AloneOp),
    /// `WORD NAME NAME`
    Pair(PairOp),
    /// `WORD NAME ..`
    Object(ObjectOp),
}

/// The operations of a whole collection.
#[derive(Clone, Copy)]
enum CollOp {
    Make,
    Remove,
}

/// The operations that take nothing beside an object's name.
#[derive(Clone, Copy)]
enum AloneOp {
    Touch,
    Remove,
    RmAttrs,
    OmapClear,
}

/// The operations that take one more name.
#[derive(Clone, Copy)]
enum PairOp {
    /// `clone NAME TO`
    Clone,
    /// `rmattr NAME ATTR`
    RmAttr,
}

/// The other operations on an object.
#[derive(Clone, Copy)]
enum ObjectOp {
    /// `write NAME OFF BYTES`
    Write,
    /// `zero NAME OFF LEN`
    Zero,
    /// `truncate NAME SIZE`
    Truncate,
    /// `clonerange NAME TO SRC LEN DST`
    CloneRange,
    /// `setattr NAME ATTR BYTES`
    SetAttr,
    /// `omapset NAME KEY BYTES ..`
    OmapSet,
    /// `omaprm NAME KEY ..`
    OmapRm,
    /// `omaprmrange NAME FIRST LAST`
    OmapRmRange,
    /// `omapheader NAME BYTES`
    OmapHeader,
}

static OPERATIONS: [(&str, OpKind); 17] = [
    ("mkcoll", OpKind::Coll(CollOp::Make)),
    ("rmcoll", OpKind::Coll(CollOp::Remove)),
    ("touch", OpKind::Alone(AloneOp::Touch)),
    ("write", OpKind::Object(ObjectOp::Write)),
    ("zero", OpKind::Object(ObjectOp::Zero)),
    ("truncate", OpKind::Object(ObjectOp::Truncate)),
    ("remove", OpKind::Alone(AloneOp::Remove)),
    ("clone", OpKind::Pair(PairOp::Clone)),
    ("clonerange", OpKind::Object(ObjectOp::CloneRange)),
    ("setattr", OpKind::Object(ObjectOp::SetAttr)),
    ("rmattr", OpKind::Pair(PairOp::RmAttr)),
    ("rmattrs", OpKind::Alone(AloneOp::RmAttrs)),
    ("omapset", OpKind::Object(ObjectOp::OmapSet)),
    ("omaprm", OpKind::Object(ObjectOp::OmapRm)),
    ("omaprmrange", OpKind::Object(ObjectOp::OmapRmRange)),
    ("omapheader", OpKind::Object(ObjectOp::OmapHeader)),
    ("omapclear", OpKind::Alone(AloneOp::OmapClear)),
];

/// An operation of a whole collection.
fn on_coll(kind: CollOp) -> Op {
    match kind {
        CollOp::Make => Op::MkColl,
        CollOp::Remove => Op::RmColl,
    }
}

/// An operation that takes nothing beside an object's name.
fn on_name(kind: AloneOp, object: Name) -> Op {
    match kind {
        AloneOp::Touch => Op::Touch { object },
        AloneOp::Remove => Op::Remove { object },
        AloneOp::RmAttrs => Op::RmAttrs { object },
        AloneOp::OmapClear => Op::OmapClear { object },
    }
}

/// An operation that takes one more name.
fn on_names(kind: PairOp, object: Name, name: Name) -> Op {
    match kind {
        PairOp::Clone => Op::Clone { object, to: name },
        PairOp::RmAttr => Op::RmAttr { object, name },
    }
}

/// The bytes of the last word, as an operation shares them.
fn shared_bytes(alloc: Global, words: Words<'_>) -> Result<SharedBytes, CaseError> {
    let bytes = last_bytes(alloc, words)?.into_vec(alloc)?;
    SharedBytes::from_vec(bytes).map_err(CaseError::from)
}

fn write(alloc: Global, object: Name, mut words: Words<'_>) -> Result<Op, CaseError> {
    let off = words.number()?;
    let bytes = shared_bytes(alloc, words)?;
    Ok(Op::Write { object, off, bytes })
}

fn zero(object: Name, words: Words<'_>) -> Result<Op, CaseError> {
    let [off, len] = words.numbers::<2>()?;
    Ok(Op::Zero { object, off, len })
}

fn truncate(object: Name, words: Words<'_>) -> Result<Op, CaseError> {
    let [size] = words.numbers::<1>()?;
    Ok(Op::Truncate { object, size })
}

fn clone_range(alloc: Global, object: Name, mut words: Words<'_>) -> Result<Op, CaseError> {
    let to = next_name(alloc, &mut words)?;
    let [src, len, dst] = words.numbers::<3>()?;
    Ok(Op::CloneRange {
        object,
        to,
        src,
        len,
        dst,
    })
}

fn set_attr(alloc: Global, object: Name, mut words: Words<'_>) -> Result<Op, CaseError> {
    let name = next_name(alloc, &mut words)?;
    let value = last_bytes(alloc, words)?;
    Ok(Op::SetAttr {
        object,
        name,
        value,
    })
}

fn omap_set(alloc: Global, object: Name, words: Words<'_>) -> Result<Op, CaseError> {
    let pairs = pairs(alloc, words)?;
    Ok(Op::OmapSet { object, pairs })
}

fn omap_rm(alloc: Global, object: Name, words: Words<'_>) -> Result<Op, CaseError> {
    let keys = keys(alloc, words)?;
    Ok(Op::OmapRm { object, keys })
}

fn omap_rm_range(alloc: Global, object: Name, mut words: Words<'_>) -> Result<Op, CaseError> {
    let first = next_name(alloc, &mut words)?;
    let last = last_name(alloc, words)?;
    Ok(Op::OmapRmRange {
        object,
        first,
        last,
    })
}

fn omap_header(alloc: Global, object: Name, words: Words<'_>) -> Result<Op, CaseError> {
    let value = last_bytes(alloc, words)?;
    Ok(Op::OmapHeader { object, value })
}

/// An operation on an object, from its third word on.
fn on_object(
    alloc: Global,
    kind: ObjectOp,
    object: Name,
    words: Words<'_>,
) -> Result<Op, CaseError> {
    match kind {
        ObjectOp::Write => write(alloc, object, words),
        ObjectOp::Zero => zero(object, words),
        ObjectOp::Truncate => truncate(object, words),
        ObjectOp::CloneRange => clone_range(alloc, object, words),
        ObjectOp::SetAttr => set_attr(alloc, object, words),
        ObjectOp::OmapSet => omap_set(alloc, object, words),
        ObjectOp::OmapRm => omap_rm(alloc, object, words),
        ObjectOp::OmapRmRange => omap_rm_range(alloc, object, words),
        ObjectOp::OmapHeader => omap_header(alloc, object, words),
    }
}

fn of_kind(alloc: Global, kind: OpKind, mut words: Words<'_>) -> Result<Op, CaseError> {
    match kind {
        OpKind::Coll(kind) => {
            words.end()?;
            Ok(on_coll(kind))
        }
        OpKind::Alone(kind) => Ok(on_name(kind, last_name(alloc, words)?)),
        OpKind::Pair(kind) => {
            let (object, name) = two_names(alloc, words)?;
            Ok(on_names(kind, object, name))
        }
        OpKind::Object(kind) => {
            let object = next_name(alloc, &mut words)?;
            on_object(alloc, kind, object, words)
        }
    }
}

/// The operation of a text.
pub fn operation(alloc: Global, text: &str) -> Result<Op, CaseError> {
    match kind_of(&OPERATIONS, text) {
        Some((kind, words)) => of_kind(alloc, kind, words),
        None => Err(CaseError::Line("no operation")),
    }
}
