//! Reads.

use crate::reading::{last_name, two_names};
use case_text::{CaseError, Words, kind_of};
use object_model::Read;
use plain_reader::name_of;
use std::alloc::Global;
use unit_fields::CollName;

/// The reads, by what stands behind their words.
#[derive(Clone, Copy)]
enum ReadKind {
    /// `list`
    List,
    /// `read NAME OFF LEN`
    Read,
    /// `WORD NAME`
    Object(ObjectRead),
    /// `WORD NAME NAME`
    Value(ValueRead),
}

/// The reads that take an object's name.
#[derive(Clone, Copy)]
enum ObjectRead {
    Sum,
    Stat,
    OmapHeader,
}

/// The reads that take the name of one of its values too.
#[derive(Clone, Copy)]
enum ValueRead {
    Attr,
    Omap,
}

static READ_KINDS: [(&str, ReadKind); 7] = [
    ("list", ReadKind::List),
    ("read", ReadKind::Read),
    ("sum", ReadKind::Object(ObjectRead::Sum)),
    ("stat", ReadKind::Object(ObjectRead::Stat)),
    ("getattr", ReadKind::Value(ValueRead::Attr)),
    ("omapget", ReadKind::Value(ValueRead::Omap)),
    ("omapgetheader", ReadKind::Object(ObjectRead::OmapHeader)),
];

fn list(alloc: Global, coll: &CollName, words: Words<'_>) -> Result<Read, CaseError> {
    words.end()?;
    let coll = coll.copy(alloc)?;
    Ok(Read::List { coll })
}

fn read(alloc: Global, coll: &CollName, mut words: Words<'_>) -> Result<Read, CaseError> {
    let object = words.next()?;
    let [off, len] = words.numbers::<2>()?;
    let object = name_of(alloc, object.as_bytes())?;
    let coll = coll.copy(alloc)?;
    Ok(Read::Bytes {
        coll,
        object,
        off,
        len,
    })
}

fn of_object(
    alloc: Global,
    coll: &CollName,
    kind: ObjectRead,
    words: Words<'_>,
) -> Result<Read, CaseError> {
    let object = last_name(alloc, words)?;
    let coll = coll.copy(alloc)?;
    Ok(match kind {
        ObjectRead::Sum => Read::Sum { coll, object },
        ObjectRead::Stat => Read::Stat { coll, object },
        ObjectRead::OmapHeader => Read::OmapHeader { coll, object },
    })
}

fn of_value(
    alloc: Global,
    coll: &CollName,
    kind: ValueRead,
    words: Words<'_>,
) -> Result<Read, CaseError> {
    let (object, name) = two_names(alloc, words)?;
    let coll = coll.copy(alloc)?;
    Ok(match kind {
        ValueRead::Attr => Read::GetAttr { coll, object, name },
        ValueRead::Omap => Read::OmapGet {
            coll,
            object,
            key: name,
        },
    })
}

/// A read, from its second word on.
fn asked(
    alloc: Global,
    coll: &CollName,
    kind: ReadKind,
    words: Words<'_>,
) -> Result<Read, CaseError> {
    match kind {
        ReadKind::List => list(alloc, coll, words),
        ReadKind::Read => read(alloc, coll, words),
        ReadKind::Object(kind) => of_object(alloc, coll, kind, words),
        ReadKind::Value(kind) => of_value(alloc, coll, kind, words),
    }
}

/// The read of a collection that a line asks for, where it is one.
pub fn question(alloc: Global, coll: &CollName, line: &str) -> Result<Option<Read>, CaseError> {
    match kind_of(&READ_KINDS, line) {
        Some((kind, words)) => asked(alloc, coll, kind, words).map(Some),
        None => Ok(None),
    }
}
