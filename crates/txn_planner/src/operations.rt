//! Operations, each by itself: the object that it is on, its limits, and what it asks of its object.
ghost use Rattle.std.specs.Prelude.{◌≡◌, nat_lt, length};
ghost use Rattle.std.specs.List.{list_any};
ghost use Rattle.object_model.specs.Prelude.{any_value_long};
ghost use Rattle.object_model.specs.Effect.{value_limit};
ghost use Rattle.unit_fields.specs.Prelude.{IsName};
ghost use Rattle.plan_drafts.specs.Prelude.{IsOnObject, object_of, is_beyond, needs_object};
ghost use Rattle.txn_planner.specs.Laying.{is_on_coll};

use byte_maps::Bytes;
use object_model::{Op, Pair, ends_too_far};
use object_rows::name_is_one;
use unit_fields::Name;

fn is_on_coll(op: &Op) -> bool
    ensures { result ≡ is_on_coll op.now }
{
    matches!(op, Op::MkColl | Op::RmColl)
}

/// Whether one of the operations makes the collection or takes it away.
pub fn is_any_on_coll(ops: &[Op]) -> bool
    ensures { result ≡ list_any is_on_coll ops.now }
{
    ops.iter().any(is_on_coll)
}

/// The object that an operation is on.
pub fn object_in(op: &Op) -> &Name
    requires { IsOnObject op.now }
    ensures object { result.now ≡ object_of op.now }
    ensures named { IsName (object_of op.now) }
{
    let object = object_among(op);
    name_is_one(object);
    object
}

fn object_among(op: &Op) -> &Name
    requires { IsOnObject op.now }
    ensures { result.now ≡ object_of op.now }
{
    match op {
        Op::Touch { object }
        | Op::Write { object, .. }
        | Op::Zero { object, .. }
        | Op::Truncate { object, .. }
        | Op::Remove { object }
        | Op::SetAttr { object, .. }
        | Op::RmAttr { object, .. }
        | Op::RmAttrs { object }
        | Op::OmapSet { object, .. }
        | Op::OmapRm { object, .. }
        | Op::OmapRmRange { object, .. }
        | Op::OmapClear { object }
        | Op::OmapHeader { object, .. } => object,
        _ => unreachable!(),
    }
}

// The most bytes of a value.
const VALUE_LIMIT: usize = 65535;

fn is_long(value: &Bytes) -> bool
    ensures { result ≡ nat_lt value_limit (length value.now) }
{
    VALUE_LIMIT < value.len()
}

fn any_value_long(pairs: &[Pair]) -> bool
    ensures { result ≡ any_value_long pairs.now }
{
    pairs.iter().any(|pair| is_long(&pair.value))
}

/// Whether what is written ends past the limit of an object, or is longer than a value may be.
pub fn is_beyond(op: &Op) -> bool
    ensures { result ≡ is_beyond op.now }
{
    match op {
        Op::Write { off, bytes, .. } => ends_too_far(*off, bytes.len() as u64),
        Op::Zero { off, len, .. } => ends_too_far(*off, *len),
        Op::Truncate { size, .. } => ends_too_far(0, *size),
        Op::SetAttr { value, .. } | Op::OmapHeader { value, .. } => is_long(value),
        Op::OmapSet { pairs, .. } => any_value_long(pairs.as_slice()),
        _ => false,
    }
}

/// Whether it is refused where its object is missing.
pub fn needs_object(op: &Op) -> bool
    ensures { result ≡ needs_object op.now }
{
    matches!(
        op,
        Op::SetAttr { .. }
            | Op::RmAttr { .. }
            | Op::OmapSet { .. }
            | Op::OmapRm { .. }
            | Op::OmapRmRange { .. }
            | Op::OmapHeader { .. }
    )
}
