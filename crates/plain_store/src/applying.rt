//! The effect of an operation on what stands under the name of its collection.
ghost use Rattle.std.specs.Prelude.{◌≢◌, Some};
ghost use Rattle.object_model.specs.declared.op.Op.TheVariants.{MkColl, RmColl};
ghost use Rattle.object_model.specs.Prelude.{effect, effect_on, effects};
ghost use Rattle.plain_store.specs.Gives.{Applies, GivesResult};

use crate::collection::*;
use crate::fault::ArgFault;
use byte_maps::ByteMap;
use object_model::{Op, Refusal};
use std::alloc::Global;

// An operation on an object.
fn change(alloc: Global, op: &Op, c: &mut Collection) -> Result<(), ArgFault>
    requires made { op.now ≢ MkColl }
    requires kept { op.now ≢ RmColl }
    ensures { Applies result (effect_on op.now c.old) (Some c.new) }
{
    match op {
        Op::MkColl | Op::RmColl => unreachable!(),
        Op::Touch { object } => touch(alloc, c, object),
        Op::Write { object, off, bytes } => write(alloc, c, object, *off, bytes.as_slice()),
        Op::Zero { object, off, len } => zero(alloc, c, object, *off, *len),
        Op::Truncate { object, size } => truncate(alloc, c, object, *size),
        Op::Remove { object } => {
            remove(c, object);
            Ok(())
        }
        Op::SetAttr {
            object,
            name,
            value,
        } => set_attr(alloc, c, object, name, value),
        Op::RmAttr { object, name } => rm_attr(alloc, c, object, name),
        Op::RmAttrs { object } => rm_attrs(alloc, c, object),
        Op::Clone { object, to } => clone(alloc, c, object, to),
        Op::CloneRange {
            object,
            to,
            src,
            len,
            dst,
        } => clone_range(alloc, c, object, to, *src, *len, *dst),
        Op::OmapSet { object, pairs } => omap_set(alloc, c, object, pairs.as_slice()),
        Op::OmapRm { object, keys } => omap_rm(alloc, c, object, keys.as_slice()),
        Op::OmapRmRange {
            object,
            first,
            last,
        } => omap_rm_range(alloc, c, object, first, last),
        Op::OmapClear { object } => omap_clear(alloc, c, object),
        Op::OmapHeader { object, value } => omap_header(alloc, c, object, value),
    }
}

// The operations on a collection that is there.
fn effect_on(alloc: Global, op: &Op, c: Collection) -> Result<Option<Collection>, ArgFault>
    ensures { GivesResult result (effect_on op.now c) }
{
    let mut c = c;
    match op {
        Op::MkColl => Err(ArgFault::Refused(Refusal::CollectionExists)),
        Op::RmColl if c.len() == 0 => Ok(None),
        Op::RmColl => Err(ArgFault::Refused(Refusal::NotEmpty)),
        _ => {
            change(alloc, op, &mut c)?;
            Ok(Some(c))
        }
    }
}

/// The effect of an operation. The collection is consumed: a refusal drops it.
pub fn effect(alloc: Global, op: &Op, c: Option<Collection>) -> Result<Option<Collection>, ArgFault>
    ensures { GivesResult result (effect op.now c) }
{
    match (c, op) {
        (Some(c), op) => effect_on(alloc, op, c),
        (None, Op::MkColl) => Ok(Some(ByteMap::new(alloc))),
        (None, _) => Err(ArgFault::Refused(Refusal::NoCollection)),
    }
}

/// The effects of operations, one after the other, up to the first refusal.
pub fn effects(
    alloc: Global,
    ops: &[Op],
    start: Option<Collection>,
) -> Result<Option<Collection>, ArgFault>
    ensures { GivesResult result (effects ops.now start) }
{
    let mut c = start;
    for op in ops {
        c = effect(alloc, op, c)?;
    }
    Ok(c)
}
