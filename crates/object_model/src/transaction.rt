//! A transaction: operations on one collection that are applied together or not at all.
ghost use Rattle.std.specs.Prelude.{◌≡◌, ◌+◌, ◌<◌, [], ◌∷◌, ◌++◌, length, sum_by, nat_lt, IfOk, OnOk, OnErr, IfErr, MatchOption};
ghost use Rattle.object_model.specs.Limits.{payload_of, payload_of_pairs, payload_of_keys, payload_limit, is_too_large};

use crate::op::{Op, Pair};
use std::alloc::{AllocFailed, Global};
use std::marker::Model;
use unit_fields::limits::{OPS_LIMIT, PAYLOAD_LIMIT};
use unit_fields::{CollName, Name};

/// The name of a collection, and one operation or more on it.
#[derive(Drop)]
pub struct Transaction {
    coll: CollName,
    ops: Vec<Op>,
}

impl Model for Transaction {
    ghost use Rattle.std.specs.Prelude.{◌<◌, length};
    ghost use Rattle.object_model.specs.Effect.{Change};

    ghost Value = { Change };

    ghost view = { λ a. record { coll = a.coll; ops = a.ops.items } };

    ghost invariant = { λ a. 0 < length a.ops.items };
}

impl Transaction {
    /// A transaction of one operation. Both come back where memory runs out.
    pub fn new(alloc: Global, coll: CollName, first: Op) -> Result<Transaction, (CollName, Op)>
        ensures made { IfOk result (λ t. t ≡ record { coll = coll; ops = first ∷ [] }) }
        ensures back { IfErr result (λ e. e ≡ (coll, first)) }
    {
        let mut ops = Vec::new(alloc);
        match ops.push(first) {
            Ok(()) => Ok(Transaction { coll, ops }),
            Err(failed) => Err((coll, failed.value)),
        }
    }

    /// Adds an operation behind the others. It comes back where memory runs out.
    pub fn push(&mut self, op: Op) -> Result<(), AllocFailed<Op>>
        ensures ok { OnOk result (self.new ≡ record self.old { ops = self.old.ops ++ op ∷ [] }) }
        ensures err { OnErr result (self.new ≡ self.old) }
        ensures back { IfErr result (λ e. e.value ≡ op) }
    {
        self.ops.push(op)
    }

    /// The name of its collection.
    pub fn coll(&self) -> &CollName
        ensures { result.now ≡ self.now.coll }
    {
        &self.coll
    }

    /// Its operations, in the order in which they take effect.
    pub fn ops(&self) -> &[Op]
        ensures operations { result.now ≡ self.now.ops }
        ensures at_least_one { 0 < length self.now.ops }
    {
        self.ops.as_slice()
    }

    /// Whether it has more than 256 operations, or more than 1048576 payload bytes.
    pub fn is_too_large(&self) -> bool
        ensures { result ≡ is_too_large self.now }
    {
        OPS_LIMIT < self.ops.len() || is_payload_over(&self.ops)
    }
}

// What is left of some room for payload bytes, if these fit in it.
fn left(room: u64, bytes: usize) -> Option<u64>
    ensures { MatchOption result (room < bytes) (λ rest. rest + bytes ≡ room) }
{
    room.checked_sub(bytes as u64)
}

fn left_by_pairs(room: u64, pairs: &[Pair]) -> Option<u64>
    ensures { MatchOption result (room < payload_of_pairs pairs.now) (λ rest. rest + payload_of_pairs pairs.now ≡ room) }
{
    let mut rest = room;
    for pair in pairs {
        rest = left(rest, pair.key.as_slice().len())?;
        rest = left(rest, pair.value.len())?;
    }
    Some(rest)
}

fn left_by_keys(room: u64, keys: &[Name]) -> Option<u64>
    ensures { MatchOption result (room < payload_of_keys keys.now) (λ rest. rest + payload_of_keys keys.now ≡ room) }
{
    let mut rest = room;
    for key in keys {
        rest = left(rest, key.as_slice().len())?;
    }
    Some(rest)
}

// What an operation's payload leaves of some room, if it fits in it.
fn left_by(room: u64, op: &Op) -> Option<u64>
    ensures { MatchOption result (room < payload_of op.now) (λ rest. rest + payload_of op.now ≡ room) }
{
    match op {
        Op::Write { bytes, .. } => left(room, bytes.len()),
        Op::SetAttr { name, value, .. } => left(left(room, name.as_slice().len())?, value.len()),
        Op::RmAttr { name, .. } => left(room, name.as_slice().len()),
        Op::OmapSet { pairs, .. } => left_by_pairs(room, pairs.as_slice()),
        Op::OmapRm { keys, .. } => left_by_keys(room, keys.as_slice()),
        Op::OmapRmRange { first, last, .. } => left(
            left(room, first.as_slice().len())?,
            last.as_slice().len(),
        ),
        Op::OmapHeader { value, .. } => left(room, value.len()),
        Op::MkColl | Op::RmColl | Op::Touch { .. } | Op::Zero { .. } | Op::Truncate { .. } => Some(
            room,
        ),
        Op::Remove { .. } | Op::RmAttrs { .. } | Op::OmapClear { .. } => Some(room),
        Op::Clone { .. } | Op::CloneRange { .. } => Some(room),
    }
}

fn is_payload_over(ops: &[Op]) -> bool
    ensures { result ≡ nat_lt payload_limit (sum_by payload_of ops.now) }
{
    let mut room = PAYLOAD_LIMIT;
    for op in ops {
        match left_by(room, op) {
            Some(rest) => room = rest,
            None => return true,
        }
    }
    false
}
