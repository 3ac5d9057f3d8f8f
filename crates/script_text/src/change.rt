//! Operations and transactions, as they are kept until they are used.
ghost use Rattle.std.specs.Prelude.{◌≡◌, ◌++◌, ◌∷◌, [], IfOk, OnOk};
ghost use Rattle.object_model.specs.Effect.{is_same};
ghost use Rattle.object_model.specs.declared.op.Op.TheVariants.{Write, SetAttr, OmapHeader, OmapSet};
ghost use Rattle.script_text.specs.Blocks.{together};

use crate::both::both;
use crate::data::Data;
use crate::pair::{KeptPair, written_out};
use byte_maps::Items;
use bytes::Bytes as SharedBytes;
use object_model::{Op, Transaction};
use std::alloc::{AllocError, Global};
use std::cmp::Ordering;
use std::marker::Model;
use unit_fields::{CollName, Name};

/// An operation, in memory in proportion to the words that spell it: the bytes of a `fill` aren't there before `into_op`.
#[derive(Drop)]
pub struct KeptOp {
    spelled: SpelledOp,
}

/// One with its data as they are spelled, or any other.
#[derive(Drop)]
enum SpelledOp {
    Write {
        object: Name,
        off: u64,
        bytes: Data,
    },
    SetAttr {
        object: Name,
        pair: KeptPair,
    },
    OmapHeader {
        object: Name,
        value: Data,
    },
    OmapSet {
        object: Name,
        pairs: Items<KeptPair>,
    },
    Other(Op),
}

impl Model for KeptOp {
    ghost use Rattle.object_model.specs.declared.op.Op.{Op};

    ghost Value = { Op };

    ghost use Rattle.script_text.specs.Kept.{spelled_op};

    ghost view = { λ a. spelled_op a.spelled };
}

impl KeptOp {
    /// An operation as it is.
    pub fn of(op: Op) -> KeptOp
        ensures { result ≡ op }
    {
        KeptOp {
            spelled: SpelledOp::Other(op),
        }
    }

    /// A write of these bytes.
    pub fn write(object: Name, off: u64, bytes: Data) -> KeptOp
        ensures { result ≡ Write object off bytes }
    {
        KeptOp {
            spelled: SpelledOp::Write { object, off, bytes },
        }
    }

    /// An attribute that is set to a value.
    pub fn set_attr(object: Name, pair: KeptPair) -> KeptOp
        ensures { result ≡ SetAttr object pair.key pair.value }
    {
        KeptOp {
            spelled: SpelledOp::SetAttr { object, pair },
        }
    }

    /// A header that is set to this value.
    pub fn omap_header(object: Name, value: Data) -> KeptOp
        ensures { result ≡ OmapHeader object value }
    {
        KeptOp {
            spelled: SpelledOp::OmapHeader { object, value },
        }
    }

    /// Pairs that are set.
    pub fn omap_set(object: Name, pairs: Items<KeptPair>) -> KeptOp
        ensures { result ≡ OmapSet object pairs }
    {
        KeptOp {
            spelled: SpelledOp::OmapSet { object, pairs },
        }
    }

    /// The operation, with its data written out: this takes their memory.
    fn into_op(self, alloc: Global) -> Result<Op, AllocError>
        ensures { IfOk result (λ op. op ≡ self) }
    {
        match self.spelled {
            SpelledOp::Write { object, off, bytes } => {
                let (object, bytes) = both(object, shared(alloc, bytes))?;
                Ok(Op::Write { object, off, bytes })
            }
            SpelledOp::SetAttr { object, pair } => {
                let (object, pair) = both(object, pair.into_pair(alloc))?;
                Ok(Op::SetAttr {
                    object,
                    name: pair.key,
                    value: pair.value,
                })
            }
            SpelledOp::OmapHeader { object, value } => {
                let (object, value) = both(object, value.into_bytes(alloc))?;
                Ok(Op::OmapHeader { object, value })
            }
            SpelledOp::OmapSet { object, pairs } => {
                let (object, pairs) = both(object, written_out(alloc, pairs))?;
                Ok(Op::OmapSet { object, pairs })
            }
            SpelledOp::Other(op) => Ok(op),
        }
    }
}

/// Data, written out as they are shared.
fn shared(alloc: Global, spelled: Data) -> Result<SharedBytes, AllocError>
    ensures { IfOk result (λ bytes. bytes ≡ spelled) }
{
    let bytes = spelled.into_bytes(alloc)?;
    let bytes = bytes.into_vec(alloc)?;
    SharedBytes::from_vec(bytes).map_err(AllocError::from)
}

/// Moves operations behind others.
fn push_all(ops: &mut Items<KeptOp>, next: Items<KeptOp>) -> Result<(), AllocError>
    ensures { OnOk result (ops.new ≡ ops.old ++ next) }
{
    let mut left = next.into_vec().into_iter();
    'next: while let Some(op) = left.next() {
        ops.push(op)?;
    }
    Ok(())
}

/// Adds operations to a transaction, with their data written out.
fn add_all(alloc: Global, made: &mut Transaction, ops: Items<KeptOp>) -> Result<(), AllocError>
    ensures { OnOk result (made.new ≡ record made.old { ops = made.old.ops ++ ops }) }
{
    let mut left = ops.into_vec().into_iter();
    'ops: while let Some(op) = left.next() {
        made.push(op.into_op(alloc)?)?;
    }
    Ok(())
}

/// A transaction, in memory in proportion to the words that spell it.
#[derive(Drop)]
pub struct KeptChange {
    coll: CollName,
    first: KeptOp,
    /// The operations behind the first one.
    more: Items<KeptOp>,
}

impl Model for KeptChange {
    ghost use Rattle.std.specs.Prelude.{◌∷◌};
    ghost use Rattle.object_model.specs.Effect.{Change};

    ghost Value = { Change };

    ghost view = { λ a. record { coll = a.coll; ops = a.first ∷ a.more } };
}

impl KeptChange {
    /// A transaction of one operation. It takes no memory beyond the operation's.
    pub fn new(alloc: Global, coll: CollName, first: KeptOp) -> KeptChange
        ensures { result ≡ record { coll = coll; ops = first ∷ [] } }
    {
        KeptChange {
            coll,
            first,
            more: Items::new(alloc),
        }
    }

    /// The name of its collection, lent.
    fn coll(&self) -> &CollName
        ensures { result.now ≡ self.now.coll }
    {
        &self.coll
    }

    /// With the operations of another one behind its own; None where that is about another collection.
    pub fn with(mut self, next: KeptChange) -> Result<Option<KeptChange>, AllocError>
        ensures { IfOk result (λ both. both ≡ together (Some self) next) }
    {
        if !is_same(self.coll(), next.coll()) {
            drop(next);
            drop(self);
            return Ok(None);
        }
        match self.append(next) {
            Ok(()) => Ok(Some(self)),
            Err(e) => {
                drop(self);
                Err(e)
            }
        }
    }

    /// Moves the operations of another one behind its own.
    fn append(&mut self, next: KeptChange) -> Result<(), AllocError>
        ensures { OnOk result (self.new ≡ record self.old { ops = self.old.ops ++ next.ops }) }
    {
        drop(next.coll);
        match self.more.push(next.first) {
            Ok(()) => push_all(&mut self.more, next.more),
            Err(e) => {
                drop(next.more);
                Err(e)
            }
        }
    }

    /// The transaction, with its data written out: this takes their memory.
    pub fn into_transaction(self, alloc: Global) -> Result<Transaction, AllocError>
        ensures { IfOk result (λ made. made ≡ self) }
    {
        let (more, mut made) = both(self.more, transaction_of(alloc, self.coll, self.first))?;
        match add_all(alloc, &mut made, more) {
            Ok(()) => Ok(made),
            Err(e) => {
                drop(made);
                Err(e)
            }
        }
    }
}

/// Whether two collections' names are the same.
fn is_same(a: &CollName, b: &CollName) -> bool
    ensures { result ≡ is_same a.now b.now }
{
    a.as_slice().cmp(b.as_slice()) == Ordering::Equal
}

/// A transaction of one operation, with its data written out.
fn transaction_of(alloc: Global, coll: CollName, first: KeptOp) -> Result<Transaction, AllocError>
    ensures { IfOk result (λ made. made ≡ record { coll = coll; ops = first ∷ [] }) }
{
    let (coll, first) = both(coll, first.into_op(alloc))?;
    match Transaction::new(alloc, coll, first) {
        Ok(made) => Ok(made),
        Err(back) => {
            drop(back);
            Err(AllocError)
        }
    }
}
