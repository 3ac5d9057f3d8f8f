//! A transaction read from the front of bytes.
ghost use Rattle.std.specs.Prelude.{◌≡◌, ◌∷◌, [], length, IfOk, MatchOption, MatchResult};
ghost use Rattle.meta_rows.specs.Prelude.{BeginsWithNo};
ghost use Rattle.txn_codec.specs.declared.fail.ReadFail.TheVariants.{NotSpelled};
ghost use Rattle.txn_codec.specs.Prelude.{txn_op_bytes, transaction_bytes, AddsOp, FitsOp, FitsTransaction, GivesFront, HasNoFirst, IsTransactionFront, ReadsBody, ReadsFirst};

use crate::codes::VERSION;
use crate::fail::ReadFail;
use crate::field_reading::{read_coll, read_count};
use crate::op_reading::read_op;
use object_model::{Op, Transaction};
use std::alloc::{AllocError, Global};
use unit_fields::{CollName, Fields};

// How many operations a transaction has, and the first one.
fn read_first(alloc: Global, fields: &mut Fields) -> Result<(u16, Op), ReadFail>
    ensures { MatchResult result (λ x. ReadsFirst fields.old x.0 x.1 fields.new) (λ why. why ≡ NotSpelled → HasNoFirst fields.old) }
{
    let count = read_count(fields)?;
    let first = read_op(alloc, fields)?;
    Ok((count, first))
}

fn transaction_of(alloc: Global, coll: CollName, first: Op) -> Result<Transaction, AllocError>
    ensures { IfOk result (λ made. made ≡ record { coll = coll; ops = first ∷ [] }) }
{
    match Transaction::new(alloc, coll, first) {
        Ok(made) => Ok(made),
        Err(back) => {
            drop(back);
            Err(AllocError)
        }
    }
}

// A transaction with the first operation, and how many it is to have.
fn read_begin(alloc: Global, fields: &mut Fields) -> Result<(Transaction, u16), ReadFail>
    ensures { MatchResult result (λ x. ReadsBody fields.old x.1 1 x.0 fields.new)
        (λ why. why ≡ NotSpelled → BeginsWithNo FitsTransaction transaction_bytes (1 ∷ fields.old)) }
{
    let coll = read_coll(alloc, fields)?;
    match read_first(alloc, fields) {
        Ok((count, first)) => {
            let transaction = transaction_of(alloc, coll, first)?;
            Ok((transaction, count))
        }
        Err(why) => {
            drop(coll);
            Err(why)
        }
    }
}

// One operation more.
fn add_op(alloc: Global, fields: &mut Fields, transaction: &mut Transaction) -> Result<(), ReadFail>
    ensures { MatchResult result (λ _. AddsOp transaction.old fields.old transaction.new fields.new)
        (λ why. why ≡ NotSpelled → BeginsWithNo FitsOp txn_op_bytes fields.old) }
{
    let op = read_op(alloc, fields)?;
    match transaction.push(op) {
        Ok(()) => Ok(()),
        Err(failed) => {
            drop(failed);
            Err(ReadFail::Memory)
        }
    }
}

// The transaction behind the version.
fn read_body(alloc: Global, fields: &mut Fields) -> Result<Transaction, ReadFail>
    ensures { GivesFront FitsTransaction transaction_bytes (1 ∷ fields.old) fields.new result }
{
    let (mut transaction, count) = read_begin(alloc, fields)?;
    'ops: for _i in 1..count {
        add_op(alloc, fields, &mut transaction)?;
    }
    Ok(transaction)
}

fn read_transaction(alloc: Global, fields: &mut Fields) -> Result<Transaction, ReadFail>
    ensures { GivesFront FitsTransaction transaction_bytes fields.old fields.new result }
{
    match fields.u8() {
        Some(VERSION) => read_body(alloc, fields),
        _ => Err(ReadFail::NotSpelled),
    }
}

/// The transaction that these bytes begin with, and how many of them spell it. None: they begin with none. What stands behind it
/// isn't looked at. Each byte is looked at once, and no more memory is taken than the names, values and operations in the bytes ask
/// for. The limits of a transaction's operations and payload are for the caller to see. (Ceph: `ObjectStore::Transaction::decode`.)
pub fn decode(alloc: Global, bytes: &[u8]) -> Result<Option<(Transaction, usize)>, AllocError>
    ensures { IfOk result (λ found. MatchOption found (BeginsWithNo FitsTransaction transaction_bytes bytes.now)
        (λ pair. IsTransactionFront bytes.now pair.0 pair.1)) }
{
    let mut fields = Fields::new(bytes);
    match read_transaction(alloc, &mut fields) {
        Ok(transaction) => Ok(Some((transaction, bytes.len() - fields.rest().len()))),
        Err(ReadFail::NotSpelled) => Ok(None),
        Err(ReadFail::Memory) => Err(AllocError),
    }
}
