//! A transaction as bytes.
ghost use Rattle.std.specs.Prelude.{IfOk};
ghost use Rattle.txn_codec.specs.Prelude.{IsEncodable, SpellsTransaction};

use crate::codes::VERSION;
use crate::field_writing::push_coll;
use crate::op_writing::push_op;
use object_model::Transaction;
use std::alloc::{AllocError, Global};
use unit_fields::push_u16_le;

/// The transaction as bytes. `decode` gives it back, whatever is written behind them. (Ceph: `ObjectStore::Transaction::encode`.)
pub fn encode(alloc: Global, transaction: &Transaction) -> Result<Vec<u8>, AllocError>
    requires { IsEncodable transaction.now }
    ensures { IfOk result (λ bytes. SpellsTransaction bytes.items transaction.now) }
{
    let mut out = Vec::new(alloc);
    out.push(VERSION)?;
    push_coll(&mut out, transaction.coll())?;
    let ops = transaction.ops();
    push_u16_le(&mut out, ops.len() as u16)?;
    for op in ops {
        push_op(&mut out, op)?;
    }
    Ok(out)
}
