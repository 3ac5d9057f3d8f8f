//! Transactions that are submitted.
ghost use Rattle.std.specs.Prelude.{◌↔◌, IsTrue, IfOk};
ghost use Rattle.plan_drafts.specs.Prelude.{IsKnownOp, IsKnown};

use crate::mounted::Mounted;
use block_device::MemoryDevice;
use case_text::{CaseError, Text, Words};
use object_lines::transaction as transaction_of;
use object_model::{Op, Transaction};
use plain_reader::{Told, coll_of};
use std::alloc::Global;
use store_kernel::{Kernel, Refused};

/// Whether the store knows the operation.
fn is_known(op: &Op) -> bool
    ensures { IsTrue result ↔ IsKnownOp op.now }
{
    match op {
        Op::Clone { .. } | Op::CloneRange { .. } => false,
        _ => true,
    }
}

fn are_known(ops: &[Op]) -> bool
    ensures { IsTrue result ↔ IsKnown ops.now }
{
    ops.iter().all(is_known)
}

/// The transaction of these words: a collection, and operations in the words of the reference store's cases, with semicolons
/// between them.
fn transaction(alloc: Global, mut words: Words<'_>) -> Result<Transaction, CaseError>
    ensures { IfOk result (λ t. IsKnown t.ops) }
{
    let coll = coll_of(alloc, words.next()?.as_bytes())?;
    let txn = transaction_of(alloc, coll, words.text())?;
    if are_known(txn.ops()) {
        Ok(txn)
    } else {
        drop(txn);
        Err(CaseError::Line("an operation that isn't known"))
    }
}

pub fn print_refused(why: &Refused, out: &mut Text) {
    match why {
        Refused::Refusal(refusal) => out.println(format_args!("refused {refusal:?}")),
        Refused::NoSpace { need, free } => out.println(format_args!(
            "NoSpace need={need} free={free}"
        )),
        Refused::Csum { unit, kept, found } => {
            let unit = unit.number();
            out.println(format_args!("Csum unit={unit} kept={kept:08x} found={found:08x}"));
        }
        Refused::MetaFull { need, room } => out.println(format_args!(
            "MetaFull need={need} room={room}"
        )),
        Refused::Down { ticket, back: _ } => out.println(format_args!("down by {}", ticket.place)),
        Refused::BookFull(_) => out.println("the book is full"),
        Refused::DeviceRead(_) => out.println("the device failed"),
        Refused::Memory(_) => out.println("out of memory"),
    }
}

/// Submits a transaction, as client 0 at line 1.
fn submitted(
    alloc: Global,
    kernel: &mut Kernel<MemoryDevice>,
    txn: Transaction,
) -> Result<u32, Refused>
    requires { IsKnown txn.ops }
{
    kernel.submit(alloc, 0, 1, txn)
}

impl Mounted {
    /// Submits the transaction of these words. They are read twice, since the kernel keeps what it is given: where it is accepted, the
    /// other reading is kept, with its place.
    pub fn submit_words(&mut self, words: Words<'_>) -> Result<Result<u32, Refused>, CaseError> {
        let change = transaction(self.alloc, words)?;
        let txn = transaction(self.alloc, words)?;
        match submitted(self.alloc, &mut self.kernel, txn) {
            Ok(place) => {
                self.told.push(Told { place, change })?;
                Ok(Ok(place))
            }
            Err(why) => {
                drop(change);
                Ok(Err(why))
            }
        }
    }

    /// Follows `submit COLL OPERATION; OPERATION ..`, from its second word on, and shows the transaction's place in the book.
    pub fn submit(&mut self, words: Words<'_>, out: &mut Text) -> Result<(), CaseError> {
        match self.submit_words(words)? {
            Ok(place) => out.println(format_args!("accepted {place}")),
            Err(why) => {
                print_refused(&why, out);
                drop(why);
            }
        }
        Ok(())
    }
}
