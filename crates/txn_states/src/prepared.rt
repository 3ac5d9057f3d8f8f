//! A transaction that was accepted.
ghost use Rattle.std.specs.Prelude.{◌≡◌, ◌<◌, ◌^◌, length};
ghost use Rattle.txn_states.specs.States.{prepared_context};

use crate::waiting::Waiting;
use plan_rows::Plan;
use std::marker::Model;
use store_steps::Context;
use unit_fields::CollName;

/// A transaction that was accepted, none of whose data writes was submitted. A clause sees its context. (Ceph's STATE_PREPARE.)
#[derive(Drop)]
pub struct Prepared {
    context: Context,
}

impl Model for Prepared {
    ghost use Rattle.store_steps.specs.declared.context.Context.{Context};

    ghost Value = { Context };

    ghost use Rattle.txn_states.specs.States.{NoneSubmitted};

    ghost view = { λ a. a.context };

    ghost invariant = { λ a. NoneSubmitted a.context };
}

impl Prepared {
    /// The transaction at this place of the book, on this collection, with its plan and the units that a record of its operations takes.
    /// The kernel makes one when it accepts a transaction. The old bytes that were read for the plan are let go.
    pub fn new(place: u32, coll: CollName, plan: Plan, need: u32) -> Prepared
        requires { length plan.fresh < 2 ^ 32 }
        ensures { result ≡ prepared_context place coll plan need }
    {
        let Plan {
            ops,
            fresh,
            released,
            ..
        } = plan;
        let context = Context {
            place,
            coll,
            ops,
            need,
            fresh,
            released,
            given: 0,
            done: 0,
        };
        Prepared { context }
    }

    /// Its data writes may be submitted now. (Ceph's `_txc_aio_submit`.)
    pub fn start(self) -> Waiting
        ensures { result ≡ self }
    {
        Waiting::of(self.context)
    }
}
