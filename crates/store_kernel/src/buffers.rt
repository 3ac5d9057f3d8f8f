//! The bytes of fresh units, which reads find in memory until their transaction is committed.
ghost use Rattle.std.specs.Prelude.{◌≡◌, ◌==◌, ℕ, ◌++◌, ◌∷◌, [], map, None, Some, is_some, OnOk, OnErr, if◌then◌else◌};
ghost use Rattle.std.specs.Option.{option_or};
ghost use Rattle.std.specs.List.{AllByRecursion};
ghost use Rattle.unit_fields.specs.Prelude.{Ascends};
ghost use Rattle.store_steps.specs.Prelude.{bytes_in};
ghost use Rattle.waiting_contexts.specs.Places.{IsAboveAll};
ghost use Rattle.write_buffers.specs.Prelude.{memory_in};

use std::alloc::{AllocError, Global};
use store_steps::FreshUnit;
use txn_states::Waiting;
use waiting_contexts::Contexts;
use write_buffers::WriteBuffers;

/// Reads find none of these units in memory any more.
pub fn let_go(buffers: &mut WriteBuffers, fresh: &[FreshUnit])
    ensures { (unit : ℕ) → memory_in buffers.new unit ≡ (if is_some (bytes_in fresh.now unit) then None else memory_in buffers.old unit) }
{
    for one in fresh {
        buffers.remove(one.unit.number());
    }
}

/// Reads find these units in memory from now on. Where it runs out they find what they found before.
pub fn hold(buffers: &mut WriteBuffers, fresh: &[FreshUnit]) -> Result<(), AllocError>
    requires absent { AllByRecursion (λ f. memory_in buffers.old f.unit ≡ None) fresh.now }
    requires ascend { Ascends (map (λ f. f.unit) fresh.now) }
    ensures ok { OnOk result ((unit : ℕ) → memory_in buffers.new unit ≡ option_or (memory_in buffers.old unit) (bytes_in fresh.now unit)) }
    ensures err { OnErr result ((unit : ℕ) → memory_in buffers.new unit ≡ memory_in buffers.old unit) }
{
    for (i, one) in fresh.iter().enumerate() {
        match put(buffers, one) {
            Ok(()) => {}
            Err(fail) => {
                let_go(buffers, &fresh[..i]);
                return Err(fail);
            }
        }
    }
    Ok(())
}

// Reads find this unit in memory from now on.
fn put(buffers: &mut WriteBuffers, one: &FreshUnit) -> Result<(), AllocError>
    ensures ok { OnOk result ((unit : ℕ) → memory_in buffers.new unit
        ≡ (if unit == one.now.unit then Some one.now.bytes else memory_in buffers.old unit)) }
    ensures err { OnErr result ((unit : ℕ) → memory_in buffers.new unit ≡ memory_in buffers.old unit) }
{
    let bytes = one.bytes.clone()?;
    buffers.insert(one.unit.number(), bytes)
}

/// A transaction waits behind all others, and reads find its units. Where memory runs out neither is so.
pub fn enter(
    alloc: Global,
    contexts: &mut Contexts,
    buffers: &mut WriteBuffers,
    context: Waiting,
) -> Result<(), AllocError>
    requires above { IsAboveAll context.place contexts.old }
    requires absent { AllByRecursion (λ f. memory_in buffers.old f.unit ≡ None) context.fresh }
    requires ascend { Ascends (map (λ f. f.unit) context.fresh) }
    ensures waits { OnOk result (contexts.new ≡ contexts.old ++ context ∷ []) }
    ensures found { OnOk result ((unit : ℕ) → memory_in buffers.new unit ≡ option_or (memory_in buffers.old unit) (bytes_in context.fresh unit)) }
    ensures same { OnErr result (contexts.new ≡ contexts.old) }
    ensures err { OnErr result ((unit : ℕ) → memory_in buffers.new unit ≡ memory_in buffers.old unit) }
{
    hold(buffers, context.fresh())?;
    match contexts.push(alloc, context) {
        Ok(()) => Ok(()),
        Err(back) => {
            let_go(buffers, back.fresh());
            Err(AllocError)
        }
    }
}
