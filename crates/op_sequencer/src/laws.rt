//! What the calls of a sequencer come to. The function does nothing: its contract is the law.
ghost use Rattle.std.specs.Prelude.{List, []};
ghost use Rattle.op_sequencer.specs.Calls.{TurnCall, CanRun, PopsInOrder};

/// Whatever calls are made on a sequencer that was new, the places that were popped are a front of those that were pushed, in the same order
/// and each as often, and each was pushed as done or was said to be done before it was popped.
pub fn pops_in_order()
    ensures { (calls : List TurnCall) → CanRun calls [] → PopsInOrder calls }
{}
