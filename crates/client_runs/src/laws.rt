//! What drawn runs are, and what is left where they end. Each function has a law for its contract and does nothing.
ghost use Rattle.std.specs.Prelude.{◌≡◌, List, [], None};
ghost use Rattle.std.specs.List.{AllByRecursion};
ghost use Rattle.store_steps.specs.Prelude.{Call, IsRun};
ghost use Rattle.run_facts.specs.Prelude.{IsKept};
ghost use Rattle.book_facts.specs.Prelude.{IsInOrder};
ghost use Rattle.client_runs.specs.Choice.{Position, calls_at, IsDrawnRun};

/// Calls that were drawn, one after another, are a run of the kernel.
#[tactic(auto, using(crate::proofs::RunLemmas::drawn_run))]
pub fn a_drawn_run_is_a_run()
    ensures { (p : Position) (calls : List Call) (q : Position) → IsDrawnRun p calls q → IsRun p.state p.disk calls q.state q.disk }
{}

/// Where a kernel is up and there is no call that can be made, no client has a command left: all that was accepted is committed and
/// acknowledged, so that each `wait` is over.
#[tactic(auto, using(crate::proofs::EndLemmas::none_left))]
pub fn no_command_is_left_at_the_end()
    ensures { (p : Position) → IsKept p.state p.disk → IsInOrder p.state → p.state.down ≡ None → calls_at p ≡ []
        → AllByRecursion (λ asks. asks ≡ []) p.clients }
{}
