//! Steps of the kernel that are drawn, between the commands of clients.
ghost use Rattle.std.specs.Prelude.{◌≡◌, ◌≤◌, ◌<◌, [], None, Some, length, true, false, OnOk, IsErrOf, MatchResult};
ghost use Rattle.block_device.specs.Prelude.{Rose};
ghost use Rattle.store_steps.specs.Prelude.{is_ready, Does, Takes};
ghost use Rattle.store_kernel.specs.Steps.{TakesMemory};
ghost use Rattle.store_steps.specs.declared.step.Step.TheVariants.{Reap, Finish};
ghost use Rattle.run_facts.specs.Prelude.{IsKept};
ghost use Rattle.book_facts.specs.Prelude.{IsInOrder};
ghost use Rattle.client_runs.specs.Choice.{at_position};
ghost use Rattle.client_runs.specs.Clients.{lefts, AreTied};
ghost use Rattle.client_runs.specs.Standing.{position_of, IsAckedNext, FindsClient, StopsAs};

use crate::clients::Clients;
use crate::drawing::{Drawn, draw};
use crate::generator::Generator;
use block_device::Device;
use std::alloc::Global;
use store_kernel::{Kernel, StepFail};
use store_steps::Step;

/// The client whose transaction is acknowledged next.
fn next_acknowledged<D: Device>(kernel: &Kernel<D>) -> u32
    requires up { kernel.now.state.down ≡ None }
    requires ready { is_ready Finish (D.disk kernel.now.device).depth kernel.now.state ≡ true }
    requires order { IsInOrder kernel.now.state }
    ensures { IsAckedNext result kernel.now.state }
{
    kernel.facts();
    let commit = kernel.commits()[kernel.acked_count() as usize];
    kernel.entries()[commit.place as usize].client
}

/// Acknowledges the next transaction, and tells its client.
fn acknowledge<D: Device>(
    alloc: Global,
    kernel: &mut Kernel<D>,
    clients: &mut Clients,
) -> Result<(), StepFail>
    requires up { kernel.old.state.down ≡ None }
    requires ready { is_ready Finish (D.disk kernel.old.device).depth kernel.old.state ≡ true }
    requires tied { AreTied clients.old kernel.old.state }
    ensures ok { OnOk result (Does Finish kernel.old.state (D.disk kernel.old.device) kernel.new.state (D.disk kernel.new.device)) }
    ensures tied { OnOk result (AreTied clients.new kernel.new.state) }
    ensures left { lefts clients.new.all.items ≡ lefts clients.old.all.items }
    ensures fault { ¬ IsErrOf result StepFail.Fault }
    ensures memory { ¬ IsErrOf result StepFail.Memory }
    ensures later { D.faults kernel.old.device ≤ D.faults kernel.new.device }
    ensures kept { IsKept kernel.new.state (D.disk kernel.new.device) }
{
    kernel.facts();
    let client = next_acknowledged(kernel);
    kernel.step(alloc, Step::Finish)?;
    clients.acknowledged(client);
    Ok(())
}

/// Makes a step. Where it acknowledges a transaction, its client is told.
fn make_step<D: Device>(
    alloc: Global,
    kernel: &mut Kernel<D>,
    clients: &mut Clients,
    step: Step,
) -> Result<(), StepFail>
    requires up { kernel.old.state.down ≡ None }
    requires ready { is_ready step (D.disk kernel.old.device).depth kernel.old.state ≡ true }
    requires tied { AreTied clients.old kernel.old.state }
    ensures ok { OnOk result (Does step kernel.old.state (D.disk kernel.old.device) kernel.new.state (D.disk kernel.new.device)) }
    ensures tied { OnOk result (AreTied clients.new kernel.new.state) }
    ensures left { lefts clients.new.all.items ≡ lefts clients.old.all.items }
    ensures fault { IsErrOf result StepFail.Fault → (step ≡ Reap)
        × Takes kernel.old.state (D.disk kernel.old.device) false kernel.new.state (D.disk kernel.new.device)
        × Rose (D.faults kernel.old.device) (D.faults kernel.new.device) }
    ensures memory { IsErrOf result StepFail.Memory → TakesMemory step × (kernel.new.state ≡ kernel.old.state)
        × (D.disk kernel.new.device ≡ D.disk kernel.old.device) }
    ensures later { D.faults kernel.old.device ≤ D.faults kernel.new.device }
    ensures kept { IsKept kernel.new.state (D.disk kernel.new.device) }
{
    kernel.facts();
    match step {
        Step::Finish => acknowledge(alloc, kernel, clients),
        _ => kernel.step(alloc, step),
    }
}

/// Makes steps, each drawn, until a client is drawn, which is given, or nothing is left to be drawn.
pub fn next_client<D: Device>(
    alloc: Global,
    kernel: &mut Kernel<D>,
    clients: &mut Clients,
    generator: &mut Generator,
) -> Result<Option<u32>, StepFail>
    requires up { kernel.old.state.down ≡ None }
    requires tied { AreTied clients.old kernel.old.state }
    ensures ran { MatchResult result
        (λ found. FindsClient found generator.old.x clients.old kernel.old.state (D.disk kernel.old.device)
        generator.new.x clients.new kernel.new.state (D.disk kernel.new.device))
        (λ e. StopsAs (Some e) (position_of generator.old.x clients.old kernel.old.state (D.disk kernel.old.device))
        kernel.new.state (D.disk kernel.new.device)) }
    ensures later { D.faults kernel.old.device ≤ D.faults kernel.new.device }
    ensures cause { IsErrOf result StepFail.Fault → Rose (D.faults kernel.old.device) (D.faults kernel.new.device) }
{
    kernel.facts();
    'steps: loop {
        match draw(kernel, clients.able(), generator) {
            None => return Ok(None),
            Some(Drawn::Client(client)) => return Ok(Some(client)),
            Some(Drawn::Step(step)) => make_step(alloc, kernel, clients, step)?,
        }
    }
}

/// Makes steps, each drawn from the ready ones, until none is ready.
pub fn drain<D: Device>(
    alloc: Global,
    kernel: &mut Kernel<D>,
    generator: &mut Generator,
) -> Result<(), StepFail>
    requires { kernel.old.state.down ≡ None }
    ensures ran { MatchResult result
        (λ _. StopsAs None (at_position generator.old.x [] kernel.old.state (D.disk kernel.old.device)) kernel.new.state (D.disk kernel.new.device))
        (λ e. StopsAs (Some e) (at_position generator.old.x [] kernel.old.state (D.disk kernel.old.device)) kernel.new.state (D.disk kernel.new.device)) }
    ensures later { D.faults kernel.old.device ≤ D.faults kernel.new.device }
{
    kernel.facts();
    'steps: loop {
        match draw(kernel, &[], generator) {
            None => return Ok(()),
            Some(Drawn::Client(_)) => unreachable!(),
            Some(Drawn::Step(step)) => kernel.step(alloc, step)?,
        }
    }
}
