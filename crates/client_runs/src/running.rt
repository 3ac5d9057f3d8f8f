//! Scripts, run beside each other on a mounted store.
ghost use Rattle.std.specs.Prelude.{◌≡◌, ◌≤◌, ◌+◌, Some, None, length, map, IsErrOf, MatchResult};
ghost use Rattle.std.specs.List.{AllByRecursion};
ghost use Rattle.block_device.specs.Prelude.{Rose};
ghost use Rattle.client_runs.specs.Choice.{asks_of};
ghost use Rattle.client_runs.specs.Running.{IsNew, FitsLine, command_sum, RunsUpTo};
ghost use Rattle.client_runs.specs.Clients.{lefts, AreTied, EachFits};
ghost use Rattle.client_runs.specs.Standing.{position_of, fail_of, RunsClients, WindsUp};

use crate::clients::Clients;
use crate::commands::ask;
use crate::generator::Generator;
use crate::run_fail::RunFail;
use crate::stepping::{drain, next_client};
use block_device::Device;
use script_text::Line;
use std::alloc::Global;
use store_kernel::{Kernel, StepFail};

/// Why a run ends where a step failed.
fn run_fail(fail: StepFail) -> RunFail
    ensures { result ≡ fail_of fail }
{
    match fail {
        StepFail::Memory => RunFail::Memory,
        StepFail::Fault => RunFail::Fault,
    }
}

/// Lets the clients go on, until no command is left and no step is ready.
fn run_clients<D: Device>(
    alloc: Global,
    kernel: &mut Kernel<D>,
    clients: &mut Clients,
    generator: &mut Generator,
) -> Result<(), RunFail>
    requires up { kernel.old.state.down ≡ None }
    requires tied { AreTied clients.old kernel.old.state }
    requires fits { EachFits clients.old.all.items }
    requires room { length kernel.old.state.book.entries + command_sum (lefts clients.old.all.items) ≤ 1048576 }
    ensures ran { MatchResult result
        (λ _. RunsClients None (position_of generator.old.x clients.old kernel.old.state (D.disk kernel.old.device))
        generator.new.x kernel.new.state (D.disk kernel.new.device))
        (λ e. RunsClients (Some e) (position_of generator.old.x clients.old kernel.old.state (D.disk kernel.old.device))
        generator.new.x kernel.new.state (D.disk kernel.new.device)) }
    ensures later { D.faults kernel.old.device ≤ D.faults kernel.new.device }
    ensures cause { IsErrOf result RunFail.Fault → Rose (D.faults kernel.old.device) (D.faults kernel.new.device) }
    ensures read_cause { IsErrOf result RunFail.DeviceRead → Rose (D.faults kernel.old.device) (D.faults kernel.new.device) }
{
    'turns: loop {
        match next_client(alloc, kernel, clients, generator) {
            Ok(None) => return Ok(()),
            Ok(Some(client)) => ask(alloc, kernel, clients, client)?,
            Err(fail) => return Err(run_fail(fail)),
        }
    }
}

/// What is left to do where a run ends early: after a lost read steps are drawn until none is ready, however that ends.
fn wind_up<D: Device>(
    alloc: Global,
    kernel: &mut Kernel<D>,
    generator: &mut Generator,
    fail: RunFail,
)
    requires { fail ≡ RunFail.DeviceRead → kernel.old.state.down ≡ None }
    ensures wound_up { WindsUp fail generator.old.x kernel.old.state (D.disk kernel.old.device) kernel.new.state (D.disk kernel.new.device) }
    ensures later { D.faults kernel.old.device ≤ D.faults kernel.new.device }
{
    match fail {
        RunFail::DeviceRead => {
            let _ = drain(alloc, kernel, generator);
        }
        RunFail::Fault | RunFail::Memory => {}
    }
}

/// Runs the scripts, each by a client of its own, numbered from 0 on, beside each other on a kernel of which nothing was asked
/// yet. What comes next is drawn by a generator that begins with the seed: from the clients that have a command left and whose
/// `wait` before it is over, in the order of their numbers, and then from the ready steps in the order of their table. The run ends
/// where there is nothing to be drawn. The data of a line are written out when its turn comes. After a read that the device failed, be it one
/// of old bytes for a transaction, no client goes on; steps are drawn until none is ready, and whatever ends that, the run ends for the read.
pub fn run_scripts<D: Device>(
    alloc: Global,
    kernel: &mut Kernel<D>,
    seed: u32,
    scripts: Vec<Vec<Line>>,
) -> Result<(), RunFail>
    requires up { kernel.old.state.down ≡ None }
    requires new { IsNew kernel.old.state }
    requires few { length scripts.items ≤ 64 }
    requires fits { AllByRecursion (AllByRecursion FitsLine) (map (λ s. s.items) scripts.items) }
    requires room { command_sum (map asks_of (map (λ s. s.items) scripts.items)) ≤ 1048576 }
    ensures ran { MatchResult result
        (λ _. RunsUpTo None seed (map (λ s. s.items) scripts.items) kernel.old.state (D.disk kernel.old.device)
        kernel.new.state (D.disk kernel.new.device))
        (λ e. RunsUpTo (Some e) seed (map (λ s. s.items) scripts.items) kernel.old.state (D.disk kernel.old.device)
        kernel.new.state (D.disk kernel.new.device)) }
    ensures later { D.faults kernel.old.device ≤ D.faults kernel.new.device }
    ensures cause { IsErrOf result RunFail.Fault → Rose (D.faults kernel.old.device) (D.faults kernel.new.device) }
    ensures read_cause { IsErrOf result RunFail.DeviceRead → Rose (D.faults kernel.old.device) (D.faults kernel.new.device) }
{
    let mut generator = Generator { x: u64::from(seed) };
    let Ok(mut clients) = Clients::new(alloc, scripts) else {
        return Err(RunFail::Memory);
    };
    match run_clients(alloc, kernel, &mut clients, &mut generator) {
        Ok(()) => Ok(()),
        Err(fail) => {
            wind_up(alloc, kernel, &mut generator, fail);
            Err(fail)
        }
    }
}
