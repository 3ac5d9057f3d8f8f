//! Commands of clients.
ghost use Rattle.std.specs.Prelude.{◌≡◌, ◌≢◌, ◌<◌, ◌≤◌, ◌+◌, None, true, false, length, IfOk, IfErr, IsErrOf, MatchResult};
ghost use Rattle.block_device.specs.Prelude.{IsSound, Rose};
ghost use Rattle.object_model.specs.declared.command.Command.TheVariants as command;
ghost use Rattle.script_text.specs.Prelude.{FitsWhat, is_wait};
ghost use Rattle.script_text.specs.declared.line.What.TheVariants as what;
ghost use Rattle.client_runs.specs.Running.{command_sum};
ghost use Rattle.client_runs.specs.Clients.{lefts, is_able, IsOfOne, AreTied, EachFits};
ghost use Rattle.client_runs.specs.Standing.{IsNoted, IsNotNoted, IsNotTurnedAway, IsReplied, IsNoTurnAway, IsFailOf, IsMade, IsUnmade, AsksNext, AsksInVain};

use crate::clients::Clients;
use crate::run_fail::RunFail;
use block_device::Device;
use object_model::{Command, Read, Transaction};
use script_text::{Line, Said, What};
use std::alloc::Global;
use store_kernel::{Kernel, Refused, Unanswered};

/// Whether a transaction was accepted. It has its entry in the book, accepted or refused: all but want of memory and a read of the device
/// that failed make one.
fn noted(submitted: &Result<u32, Refused>) -> Result<bool, RunFail>
    requires { IsNotTurnedAway submitted.now }
    ensures { MatchResult result (λ accepted. IsNoted accepted submitted.now) (λ e. IsNotNoted e submitted.now) }
{
    match submitted {
        Ok(_) => Ok(true),
        Err(
            Refused::Refusal(_)
            | Refused::NoSpace { .. }
            | Refused::Csum { .. }
            | Refused::MetaFull { .. },
        ) => Ok(false),
        Err(Refused::Down { .. } | Refused::BookFull(_)) => unreachable!(),
        Err(Refused::DeviceRead(_)) => Err(RunFail::DeviceRead),
        Err(Refused::Memory(_)) => Err(RunFail::Memory),
    }
}

/// Whether a read has its entry in the book: all but want of memory and a read of the device that failed make one.
fn replied(answered: &Result<u32, Unanswered>) -> Result<(), RunFail>
    requires { IsNoTurnAway answered.now }
    ensures { MatchResult result (λ _. IsReplied answered.now) (λ e. IsFailOf e answered.now) }
{
    match answered {
        Ok(_) => Ok(()),
        Err(Unanswered::Down { .. } | Unanswered::BookFull(_)) => unreachable!(),
        Err(Unanswered::DeviceRead(_)) => Err(RunFail::DeviceRead),
        Err(Unanswered::Memory(_)) => Err(RunFail::Memory),
    }
}

/// Submits a transaction of a client, for which the kernel may read old bytes. Whether it was accepted.
fn submit<D: Device>(
    alloc: Global,
    kernel: &mut Kernel<D>,
    client: u32,
    line: u32,
    txn: Transaction,
) -> Result<bool, RunFail>
    requires up { kernel.old.state.down ≡ None }
    requires fits { FitsWhat (what.Command (command.Change txn)) }
    requires room { length kernel.old.state.book.entries < 1048576 }
    ensures made { MatchResult result
        (λ accepted. IsMade client line (command.Change txn) accepted kernel.old.state (D.disk kernel.old.device) kernel.new.state (D.disk kernel.new.device))
        (λ e. IsUnmade e client line (command.Change txn) kernel.old.state (D.disk kernel.old.device) kernel.new.state (D.disk kernel.new.device)) }
    ensures sound { IsSound (D.disk kernel.new.device) }
    ensures later { D.faults kernel.old.device ≤ D.faults kernel.new.device }
    ensures cause { IsErrOf result RunFail.DeviceRead → Rose (D.faults kernel.old.device) (D.faults kernel.new.device) }
{
    let submitted = kernel.submit(alloc, client, line, txn);
    let end = noted(&submitted);
    drop(submitted);
    end
}

/// Asks for a read of a client.
fn ask_read<D: Device>(
    alloc: Global,
    kernel: &mut Kernel<D>,
    client: u32,
    line: u32,
    read: Read,
) -> Result<(), RunFail>
    requires up { kernel.old.state.down ≡ None }
    requires room { length kernel.old.state.book.entries < 1048576 }
    ensures made { MatchResult result
        (λ _. IsMade client line (command.Read read) false kernel.old.state (D.disk kernel.old.device) kernel.new.state (D.disk kernel.new.device))
        (λ e. IsUnmade e client line (command.Read read) kernel.old.state (D.disk kernel.old.device) kernel.new.state (D.disk kernel.new.device)) }
    ensures sound { IsSound (D.disk kernel.new.device) }
    ensures later { D.faults kernel.old.device ≤ D.faults kernel.new.device }
    ensures cause { IsErrOf result RunFail.DeviceRead → Rose (D.faults kernel.old.device) (D.faults kernel.new.device) }
{
    let answered = kernel.ask(alloc, client, line, read);
    let end = replied(&answered);
    drop(answered);
    end
}

/// Makes a command of a client: a transaction is submitted, and a read is asked. Whether a transaction was accepted.
fn make<D: Device>(
    alloc: Global,
    kernel: &mut Kernel<D>,
    client: u32,
    line: u32,
    command: Command,
) -> Result<bool, RunFail>
    requires up { kernel.old.state.down ≡ None }
    requires fits { FitsWhat (what.Command command) }
    requires room { length kernel.old.state.book.entries < 1048576 }
    ensures made { MatchResult result
        (λ accepted. IsMade client line command accepted kernel.old.state (D.disk kernel.old.device) kernel.new.state (D.disk kernel.new.device))
        (λ e. IsUnmade e client line command kernel.old.state (D.disk kernel.old.device) kernel.new.state (D.disk kernel.new.device)) }
    ensures sound { IsSound (D.disk kernel.new.device) }
    ensures later { D.faults kernel.old.device ≤ D.faults kernel.new.device }
    ensures cause { IsErrOf result RunFail.DeviceRead → Rose (D.faults kernel.old.device) (D.faults kernel.new.device) }
{
    match command {
        Command::Change(txn) => submit(alloc, kernel, client, line, txn),
        Command::Read(read) => match ask_read(alloc, kernel, client, line, read) {
            Ok(()) => Ok(false),
            Err(fail) => Err(fail),
        },
    }
}

/// The command of a line, with its data written out.
fn written_out(alloc: Global, said: Said) -> Result<Command, RunFail>
    requires { is_wait said ≡ false }
    ensures same { IfOk result (λ command. said ≡ what.Command command) }
    ensures fail { IfErr result (λ fail. fail ≡ RunFail.Memory) }
{
    match said.into_what(alloc) {
        Ok(What::Command(command)) => Ok(command),
        Ok(What::Wait) => unreachable!(),
        Err(_) => Err(RunFail::Memory),
    }
}

/// Makes the next command of a client that was drawn. The data of its line are written out now.
pub fn ask<D: Device>(
    alloc: Global,
    kernel: &mut Kernel<D>,
    clients: &mut Clients,
    client: u32,
) -> Result<(), RunFail>
    requires up { kernel.old.state.down ≡ None }
    requires tied { AreTied clients.old kernel.old.state }
    requires fits { EachFits clients.old.all.items }
    requires room { length kernel.old.state.book.entries + command_sum (lefts clients.old.all.items) ≤ 1048576 }
    requires able { IsOfOne (λ c. is_able c ≡ true) client clients.old.all.items }
    ensures asked { MatchResult result
        (λ _. AsksNext client clients.old kernel.old.state (D.disk kernel.old.device) clients.new kernel.new.state (D.disk kernel.new.device))
        (λ e. AsksInVain e client clients.old kernel.old.state (D.disk kernel.old.device) kernel.new.state (D.disk kernel.new.device)) }
    ensures sound { IsSound (D.disk kernel.new.device) }
    ensures later { D.faults kernel.old.device ≤ D.faults kernel.new.device }
    ensures cause { IsErrOf result RunFail.DeviceRead → Rose (D.faults kernel.old.device) (D.faults kernel.new.device) }
{
    kernel.facts();
    let Line { line, what } = clients.take(client);
    let command = written_out(alloc, what)?;
    let accepted = make(alloc, kernel, client, line, command)?;
    clients.made(client, accepted);
    Ok(())
}
