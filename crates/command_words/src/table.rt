//! The table of commands, made for `clap`.
ghost use Rattle.std.specs.Prelude.{◌≡◌, IfOk, codes};
ghost use Rattle.clap.specs.Words.{app_of};
ghost use Rattle.command_words.specs.Table.{IsArg, IsCommand, name_rule, number_rule, prefer_rule, scripts_rule, mkfs, step, dump, fsck, table};

use clap::builder::ValueParser;
use clap::{Arg, Command};
use std::alloc::{AllocError, Global};
use unit_fields::limits::{LEAST_HALF, MOST_HALF, MOST_PREFER, MOST_UNITS};

/// The name of a device.
fn device<'a>(alloc: Global) -> Arg<'a>
    ensures { IsArg (name_rule (codes "DEV")) result }
{
    Arg::new(alloc, "DEV")
        .required(true)
        .value_parser(ValueParser::NonEmptyString)
        .help("The device: a file, or a block device of the system")
}

/// The names of scripts, one a client.
fn scripts<'a>(alloc: Global) -> Arg<'a>
    ensures { IsArg scripts_rule result }
{
    Arg::new(alloc, "SCRIPT")
        .required(true)
        .num_args(1..=64)
        .value_parser(ValueParser::NonEmptyString)
        .help("A client's script; 1 to 64 of them")
}

/// A number, from the least to the most one.
fn number<'a>(alloc: Global, name: &'a str, least: u32, most: u32) -> Arg<'a>
    ensures { IsArg (number_rule name.entry.now least most) result }
{
    Arg::new(alloc, name)
        .long(name)
        .required(true)
        .value_parser(ValueParser::Signed(i64::from(least), i64::from(most)))
}

/// From how many bytes on a write isn't to be deferred.
fn prefer<'a>(alloc: Global) -> Arg<'a>
    ensures { IsArg prefer_rule result }
{
    number(alloc, "prefer", 0, MOST_PREFER)
        .required(false)
        .default_value("32768")
        .help("From how many bytes on a write over whole pages isn't to be deferred")
}

/// `mkfs DEV --half H --units N [--prefer P]`.
fn mkfs<'a>(alloc: Global) -> Result<Command<'a>, AllocError>
    ensures { IfOk result (IsCommand mkfs) }
{
    Command::new(alloc, "mkfs")
        .about("Makes an empty store")
        .arg(device(alloc))?
        .arg(number(alloc, "half", LEAST_HALF, MOST_HALF))?
        .arg(number(alloc, "units", 1, MOST_UNITS))?
        .arg(prefer(alloc))
}

/// `step DEV --seed S SCRIPT..`.
fn step<'a>(alloc: Global) -> Result<Command<'a>, AllocError>
    ensures { IfOk result (IsCommand step) }
{
    Command::new(alloc, "step")
        .about("Runs scripts on a store in one thread, in an order drawn from a seed")
        .arg(device(alloc))?
        .arg(number(alloc, "seed", 0, u32::MAX))?
        .arg(scripts(alloc))
}

/// `dump DEV`.
fn dump<'a>(alloc: Global) -> Result<Command<'a>, AllocError>
    ensures { IfOk result (IsCommand dump) }
{
    Command::new(alloc, "dump")
        .about("Prints every object of a store")
        .arg(device(alloc))
}

/// `fsck DEV`.
fn fsck<'a>(alloc: Global) -> Result<Command<'a>, AllocError>
    ensures { IfOk result (IsCommand fsck) }
{
    Command::new(alloc, "fsck")
        .about("Looks through a store, and prints what is wrong with it")
        .arg(device(alloc))
}

/// The program's command, with the commands of the table under it.
pub(crate) fn commands<'a>(alloc: Global) -> Result<Command<'a>, AllocError>
    ensures { IfOk result (λ c. app_of c ≡ table) }
{
    Command::new(alloc, "bstore")
        .subcommand_required(true)
        .arg_required_else_help(true)
        .subcommand(mkfs(alloc)?)?
        .subcommand(step(alloc)?)?
        .subcommand(dump(alloc)?)?
        .subcommand(fsck(alloc)?)
}
