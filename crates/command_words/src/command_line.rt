//! Command lines: which words are one, and what they say.
ghost use Rattle.std.specs.Prelude.{◌≡◌, ◌≤◌, ◌<◌, ◌^◌, ℕ, List, Some, None, map, MatchOption, MatchResult, codes};
ghost use Rattle.clap.specs.Words.{found_of, rows_of, subcommand_of, subcommand_rows_of};
ghost use Rattle.command_words.specs.Table.{table};
ghost use Rattle.command_words.specs.CommandLine.{words_of, IsFileName, AreFileNames, IsInRange, HasText, HasTexts, HasNumber, SaysCommandLine, Spells, TableTakes, IsWhyNot, IsWhyFor, IsNotSaid, IsSaid, IsNotFound, IsLineFound};

use crate::file_names::{FileName, FileNames, read_file_name, read_file_names};
use crate::no_line::NoLine;
use crate::table;
use clap::ArgMatches;
use clap::error::ErrorKind;
use std::alloc::Global;
use unit_fields::limits::{LEAST_HALF, MOST_HALF, MOST_PREFER, MOST_UNITS};

/// A command line.
#[derive(Drop)]
pub enum CommandLine<'a> {
    /// `mkfs DEV --half H --units N [--prefer P]`: makes an empty store on a device of N units, with log halves of H units. P is kept in the
    /// superblock slot: from so many bytes on a write over mapped pages isn't to be deferred. No write is deferred so far.
    Mkfs {
        dev: FileName<'a>,
        half: u32,
        units: u32,
        prefer: u32,
    },
    /// `step DEV --seed S SCRIPT..`: mounts the store on a device and runs 1 to 64 scripts on it, one a client, in one thread.
    /// Which client or which step comes next is drawn from S.
    Step {
        dev: FileName<'a>,
        seed: u32,
        scripts: FileNames<'a>,
    },
    /// `dump DEV`: mounts the store on a device and prints every collection and every object, with its size and its checksum.
    Dump {
        dev: FileName<'a>,
    },
    /// `fsck DEV`: looks through the store on a device, and prints what is wrong with it.
    Fsck {
        dev: FileName<'a>,
    },
}

/// The text of an argument, lent.
fn text_of<'a>(found: &ArgMatches<'a>, id: &str) -> Option<&'a str>
    ensures { MatchOption result ((text : List ℕ) → ¬ HasText id.now (rows_of (found_of found.now)) text)
        (λ text. HasText id.now (rows_of (found_of found.now)) text.now) }
{
    found.get_str(id)
}

/// Its texts, where it may have several.
fn texts_of<'m, 'a>(found: &'m ArgMatches<'a>, id: &str) -> Option<&'m [&'a str]>
    ensures { MatchOption result ((texts : List (List ℕ)) → ¬ HasTexts id.now (rows_of (found_of found.now)) texts)
        (λ texts. HasTexts id.now (rows_of (found_of found.now)) (map (λ s. s.now) texts.now)) }
{
    found.get_strs(id)
}

/// Its number.
fn any_number_of(found: &ArgMatches<'_>, id: &str) -> Option<u32>
    ensures { MatchOption result ((n : ℕ) → n < 2 ^ 32 → ¬ HasNumber id.now (rows_of (found_of found.now)) n)
        (HasNumber id.now (rows_of (found_of found.now))) }
{
    found.get_one::<u32>(id)
}

/// Its number, in this range.
fn number_of(found: &ArgMatches<'_>, id: &str, least: u32, most: u32) -> Option<u32>
    ensures { MatchOption result ((n : ℕ) → least ≤ n → n ≤ most → ¬ HasNumber id.now (rows_of (found_of found.now)) n)
        (λ n. HasNumber id.now (rows_of (found_of found.now)) n × (least ≤ n) × (n ≤ most)) }
{
    let n = any_number_of(found, id)?;
    if n < least || most < n {
        return None;
    }
    Some(n)
}

/// The name of a device.
fn device_of<'a>(found: &ArgMatches<'a>) -> Option<FileName<'a>>
    ensures { MatchOption result ((name : List ℕ) → IsFileName name → ¬ HasText (codes "DEV") (rows_of (found_of found.now)) name)
        (λ name. HasText (codes "DEV") (rows_of (found_of found.now)) name × IsFileName name) }
{
    let text = text_of(found, "DEV")?;
    read_file_name(text)
}

/// The names of scripts.
fn scripts_of<'a>(found: &ArgMatches<'a>) -> Option<FileNames<'a>>
    ensures { MatchOption result ((names : List (List ℕ)) → AreFileNames names → ¬ HasTexts (codes "SCRIPT") (rows_of (found_of found.now)) names)
        (λ names. HasTexts (codes "SCRIPT") (rows_of (found_of found.now)) names × AreFileNames names) }
{
    let texts = texts_of(found, "SCRIPT")?;
    read_file_names(texts)
}

/// What `mkfs` was called with.
fn read_mkfs<'a>(found: &ArgMatches<'a>) -> Option<CommandLine<'a>>
    ensures { MatchOption result (IsNotSaid (codes "mkfs") (rows_of (found_of found.now))) (IsSaid (codes "mkfs") (rows_of (found_of found.now))) }
{
    let dev = device_of(found)?;
    let half = number_of(found, "half", LEAST_HALF, MOST_HALF)?;
    let units = number_of(found, "units", 1, MOST_UNITS)?;
    let prefer = number_of(found, "prefer", 0, MOST_PREFER)?;
    Some(CommandLine::Mkfs {
        dev,
        half,
        units,
        prefer,
    })
}

/// What `step` was called with.
fn read_step<'a>(found: &ArgMatches<'a>) -> Option<CommandLine<'a>>
    ensures { MatchOption result (IsNotSaid (codes "step") (rows_of (found_of found.now))) (IsSaid (codes "step") (rows_of (found_of found.now))) }
{
    let dev = device_of(found)?;
    let seed = number_of(found, "seed", 0, u32::MAX)?;
    let scripts = scripts_of(found)?;
    Some(CommandLine::Step { dev, seed, scripts })
}

/// What `dump` was called with.
fn read_dump<'a>(found: &ArgMatches<'a>) -> Option<CommandLine<'a>>
    ensures { MatchOption result (IsNotSaid (codes "dump") (rows_of (found_of found.now))) (IsSaid (codes "dump") (rows_of (found_of found.now))) }
{
    let dev = device_of(found)?;
    Some(CommandLine::Dump { dev })
}

/// What `fsck` was called with.
fn read_fsck<'a>(found: &ArgMatches<'a>) -> Option<CommandLine<'a>>
    ensures { MatchOption result (IsNotSaid (codes "fsck") (rows_of (found_of found.now))) (IsSaid (codes "fsck") (rows_of (found_of found.now))) }
{
    let dev = device_of(found)?;
    Some(CommandLine::Fsck { dev })
}

/// What the command of this name was called with.
fn read_command<'a>(name: &str, found: &ArgMatches<'a>) -> Option<CommandLine<'a>>
    ensures { MatchOption result (IsNotSaid name.now (rows_of (found_of found.now))) (IsSaid name.now (rows_of (found_of found.now))) }
{
    if name == "mkfs" {
        return read_mkfs(found);
    }
    if name == "step" {
        return read_step(found);
    }
    if name == "dump" {
        return read_dump(found);
    }
    if name == "fsck" {
        return read_fsck(found);
    }
    None
}

/// The name of the command that was found, with what was found of it.
fn entered<'m, 'a>(matches: &'m ArgMatches<'a>) -> Option<(&'a str, &'m ArgMatches<'a>)>
    ensures { MatchOption result (subcommand_rows_of matches.now ≡ None)
        (λ p. subcommand_rows_of matches.now ≡ Some (p.0.now, rows_of (found_of p.1.now))) }
{
    matches.subcommand()
}

/// The command line that was found.
fn line_of<'a>(matches: &ArgMatches<'a>) -> Option<CommandLine<'a>>
    ensures { MatchOption result (IsNotFound (subcommand_rows_of matches.now)) (IsLineFound (subcommand_rows_of matches.now)) }
{
    let (name, found) = entered(matches)?;
    read_command(name, found)
}

/// Why words are no command line.
fn why_not(alloc: Global, error: clap::Error) -> NoLine
    ensures { IsWhyFor error result }
{
    if error.kind() == ErrorKind::OutOfMemory {
        return NoLine::Memory;
    }
    match error.to_string(alloc) {
        Ok(text) => NoLine::Told { text },
        Err(_) => NoLine::Memory,
    }
}

/// What `clap` finds in the words.
fn matches_of<'a>(alloc: Global, words: &'a Vec<String>) -> Result<ArgMatches<'a>, NoLine>
    ensures { MatchResult result (λ m. TableTakes (words_of words.now) × (subcommand_rows_of m ≡ subcommand_of table (words_of words.now)))
        (IsWhyNot (words_of words.now)) }
{
    let command = table::commands(alloc)?;
    match command.try_get_matches_from(words.as_slice()) {
        Ok(matches) => Ok(matches),
        Err(error) => Err(why_not(alloc, error)),
    }
}

/// The command line that the words spell, of which the first is the program's name, or why they spell none. What the table takes is one. A name
/// that stands behind `--` may begin with a dash; an option may stand anywhere behind its command.
pub fn read_words<'a>(alloc: Global, words: &'a Vec<String>) -> Result<CommandLine<'a>, NoLine>
    ensures { MatchResult result (Spells (words_of words.now)) (IsWhyNot (words_of words.now)) }
{
    let matches = matches_of(alloc, words)?;
    match line_of(&matches) {
        Some(line) => Ok(line),
        None => unreachable!(),
    }
}
