//! The lines of a script, grouped into commands and `wait`s.
ghost use Rattle.std.specs.Prelude.{◌≡◌, ◌&&◌, false, OnOk, IfOk, MatchOption, IsSome, IsNone, ℕ};
ghost use Rattle.object_model.specs.declared.command.Command.TheVariants.{Change};
ghost use Rattle.script_text.specs.declared.grammar.Statement.TheVariants.{Begin, End, Says};
ghost use Rattle.script_text.specs.declared.line.What.TheVariants.{Command as Commands};
ghost use Rattle.script_text.specs.Grammar.{is_wait};
ghost use Rattle.script_text.specs.Blocks.{ends_in_wait, start, one_command_more, statement_counted, with_line, together, outside, inside, next};
ghost use Rattle.script_text.specs.Reading.{Becomes};

use crate::change::KeptChange;
use crate::grammar::Statement;
use crate::{Line, Said};
use std::alloc::{AllocError, Global};
use std::marker::Model;

/// The most commands of a script.
const COMMAND_LIMIT: u32 = 16384;

/// A block that isn't ended.
#[derive(Drop)]
pub struct Block {
    /// The line of its `begin`.
    line: u32,
    /// Its operations so far, where there is any.
    change: Option<KeptChange>,
}

/// What the lines of a script say so far.
#[derive(Drop)]
pub struct Parser {
    /// Of `wait`s one behind another only the first is here.
    lines: Vec<Line>,
    /// How many more commands may come.
    commands_left: u32,
    block: Option<Block>,
}

impl Model for Parser {
    ghost use Rattle.script_text.specs.Blocks.{Parse};

    ghost Value = { Parse };

    ghost view = { λ a. record { lines = a.lines.items; commands_left = a.commands_left; block = a.block } };
}

/// Whether the last of these lines is a `wait`.
fn is_waiting(lines: &[Line]) -> bool
    ensures { result ≡ ends_in_wait false lines.now }
{
    match lines.last() {
        Some(line) => line.what.is_wait(),
        None => false,
    }
}

/// Whether what is said behind these lines is a `wait` right behind another.
fn repeats_wait(lines: &[Line], what: &Said) -> bool
    ensures { result ≡ (ends_in_wait false lines.now && is_wait what.now) }
{
    is_waiting(lines) && what.is_wait()
}

/// The operations of a block so far with those of one line more; None where that is about another collection.
fn together(so_far: Option<KeptChange>, more: KeptChange) -> Result<Option<KeptChange>, AllocError>
    ensures { IfOk result (λ both. both ≡ together so_far more) }
{
    match so_far {
        None => Ok(Some(more)),
        Some(first) => first.with(more),
    }
}

impl Parser {
    /// Before the first line.
    pub fn new(alloc: Global) -> Parser
        ensures { result ≡ start }
    {
        Parser {
            lines: Vec::new(alloc),
            commands_left: COMMAND_LIMIT,
            block: None,
        }
    }

    /// Counts a command. False if it is one too many.
    fn count_command(&mut self) -> bool
        ensures { Becomes (one_command_more self.old) result self.new }
    {
        if self.commands_left == 0 {
            return false;
        }
        self.commands_left -= 1;
        true
    }

    /// Counts what is said outside of a block, unless it is a `wait`. False if it is a command too many.
    fn count(&mut self, what: &Said) -> bool
        ensures { Becomes (statement_counted what.now self.old) result self.new }
    {
        what.is_wait() || self.count_command()
    }

    /// Keeps a line, unless it is a `wait` right behind another.
    fn keep(&mut self, line: Line) -> Result<(), AllocError>
        ensures { OnOk result (self.new ≡ with_line line self.old) }
    {
        if repeats_wait(self.lines.as_slice(), &line.what) {
            drop(line);
            return Ok(());
        }
        self.lines.push(line).map_err(AllocError::from)
    }

    /// Takes a line outside of a block.
    fn take_outside(&mut self, line: u32, statement: Statement) -> Result<bool, AllocError>
        ensures { IfOk result (λ fits. Becomes (outside line self.old statement) fits self.new) }
    {
        match statement {
            Statement::PassedOver => Ok(true),
            Statement::Begin => Ok(self.begin(line)),
            Statement::End => Ok(false),
            Statement::Says(what) => self.say(Line { line, what }),
        }
    }

    /// Begins a block at this line.
    fn begin(&mut self, line: u32) -> bool
        ensures { Becomes (outside line self.old Begin) result self.new }
    {
        if !self.count_command() {
            return false;
        }
        drop(self.block.replace(Block { line, change: None }));
        true
    }

    /// Takes a line that is a command or a `wait` of its own.
    fn say(&mut self, line: Line) -> Result<bool, AllocError>
        ensures { IfOk result (λ fits. Becomes (outside line.line self.old (Says line.what)) fits self.new) }
    {
        if !self.count(&line.what) {
            drop(line);
            return Ok(false);
        }
        self.keep(line)?;
        Ok(true)
    }

    /// Takes a line of this block, which was taken out.
    fn take_inside(&mut self, block: Block, statement: Statement) -> Result<bool, AllocError>
        requires { self.old.block ≡ None }
        ensures { IfOk result (λ fits. Becomes (inside self.old block statement) fits self.new) }
    {
        match statement {
            Statement::PassedOver => {
                drop(self.block.replace(block));
                Ok(true)
            }
            Statement::Begin => {
                drop(block);
                Ok(false)
            }
            Statement::End => self.end(block),
            Statement::Says(said) => match said.into_change() {
                Some(change) => self.add(block, change),
                None => {
                    drop(block);
                    Ok(false)
                }
            },
        }
    }

    /// Ends this block, which was taken out.
    fn end(&mut self, block: Block) -> Result<bool, AllocError>
        requires { self.old.block ≡ None }
        ensures { IfOk result (λ fits. Becomes (inside self.old block End) fits self.new) }
    {
        let line = block.line;
        let Some(change) = block.change else {
            return Ok(false);
        };
        let what = Said::change(change);
        self.keep(Line { line, what })?;
        Ok(true)
    }

    /// Adds the operations of a line to this block, which was taken out.
    fn add(&mut self, block: Block, change: KeptChange) -> Result<bool, AllocError>
        ensures { IfOk result (λ fits. Becomes (inside self.old block (Says (Commands (Change change)))) fits self.new) }
    {
        let line = block.line;
        let Some(both) = together(block.change, change)? else {
            return Ok(false);
        };
        let change = Some(both);
        drop(self.block.replace(Block { line, change }));
        Ok(true)
    }

    /// Takes a line of the block that isn't ended. Blocks are rare: kept apart, their copies cost other lines nothing.
    #[inline(never)]
    fn take_in_block(&mut self, statement: Statement) -> Result<bool, AllocError>
        requires { IsSome self.old.block }
        ensures { IfOk result (λ fits. (n : ℕ) → Becomes (next n self.old statement) fits self.new) }
    {
        match self.block.take() {
            Some(block) => self.take_inside(block, statement),
            None => unreachable!(),
        }
    }

    /// Takes what the line of this number is. False if it can't stand there.
    pub fn take(&mut self, line: u32, statement: Statement) -> Result<bool, AllocError>
        ensures { IfOk result (λ fits. Becomes (next line self.old statement) fits self.new) }
    {
        if self.block.is_none() {
            return self.take_outside(line, statement);
        }
        self.take_in_block(statement)
    }

    /// The commands and `wait`s; None while a block isn't ended.
    pub fn finish(self) -> Option<Vec<Line>>
        ensures { MatchOption result (IsSome self.block) (λ lines. IsNone self.block × (lines.items ≡ self.lines)) }
    {
        if self.block.is_some() {
            drop(self);
            return None;
        }
        drop(self.block);
        Some(self.lines)
    }
}
