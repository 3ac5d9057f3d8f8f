//! A script that comes in pieces.
ghost use Rattle.std.specs.Prelude.{◌≡◌, ◌+◌, ◌<◌, ◌≤◌, ◌++◌, ◌∷◌, [], ℕ, List, length, OnOk, IfOk, IfErr, IsErrOf};
ghost use Rattle.script_text.specs.Grammar.{HasNo};
ghost use Rattle.script_text.specs.Script.{script_limit, IsScript, IsBadAt};
ghost use Rattle.script_text.specs.Blocks.{Says};
ghost use Rattle.script_text.specs.Reading.{Finds, Ends, TakesPiece, IsAfter, IsAtEnd, IfLine};

use crate::fail::WordFail;
use crate::grammar::{Statement, read_statement};
use crate::parser::Parser;
use crate::split::split_once;
use crate::{Line, ScriptFail};
use std::alloc::{AllocError, Global};

/// The most bytes of a line.
const LINE_LIMIT: usize = 4194304;

/// What was read of a script so far. Once a line is bad, nothing more is kept.
#[derive(Drop)]
pub struct Reader {
    /// What the ended lines say.
    parser: Parser,
    /// The number of ended lines.
    count: u32,
    /// The line that isn't ended.
    text: Vec<u8>,
    /// The number of the first bad line.
    bad: Option<u32>,
}

impl Reader {
    /// Nothing was read.
    pub fn new(alloc: Global) -> Reader
        ensures after { IsAfter [] result }
        ensures count { result.count ≡ 0 }
    {
        Reader {
            parser: Parser::new(alloc),
            count: 0,
            text: Vec::new(alloc),
            bad: None,
        }
    }

    /// Takes what the next line was found to be.
    fn take_reading(&mut self, found: Result<Statement, WordFail>) -> Result<(), AllocError>
        requires { self.old.count ≤ script_limit }
        ensures count { OnOk result (self.new.count ≡ self.old.count) }
        ensures ends { OnOk result (Ends (λ text. Finds (Says text) found) self.old self.new) }
    {
        let line = self.count + 1;
        let fits = match found {
            Ok(statement) => self.parser.take(line, statement)?,
            Err(WordFail::NotSpelled) => false,
            Err(WordFail::Memory) => return Err(AllocError),
        };
        if !fits {
            self.bad = Some(line);
        }
        Ok(())
    }

    /// Ends the line.
    fn end_line(&mut self, alloc: Global) -> Result<(), AllocError>
        requires { self.old.count ≤ script_limit }
        ensures count { OnOk result (self.new.count ≡ self.old.count + 1) }
        ensures text { OnOk result (self.new.text.items ≡ []) }
        ensures ends { OnOk result (Ends (λ text. text ≡ self.old.text.items) self.old self.new) }
    {
        let found = read_statement(alloc, self.text.as_slice());
        self.take_reading(found)?;
        self.count += 1;
        self.text.clear();
        Ok(())
    }

    /// Takes a line feed.
    fn take_feed(&mut self, alloc: Global) -> Result<(), AllocError>
        requires { self.old.count ≤ script_limit }
        ensures count { OnOk result (self.new.count ≤ self.old.count + 1) }
        ensures takes { OnOk result (TakesPiece (10 ∷ []) self.old self.new) }
    {
        if self.bad.is_some() {
            return Ok(());
        }
        self.end_line(alloc)
    }

    /// Takes bytes without a line feed.
    fn take_bytes(&mut self, bytes: &[u8]) -> Result<(), AllocError>
        requires count { self.old.count ≤ script_limit }
        requires line { HasNo 10 bytes.now }
        ensures count { OnOk result (self.new.count ≡ self.old.count) }
        ensures takes { OnOk result (TakesPiece bytes.now self.old self.new) }
    {
        if self.bad.is_some() {
            return Ok(());
        }
        if LINE_LIMIT < self.text.len() + bytes.len() {
            self.bad = Some(self.count + 1);
            self.text.clear();
            return Ok(());
        }
        self.text.extend_from_slice(bytes)
    }

    /// Takes the next piece of the script.
    pub fn take(&mut self, alloc: Global, piece: &[u8]) -> Result<(), AllocError>
        requires { self.old.count + length piece.now ≤ script_limit }
        ensures count { OnOk result (self.new.count ≤ self.old.count + length piece.now) }
        ensures takes { OnOk result (TakesPiece piece.now self.old self.new) }
    {
        if self.bad.is_some() {
            return Ok(());
        }
        let mut rest = piece;
        'lines: while let Some((front, behind)) = split_once(rest, b'\n') {
            self.take_bytes(front)?;
            self.take_feed(alloc)?;
            rest = behind;
        }
        self.take_bytes(rest)
    }

    /// Refuses the line that isn't ended, since a byte of it is past the limit.
    pub fn refuse(&mut self)
        requires { self.old.count ≤ script_limit }
        ensures count { self.new.count ≡ self.old.count }
        ensures after { (bytes piece : List ℕ) → length bytes ≡ script_limit → 0 < length piece → IsAfter bytes self.old
            → IsAfter (bytes ++ piece) self.new }
    {
        if self.bad.is_none() {
            self.bad = Some(self.count + 1);
        }
    }

    /// Ends the last line, where it isn't ended.
    fn end_last(&mut self, alloc: Global) -> Result<(), AllocError>
        requires { self.old.count ≤ script_limit }
        ensures count { OnOk result (self.new.count ≤ self.old.count + 1) }
        ensures end { OnOk result ((bytes : List ℕ) → IsAfter bytes self.old → IsAtEnd bytes self.new) }
    {
        if self.bad.is_some() || self.text.is_empty() {
            return Ok(());
        }
        self.end_line(alloc)
    }

    /// The commands and `wait`s of the whole script, or its first bad line.
    pub fn finish(mut self, alloc: Global) -> Result<Vec<Line>, ScriptFail>
        requires { self.count ≤ script_limit }
        ensures ok { IfOk result (λ lines. (bytes : List ℕ) → IsAfter bytes self → IsScript bytes lines.items) }
        ensures bad { IfErr result (λ e. IfLine e (λ n. (bytes : List ℕ) → IsAfter bytes self → IsBadAt bytes n)) }
        ensures read { ¬ (IsErrOf result ScriptFail.ReadFault) }
    {
        match self.end_last(alloc) {
            Ok(()) => self.said(),
            Err(e) => {
                drop(self);
                Err(ScriptFail::from(e))
            }
        }
    }

    /// The commands and `wait`s, or the first bad line, once the last line is ended.
    fn said(self) -> Result<Vec<Line>, ScriptFail>
        requires { self.count ≤ script_limit + 1 }
        ensures ok { IfOk result (λ lines. (bytes : List ℕ) → IsAtEnd bytes self → IsScript bytes lines.items) }
        ensures bad { IfErr result (λ e. IfLine e (λ n. (bytes : List ℕ) → IsAtEnd bytes self → IsBadAt bytes n)) }
        ensures read { ¬ (IsErrOf result ScriptFail.ReadFault) }
    {
        if let Some(n) = self.bad {
            drop(self);
            return Err(ScriptFail::Line { n });
        }
        let n = self.count + 1;
        drop(self.text);
        match self.parser.finish() {
            Some(lines) => Ok(lines),
            None => Err(ScriptFail::Line { n }),
        }
    }
}
