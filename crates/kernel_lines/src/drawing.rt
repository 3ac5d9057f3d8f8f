//! Calls of the kernel that are drawn from a seed.

use case_text::CaseError;
use plain_reader::{COLLS, NAMES};
use std::alloc::{AllocError, Global};

/// A linear congruential generator modulo 2^64.
#[derive(Clone, Copy)]
pub struct Draws {
    x: u64,
}

impl Draws {
    /// What is drawn from this seed.
    pub fn of(seed: u64) -> Draws {
        Draws { x: seed }
    }

    /// A number below this one, or 0.
    pub fn below(&mut self, count: u64) -> u64 {
        self.x = self
            .x
            .wrapping_mul(6364136223846793005)
            .wrapping_add(1442695040888963407);
        if count == 0 {
            0
        } else {
            (self.x >> 33) % count
        }
    }

    /// One of these words.
    pub fn word<'a>(&mut self, words: &[&'a str]) -> &'a str {
        let at = self.below(words.len() as u64);
        match words.get(at as usize) {
            Some(word) => word,
            None => "",
        }
    }

    /// How many reaps submissions wait: most wait for few, some for up to 63.
    pub fn lags(&mut self, alloc: Global) -> Result<Vec<u8>, CaseError> {
        let mut lags = Vec::new(alloc);
        for _ in 0..self.below(12) {
            let most = if self.below(4) == 0 { 64 } else { 6 };
            lags.push((self.below(most) % 64) as u8)?;
        }
        Ok(lags)
    }

    /// The place of a byte at the begin or at the end of one of the first three pages.
    fn place(&mut self) -> u64 {
        let page = self.below(3).wrapping_mul(4096);
        let end = self.below(2).wrapping_mul(4094);
        page.wrapping_add(end).wrapping_add(self.below(2))
    }

    /// An operation on some bytes of an object, or on all of it: it may change pages in part.
    fn edit(&mut self, alloc: Global, name: &str, byte: u64) -> Result<String, AllocError> {
        let off = self.place();
        match self.below(4) {
            0 => format!(in alloc; "remove {name}"),
            1 => format!(in alloc; "truncate {name} {off}"),
            2 => {
                let len = self.below(9000);
                format!(in alloc; "zero {name} {off} {len}")
            }
            _ => format!(in alloc; "write {name} {off} fill:3:{byte:02x}"),
        }
    }

    /// An operation on the values of an object.
    fn values(&mut self, alloc: Global, name: &str, byte: u64) -> Result<String, AllocError> {
        let key = self.word(&["k", "l", "m"]);
        let other = self.word(&["k", "l", "m"]);
        match self.below(8) {
            0 => format!(in alloc; "setattr {name} {key} {byte:02x}"),
            1 => format!(in alloc; "rmattr {name} {key}"),
            2 => format!(in alloc; "rmattrs {name}"),
            3 => format!(in alloc; "omaprm {name} {key}"),
            4 => format!(in alloc; "omaprmrange {name} {key} {other}"),
            5 => format!(in alloc; "omapclear {name}"),
            6 => format!(in alloc; "omapheader {name} {byte:02x}"),
            _ => format!(in alloc; "omapset {name} {key} {byte:02x} {other} -"),
        }
    }

    /// An operation on an object: a write of one to three pages, or an edit of bytes or of values.
    fn on_object(&mut self, alloc: Global, name: &str) -> Result<String, AllocError> {
        let byte = self.below(256);
        match self.below(10) {
            0 => format!(in alloc; "touch {name}"),
            1 | 2 | 3 => self.edit(alloc, name, byte),
            4 | 5 | 6 => self.values(alloc, name, byte),
            _ => {
                let off = self.below(3).wrapping_mul(4096);
                let len = self.below(3).wrapping_add(1).wrapping_mul(4096);
                format!(in alloc; "write {name} {off} fill:{len}:{byte:02x}")
            }
        }
    }

    /// Two to six operations on two objects, so that one meets what those before it made. At times the collection goes and comes again.
    fn several(&mut self, alloc: Global, name: &str) -> Result<String, AllocError> {
        let other = self.word(&NAMES);
        let mut ops = format!(in alloc; "touch {name}")?;
        for _ in 0..self.below(5).wrapping_add(1) {
            let on = if self.below(3) < 2 { name } else { other };
            let op = self.on_object(alloc, on)?;
            ops = format!(in alloc; "{ops}; {op}")?;
        }
        match self.below(12) {
            0 => format!(in alloc; "{ops}; remove {name}; rmcoll; mkcoll; touch {other}"),
            1 => format!(in alloc; "{ops}; setattr {other} k 01"),
            _ => Ok(ops),
        }
    }

    /// The words of a transaction on a collection: on an object, or on the collection itself.
    pub fn transaction(&mut self, alloc: Global) -> Result<String, AllocError> {
        let coll = self.word(&COLLS);
        let name = self.word(&NAMES);
        let ops = match self.below(12) {
            0 => String::from_str(alloc, "mkcoll")?,
            1 => String::from_str(alloc, "rmcoll")?,
            2 | 3 | 4 => self.several(alloc, name)?,
            _ => self.on_object(alloc, name)?,
        };
        format!(in alloc; "{coll} {ops}")
    }
}
