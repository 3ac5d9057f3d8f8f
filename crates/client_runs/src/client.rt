//! A client of a run: what is left of its script, and how many of its transactions are under way.
ghost use Rattle.std.specs.Prelude.{◌≡◌, ◌<◌, length, is_some, true, false};
ghost use Rattle.std.specs.Vec.Iter.{into_iter_items, into_iter_len};
ghost use Rattle.client_runs.specs.Choice.{asks_from};
ghost use Rattle.client_runs.specs.Clients.{asks_left, IsAtCommand, IsClient, IsNewClient, is_able, TakesLine, one_more, one_less};

use script_text::Line;
use std::{mem, vec};

/// A client of a run.
#[derive(Drop)]
pub struct Client {
    /// The line of its next command.
    next: Option<Line>,
    /// Whether a `wait` stands before that.
    waits: bool,
    /// The lines behind it.
    rest: vec::IntoIter<Line>,
    /// How many of its accepted transactions aren't acknowledged.
    unacked: u32,
}

/// Goes on to the next line with a command, which is given, and says whether a `wait` stood before it.
fn next_command(rest: &mut vec::IntoIter<Line>) -> (Option<Line>, bool)
    requires size { length (into_iter_items rest.old) ≡ into_iter_len rest.old }
    ensures left { asks_left result.0 result.1 (into_iter_items rest.new) ≡ asks_from false (into_iter_items rest.old) }
    ensures at_command { IsAtCommand result.0 }
    ensures size { length (into_iter_items rest.new) ≡ into_iter_len rest.new }
{
    let mut waits = false;
    'lines: while let Some(line) = rest.next() {
        if !line.what.is_wait() {
            return (Some(line), waits);
        }
        waits = true;
    }
    (None, waits)
}

impl Client {
    /// A client with this script, before its first command.
    pub fn new(script: Vec<Line>) -> Client
        ensures { IsNewClient script.items result }
    {
        let mut rest = script.into_iter();
        let (next, waits) = next_command(&mut rest);
        Client {
            next,
            waits,
            rest,
            unacked: 0,
        }
    }

    /// Whether it can go on: it has a command left, and a `wait` before it is over.
    pub fn is_able(&self) -> bool
        ensures { result ≡ is_able self.now }
    {
        self.next.is_some() && (!self.waits || self.unacked == 0)
    }

    /// The line of its next command, behind which it goes on.
    pub fn take(&mut self) -> Line
        requires well { IsClient self.old }
        requires some { is_some self.old.next ≡ true }
        ensures { TakesLine self.old result self.new }
    {
        let (next, waits) = next_command(&mut self.rest);
        self.waits = waits;
        let Some(line) = mem::replace(&mut self.next, next) else {
            unreachable!();
        };
        line
    }

    /// One more of its transactions is accepted.
    pub fn count_accepted(&mut self)
        requires { self.old.unacked < 4294967295 }
        ensures { self.new ≡ one_more self.old }
    {
        self.unacked += 1;
    }

    /// One of its transactions is acknowledged.
    pub fn count_acknowledged(&mut self)
        requires { 0 < self.old.unacked }
        ensures { self.new ≡ one_less self.old }
    {
        self.unacked -= 1;
    }
}
