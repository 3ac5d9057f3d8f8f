//! The clients of a run, and which of them can go on.
//!
//! The clients of a run keep, for each client, the lines that are left, whether a `wait` stands before the next, and how many of its
//! transactions are under way; and the ascending numbers of those that can go on. A number joins or leaves these where its client was
//! asked or one of its transactions was acknowledged, and no other client is looked at then. So a draw costs the same with one client and
//! with 64, and no call goes over the book. Whose transaction `Finish` acknowledges is looked up: the next commit has its place in the
//! book, and the entry there its client.
ghost use Rattle.std.specs.Prelude.{◌≡◌, ◌<◌, ◌≤◌, length, map, true, false, IfOk, if◌then◌else◌};
ghost use Rattle.client_runs.specs.Clients.{is_able, able_of, below, able_after, changed, IsOfOne, AreClients, AreNewClients, TakesOf, one_more, one_less};

use crate::client::Client;
use arrayvec::ArrayVec;
use script_text::Line;
use std::alloc::{AllocError, Global};
use unit_fields::limits::CLIENT_LIMIT;

/// The most clients of a run.
const CLIENTS: usize = CLIENT_LIMIT as usize;

/// The numbers of clients.
pub type Numbers = ArrayVec<u32, CLIENTS>;

/// The clients of a run, by their numbers, and the numbers of those that can go on.
#[derive(Drop)]
pub struct Clients {
    all: Vec<Client>,
    able: Numbers,
}

/// The numbers of those that can go on.
fn able_now(all: &[Client]) -> Numbers
    requires { length all.now ≤ 64 }
    ensures { result.items ≡ able_of 0 all.now }
{
    let mut able = Numbers::new();
    for (number, client) in all.iter().enumerate() {
        if client.is_able() {
            able.push(number as u32);
        }
    }
    able
}

/// How many of ascending numbers are below a client's: the position at which its own belongs.
fn rank_in(able: &[u32], client: u32) -> usize
    ensures { result ≡ below client able.now }
{
    for (at, number) in able.iter().enumerate() {
        if client <= *number {
            return at;
        }
    }
    able.len()
}

/// A client could go on or not, and now it can or not: its number joins those of the others that can, or leaves them.
fn note_able(able: &mut Numbers, client: u32, was: bool, is: bool)
    requires there { was ≡ true → is ≡ false → below client able.old.items < length able.old.items }
    requires room { was ≡ false → is ≡ true → length able.old.items < 64 }
    ensures { able.new.items ≡ able_after client was is able.old.items }
{
    match (was, is) {
        (true, false) => {
            let at = rank_in(able.as_slice(), client);
            able.remove(at);
        }
        (false, true) => {
            let at = rank_in(able.as_slice(), client);
            able.insert(at, client);
        }
        (true, true) | (false, false) => {}
    }
}

impl Clients {
    /// A client for each script.
    pub fn new(alloc: Global, scripts: Vec<Vec<Line>>) -> Result<Clients, AllocError>
        requires { length scripts.items ≤ 64 }
        ensures { IfOk result (AreNewClients (map (λ s. s.items) scripts.items)) }
    {
        let mut all = Vec::with_capacity(alloc, scripts.len())?;
        let mut scripts = scripts.into_iter();
        'scripts: while let Some(script) = scripts.next() {
            all.push(Client::new(script))?;
        }
        let able = able_now(&all);
        Ok(Clients { all, able })
    }

    /// The numbers of those that can go on.
    pub fn able(&self) -> &[u32]
        ensures { result.now ≡ self.now.able.items }
    {
        self.able.as_slice()
    }

    /// The line of the next command of a client that can go on, which has it behind it from then on.
    pub fn take(&mut self, client: u32) -> Line
        requires clients { AreClients self.old }
        requires can { IsOfOne (λ c. is_able c ≡ true) client self.old.all.items }
        ensures taken { TakesOf client self.old.all.items result self.new.all.items }
        ensures able { self.new.able.items ≡ able_of 0 self.new.all.items }
    {
        let it = &mut self.all[client as usize];
        let line = it.take();
        let is = it.is_able();
        note_able(&mut self.able, client, true, is);
        line
    }

    /// Counts a transaction of a client where it was accepted.
    pub fn made(&mut self, client: u32, accepted: bool)
        requires clients { AreClients self.old }
        requires room { IsOfOne (λ c. c.unacked < 4294967295) client self.old.all.items }
        ensures counted { self.new.all.items ≡ (if accepted then changed client one_more self.old.all.items else self.old.all.items) }
        ensures able { self.new.able.items ≡ able_of 0 self.new.all.items }
    {
        if accepted {
            let it = &mut self.all[client as usize];
            let was = it.is_able();
            it.count_accepted();
            let is = it.is_able();
            note_able(&mut self.able, client, was, is);
        }
    }

    /// A transaction of a client is acknowledged.
    pub fn acknowledged(&mut self, client: u32)
        requires clients { AreClients self.old }
        requires some { IsOfOne (λ c. 0 < c.unacked) client self.old.all.items }
        ensures counted { self.new.all.items ≡ changed client one_less self.old.all.items }
        ensures able { self.new.able.items ≡ able_of 0 self.new.all.items }
    {
        let it = &mut self.all[client as usize];
        let was = it.is_able();
        it.count_acknowledged();
        let is = it.is_able();
        note_able(&mut self.able, client, was, is);
    }
}
