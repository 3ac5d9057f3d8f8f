//! Lists of calls that are drawn, and the images of what they leave.
ghost use Rattle.std.specs.Prelude.{◌≡◌, [], IfOk};
ghost use Rattle.block_device.specs.Prelude.{disk_of};

use crate::asking::{answered, question};
use crate::devices::opened;
use crate::drawing::Draws;
use crate::lines::KernelLines;
use crate::mounted::Mounted;
use crate::stepping::{settle_in_order, step_if_ready};
use block_device::MemoryDevice;
use case_text::{CaseError, Setup, Text, Words};
use crc32c_csum::crc32c;
use object_model::{Answer, Book};
use plain_reader::{COLLS, Counts, Left, NAMES, Told, apply, coll_of, name_of, objects_behind};
use plain_store::Plain;
use std::alloc::Global;
use store_kernel::Refused;
use store_steps::{ALL_STEPS, Step};
use unit_fields::{CollName, Name};

/// How many calls a list has, and the most lists of a line.
const CALLS: u32 = 48;

const MOST_LISTS: u64 = 1_000_000;

/// What was met in the lists of a line.
#[derive(Clone, Copy)]
struct Met {
    overtaken: bool,
    several: bool,
    down: bool,
    no_space: bool,
    meta_full: bool,
    switched: bool,
    right: u64,
    wrong: u64,
}

impl Met {
    fn nothing() -> Met {
        Met {
            overtaken: false,
            several: false,
            down: false,
            no_space: false,
            meta_full: false,
            switched: false,
            right: 0,
            wrong: 0,
        }
    }

    fn note_accepted(&mut self, told: Option<&Told>) {
        if let Some(told) = told {
            self.several = self.several || 1 < told.change.ops().len();
        }
    }

    fn note_refused(&mut self, why: &Refused) {
        match why {
            Refused::NoSpace { need: _, free: _ } => self.no_space = true,
            Refused::MetaFull { need: _, room: _ } => self.meta_full = true,
            Refused::Down { ticket: _, back: _ } => self.down = true,
            _ => {}
        }
    }

    fn note_step(&mut self, step: Step) {
        self.switched = self.switched || step == Step::Switch;
    }

    fn note_answer(&mut self, is_right: bool) {
        if is_right {
            self.right = self.right.wrapping_add(1);
        } else {
            self.wrong = self.wrong.wrapping_add(1);
        }
    }

    fn print(&self, out: &mut Text) {
        out.print("met");
        for (is_met, what) in [
            (self.overtaken, "overtaking"),
            (self.several, "several operations"),
            (self.down, "Down"),
            (self.no_space, "NoSpace"),
            (self.meta_full, "MetaFull"),
            (self.switched, "switches"),
            (self.right != 0, "reads"),
        ] {
            if is_met {
                out.print(format_args!(" {what}"));
            }
        }
        out.println(format_args!(", {} wrong reads", self.wrong));
    }
}

/// Whether a transaction was committed before one that was submitted earlier.
fn is_overtaken(book: &Book) -> bool {
    let mut last = 0;
    for commit in book.commits.as_slice() {
        if commit.place < last {
            return true;
        }
        last = commit.place;
    }
    false
}

/// Whether this is the answer that plain objects give for the checksum of an object.
fn is_right(plain: &Plain, coll: &CollName, name: &Name, answer: &Answer) -> bool {
    match (plain.object(coll, name), answer) {
        (Ok(object), Answer::Sum { size, crc }) => {
            object.bytes.len() as u64 == *size && crc32c(object.bytes.as_slice()) == *crc
        }
        (Err(refusal), Answer::Refused(other)) => refusal == *other,
        _ => false,
    }
}

/// A store that is mounted for a list of calls, and the objects after all transactions that it accepted.
#[derive(Drop)]
struct List {
    alloc: Global,
    draws: Draws,
    mounted: Mounted,
    accepted: Plain,
    met: Met,
}

impl List {
    fn submit(&mut self) -> Result<(), CaseError> {
        let line = self.draws.transaction(self.alloc)?;
        match self.mounted.submit_words(Words::new(line.as_str()))? {
            Ok(_) => {
                let told = self.mounted.told.last();
                self.met.note_accepted(told);
                apply(self.alloc, &mut self.accepted, told)
            }
            Err(why) => {
                self.met.note_refused(&why);
                drop(why);
                Ok(())
            }
        }
    }

    /// Notes whether the answer of the entry at a place is right.
    fn note(&mut self, place: u32, coll: &str, name: &str) -> Result<(), CaseError> {
        let coll = coll_of(self.alloc, coll.as_bytes())?;
        let name = name_of(self.alloc, name.as_bytes())?;
        let is_right = match self.mounted.kernel.entries().get(place as usize) {
            Some(entry) => is_right(&self.accepted, &coll, &name, &entry.answer),
            None => false,
        };
        self.met.note_answer(is_right);
        Ok(())
    }

    fn ask(&mut self) -> Result<(), CaseError> {
        let coll = self.draws.word(&COLLS);
        let name = self.draws.word(&NAMES);
        let line = format!(in self.alloc; "{coll} sum {name}")?;
        let read = question(self.alloc, Words::new(line.as_str()))?;
        match answered(self.alloc, &mut self.mounted.kernel, read) {
            Ok(place) => self.note(place, coll, name),
            Err(why) => {
                drop(why);
                Ok(())
            }
        }
    }

    /// Does the first ready step from one on that is drawn.
    fn step(&mut self) {
        let count = ALL_STEPS.len() as u64;
        let start = self.draws.below(count);
        for more in 0..count {
            let at = start.wrapping_add(more) % count;
            if let Some(step) = ALL_STEPS.get(at as usize)
                && step_if_ready(self.alloc, &mut self.mounted.kernel, *step).is_some()
            {
                self.met.note_step(*step);
                return;
            }
        }
    }

    fn call(&mut self) -> Result<(), CaseError> {
        match self.draws.below(8) {
            0 | 1 => self.submit(),
            2 => self.ask(),
            _ => {
                self.step();
                Ok(())
            }
        }
    }

    /// Makes the calls; in half of the lists, then does steps until none is ready.
    fn run(&mut self) -> Result<(), CaseError> {
        for _ in 0..CALLS {
            self.call()?;
        }
        if self.draws.below(2) == 0 {
            settle_in_order(self.alloc, &mut self.mounted.kernel)?;
        }
        Ok(())
    }

    /// Ends the list.
    fn close(self) -> (Left, Met) {
        let List {
            alloc: _,
            draws: _,
            mounted,
            accepted: _,
            mut met,
        } = self;
        let left = mounted.close();
        met.overtaken = met.overtaken || is_overtaken(&left.book);
        (left, met)
    }
}

/// A kernel over a device.
fn mounted(alloc: Global, dev: MemoryDevice) -> Result<Mounted, CaseError>
    requires { (disk_of dev).flights ≡ [] }
{
    match opened(alloc, dev) {
        Ok(kernel) => Ok(Mounted::new(alloc, kernel)),
        Err(back) => {
            drop(back);
            Err(CaseError::Line("it isn't mounted"))
        }
    }
}

impl KernelLines {
    /// A device of these contents whose lags are drawn, and in half of the lists a call that fails: no read of a mount.
    fn drawn_device(&self, name: &str, draws: &mut Draws) -> Result<MemoryDevice, CaseError>
        ensures { IfOk result (λ d. (disk_of d).flights ≡ []) }
    {
        let mut setup = Setup::new(self.alloc)?;
        setup.put_device("dev", self.setup.contents(name)?)?;
        setup.lags = draws.lags(self.alloc)?;
        if draws.below(2) == 0 {
            let what = draws.word(&["write", "flush", "read"]);
            let first = if what == "read" { 4 } else { 0 };
            let at = draws.below(12).wrapping_add(first);
            let line = format!(in self.alloc; "{what} {at}")?;
            setup.fails.follow(Words::new(line.as_str()))?;
        }
        setup.device("dev")
    }

    /// A list of this seed, and the store that it is for.
    fn drawn_list(&self, name: &str, seed: u64, met: Met) -> Result<List, CaseError> {
        let mut draws = Draws::of(seed);
        let dev = self.drawn_device(name, &mut draws)?;
        let mounted = mounted(self.alloc, dev)?;
        match objects_behind(self.alloc, &self.history) {
            Ok(accepted) => Ok(List {
                alloc: self.alloc,
                draws,
                mounted,
                accepted,
                met,
            }),
            Err(error) => {
                drop(mounted);
                Err(error)
            }
        }
    }

    /// Makes the calls of a list, and looks at each image of what it leaves.
    fn judge_list(
        &self,
        name: &str,
        seed: u64,
        met: Met,
        counts: &mut Counts,
    ) -> Result<Met, CaseError> {
        let mut list = self.drawn_list(name, seed, met)?;
        let ran = list.run();
        let (left, met) = list.close();
        let judged = ran.and_then(|()| self.judge(&left, 0, counts));
        drop(left);
        judged.map(|()| met)
    }

    /// Judges a list for each seed from this one on, until there were more images than these.
    fn judge_lists(
        &self,
        name: &str,
        seed: u64,
        least: u64,
        counts: &mut Counts,
    ) -> Result<Met, CaseError> {
        let mut met = Met::nothing();
        for more in 0..MOST_LISTS {
            if least < counts.images {
                return Ok(met);
            }
            met = self.judge_list(name, seed.wrapping_add(more), met, counts)?;
        }
        Err(CaseError::Line("too few images"))
    }

    /// Follows `lists NAME SEED LEAST`, from its second word on: lists of calls on the store that the last mount left under the name.
    pub fn lists(&mut self, mut words: Words<'_>, out: &mut Text) -> Result<(), CaseError> {
        self.remember()?;
        let name = words.next()?;
        let [seed, least] = words.numbers::<2>()?;
        let mut counts = Counts::new(self.alloc);
        let met = self.judge_lists(name, seed, least, &mut counts)?;
        counts.print(Some(least), out);
        met.print(out);
        Ok(())
    }
}
