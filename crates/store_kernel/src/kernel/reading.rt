//! Reads. One leaves the kernel as it is but for its entry of the book.
ghost use Rattle.std.specs.Prelude.{◌≡◌, ◌≤◌, length, OnOk, IfOk, IfErr, IsErrOf};
ghost use Rattle.meta_log.specs.Prelude.{width_of};
ghost use Rattle.block_device.specs.Prelude.{Rose};
ghost use Rattle.object_model.specs.declared.command.Answer.{Answer};
ghost use Rattle.read_facts.specs.Prelude.{IsHeldAt, HasReadNames, IsAnswerOf};
ghost use Rattle.run_facts.specs.Prelude.{IsKept};
ghost use Rattle.store_steps.specs.Prelude.{AnswersRead, CanNote, memory_of};
ghost use Rattle.store_kernel.specs.Reading.{UnansweredBy, IsDeviceRead};
ghost use Rattle.store_kernel.specs.ToRead.{AskNeedsDevice};

use super::Kernel;
use crate::unanswered::Unanswered;
use block_device::Device;
use object_model::{Answer, Asked, Command, Entry, Read};
use object_reader::{ReadFail, answer};
use std::alloc::Global;
use unit_fields::limits::BOOK_LIMIT;

impl<D: Device> Kernel<D> {
    /// Answers a read: bytes of an object, their checksum, its size, an attribute, a key's value or the header of its omap,
    /// or the names of a collection's objects. The answer, also a refusal or a bad unit, is in the book's entry at the place that comes
    /// back. A kernel that is down, or whose book is full, and a read that the device or memory fails, leave no entry; it comes
    /// back then. A read sees every transaction that was accepted.
    pub fn ask(
        &mut self,
        alloc: Global,
        client: u32,
        line: u32,
        read: Read,
    ) -> Result<u32, Unanswered>
        ensures place { IfOk result (λ place. place ≡ length self.old.state.book.entries) }
        ensures answered { OnOk result ((a : Answer) × AnswersRead client line read a self.old.state (D.disk self.old.device) self.new.state) }
        ensures unanswered { IfErr result (λ why. UnansweredBy why read self.old.state self.new.state) }
        ensures disk { D.disk self.new.device ≡ D.disk self.old.device }
        ensures later { D.faults self.old.device ≤ D.faults self.new.device }
        ensures cause { IfErr result (λ why. IsDeviceRead why → Rose (D.faults self.old.device) (D.faults self.new.device)) }
        ensures kept { IsKept self.new.state (D.disk self.new.device) }
    {
        let asked = self.do_ask(alloc, client, line, read);
        self.facts();
        asked
    }

    // Answers a read.
    fn do_ask(
        &mut self,
        alloc: Global,
        client: u32,
        line: u32,
        read: Read,
    ) -> Result<u32, Unanswered>
        ensures place { IfOk result (λ place. place ≡ length self.old.state.book.entries) }
        ensures answered { OnOk result ((a : Answer) × AnswersRead client line read a self.old.state (D.disk self.old.device) self.new.state) }
        ensures unanswered { IfErr result (λ why. UnansweredBy why read self.old.state self.new.state) }
        ensures disk { D.disk self.new.device ≡ D.disk self.old.device }
        ensures later { D.faults self.old.device ≤ D.faults self.new.device }
        ensures cause { IfErr result (λ why. IsDeviceRead why → Rose (D.faults self.old.device) (D.faults self.new.device)) }
    {
        if let Some(ticket) = self.down {
            return Err(Unanswered::Down { ticket, back: read });
        }
        if self.entries.len() >= BOOK_LIMIT as usize {
            return Err(Unanswered::BookFull(read));
        }
        match self.answered(alloc, &read) {
            Ok(answer) => match self.enter(client, line, read, answer) {
                Ok(place) => Ok(place),
                Err(back) => Err(Unanswered::Memory(back)),
            },
            Err(ReadFail::Memory) => Err(Unanswered::Memory(read)),
            Err(ReadFail::Fault) => Err(Unanswered::DeviceRead(read)),
        }
    }

    // The answer, by the submitted rows, what isn't committed, and the device.
    fn answered(&mut self, alloc: Global, read: &Read) -> Result<Answer, ReadFail>
        requires can_note { CanNote self.old.state }
        ensures names { HasReadNames read.now }
        ensures ok { IfOk result (IsAnswerOf (width_of self.old.state.log.sup) (memory_of self.old.state) (IsHeldAt (D.disk self.old.device))
            self.old.state.submitted read.now) }
        ensures fault { IsErrOf result ReadFail.Fault → AskNeedsDevice read.now self.old.state }
        ensures same { self.new.state ≡ self.old.state }
        ensures disk { D.disk self.new.device ≡ D.disk self.old.device }
        ensures later { D.faults self.old.device ≤ D.faults self.new.device }
        ensures cause { IsErrOf result ReadFail.Fault → Rose (D.faults self.old.device) (D.faults self.new.device) }
    {
        let width = self.meta.sup().width();
        answer(
            alloc,
            &mut self.device,
            &self.buffers,
            width,
            &self.submitted,
            read,
        )
    }

    // Makes an entry of the book, and drops the read. It comes back where there is no room for the entry.
    fn enter(&mut self, client: u32, line: u32, read: Read, answer: Answer) -> Result<u32, Read>
        requires can_note { CanNote self.old.state }
        requires names { HasReadNames read }
        requires given { IsAnswerOf (width_of self.old.state.log.sup) (memory_of self.old.state) (IsHeldAt (D.disk self.old.device))
            self.old.state.submitted read answer }
        ensures place { IfOk result (λ place. place ≡ length self.old.state.book.entries) }
        ensures ok { OnOk result (AnswersRead client line read answer self.old.state (D.disk self.old.device) self.new.state) }
        ensures err { IfErr result (λ back. (back ≡ read) × (self.new.state ≡ self.old.state)) }
        ensures disk { D.disk self.new.device ≡ D.disk self.old.device }
        ensures faults { D.faults self.new.device ≡ D.faults self.old.device }
    {
        if self.entries.reserve(1).is_err() {
            return Err(read);
        }
        let place = self.entries.len() as u32;
        self.entries.push_reserved(Entry {
            client,
            line,
            command: Asked::new(Command::Read(read)),
            answer,
            acks: self.acked,
        });
        Ok(place)
    }
}
