// The trait `Device`: a block device that answers later, in the order that it likes.
ghost use Rattle.std.specs.Prelude.{◌≡◌, ◌+◌, ◌*◌, ◌%◌, ◌<◌, ◌≤◌, ℕ, false, length, OnOk, OnErr, IfOk, IfErr, IfSome, IfNone, IsErrOf};
ghost use Rattle.block_device.specs.Disk.{Disk, Submitted, Reaped, Waited, HasRead, IsSound, IsNotInFlight, Rose};
ghost use Rattle.block_device.specs.declared.event.Event.TheVariants.{Write, Flush};

use std::alloc::AllocError;

/// Names a write or a flush from its submission to its `Done`. Of a device that tells its log it is
/// the event's place there.
#[derive(Clone, Copy, PartialEq, Eq)]
pub struct Ticket {
    pub place: u64,
}

/// A write or a flush has ended. `ok` is false where the device failed at it: what the units of such
/// a write hold is not known, and such a flush makes nothing stable.
#[derive(Clone, Copy)]
pub struct Done {
    pub ticket: Ticket,
    pub ok: bool,
}

/// Memory ran out at a submission: the bytes that were to be written, for a later try.
#[derive(Drop)]
pub struct Back {
    pub bytes: Vec<u8>,
}

/// Why a call that reads was refused.
#[derive(Clone, Copy, Debug, PartialEq, Eq)]
pub enum Failed {
    /// Memory ran out.
    Memory,
    /// The device failed, and has counted it.
    Fault,
}

/// A raw block device, as a store drives it: writes and flushes are submitted, and `reap` gives
/// their ends one by one, in any order. All places are in units of 4096 bytes.
///
/// What the disk model promises is said by the log of submissions and ends in the order in which the
/// calls returned. A unit is dirty from the submission of a write to it until the good end of a flush
/// that was submitted after that write's own good end. A crash leaves anything in a dirty unit, and
/// in each other unit the bytes last written. A device tells its start contents and its log together
/// (one in memory), or neither (a file).
pub trait Device {
    /// What is known of the device: its size and depth, what is in flight, and where it tells them
    /// the start contents and the log.
    ghost disk: { Self → Disk };

    /// How often the device has failed: it never falls, and stays at the last number of 64 bits.
    ghost faults: { Self → ℕ };

    /// The number of units, at most 1048576. No call changes it.
    fn units(&self) -> u32
        ensures value { result ≡ (disk self.now).units }
        ensures sound { IsSound (disk self.now) };

    /// How many submissions may be in flight at once, at least 8. No call changes it.
    fn depth(&self) -> u32
        ensures value { result ≡ (disk self.now).depth };

    /// How many submissions are in flight.
    fn in_flight(&self) -> u32
        ensures value { result ≡ length (disk self.now).flights };

    /// Submits a write of 1 to 64 whole units from unit `at` on, which no write in flight touches.
    /// Where memory runs out the bytes come back.
    fn submit_write(&mut self, at: u32, bytes: Vec<u8>) -> Result<Ticket, Back>
        requires room { length (disk self.old).flights < (disk self.old).depth }
        requires some { 0 < length bytes.items }
        requires few { length bytes.items ≤ 4096 * 64 }
        requires whole { length bytes.items % 4096 ≡ 0 }
        requires inside { 4096 * at + length bytes.items ≤ 4096 * (disk self.old).units }
        requires free { IsNotInFlight (disk self.old) at (length bytes.items) }
        ensures ok { IfOk result (λ t. Submitted (disk self.old) t.place (Write at bytes.items) (disk self.new)) }
        ensures err { OnErr result (disk self.new ≡ disk self.old) }
        ensures back { IfErr result (λ back. back.bytes.items ≡ bytes.items) }
        ensures faults { faults self.new ≡ faults self.old }
        ensures sound { IsSound (disk self.new) };

    /// Submits a flush. Its good end makes stable each write whose good end came before this call.
    fn submit_flush(&mut self) -> Result<Ticket, AllocError>
        requires { length (disk self.old).flights < (disk self.old).depth }
        ensures ok { IfOk result (λ t. Submitted (disk self.old) t.place Flush (disk self.new)) }
        ensures err { OnErr result (disk self.new ≡ disk self.old) }
        ensures faults { faults self.new ≡ faults self.old }
        ensures sound { IsSound (disk self.new) };

    /// The end of one submission, each once. None comes only where no end is ready: always where
    /// nothing is in flight, and else at most 64 times in a row. It takes no memory.
    fn reap(&mut self) -> Option<Done>
        ensures done { IfSome result (λ done. Reaped (disk self.old) done.ticket.place done.ok (disk self.new)) }
        ensures none { IfNone result (Waited (disk self.old) (disk self.new)) }
        ensures later { faults self.old ≤ faults self.new }
        ensures cause { IfSome result (λ done. done.ok ≡ false → Rose (faults self.old) (faults self.new)) }
        ensures sound { IsSound (disk self.new) };

    /// Reads `count` units from unit `at` on, which no write in flight touches, in place of what
    /// `into` held; at an Err it is empty. A unit of which a write ended badly may read as anything.
    fn read(&mut self, at: u32, count: u32, into: &mut Vec<u8>) -> Result<(), Failed>
        requires inside { at + count ≤ (disk self.old).units }
        requires free { IsNotInFlight (disk self.old) at (4096 * count) }
        ensures same { disk self.new ≡ disk self.old }
        ensures ok { OnOk result (HasRead (disk self.old) at count into.new.items) }
        ensures err { OnErr result (length into.new.items ≡ 0) }
        ensures later { faults self.old ≤ faults self.new }
        ensures cause { IsErrOf result Failed.Fault → Rose (faults self.old) (faults self.new) }
        ensures sound { IsSound (disk self.new) };
}
