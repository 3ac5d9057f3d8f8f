//! Calls of a device, one at a time: each is submitted with nothing else in flight, and its end is awaited.
ghost use Rattle.std.specs.Prelude.{◌≡◌, ◌≤◌, ◌<◌, ◌+◌, ◌*◌, ◌%◌, [], true, false, length, OnOk, IsErrOf};
ghost use Rattle.block_device.specs.Prelude.{IsSound, Rose};
ghost use Rattle.block_device.specs.declared.event.Event.TheVariants.{Write, Flush};
ghost use Rattle.log_replay.specs.Calls.{IsOnly, Ended, Called};

use block_device::{Device, Failed, Ticket};

/// Waits for the end of the one submission in flight, and says whether it was good.
fn wait<D: Device>(dev: &mut D, ticket: Ticket) -> bool
    requires { IsOnly ticket.place (D.disk dev.old).flights }
    ensures ended { Ended (D.disk dev.old) ticket.place result (D.disk dev.new) }
    ensures sound { IsSound (D.disk dev.new) }
    ensures later { D.faults dev.old ≤ D.faults dev.new }
    ensures cause { result ≡ false → Rose (D.faults dev.old) (D.faults dev.new) }
{
    'waiting: for _ in 0..65u32 {
        if let Some(done) = dev.reap() {
            return done.ok;
        }
    }
    unreachable!()
}

/// Writes 1 to 64 whole units from unit `at` on.
pub fn write_through<D: Device>(dev: &mut D, at: u32, bytes: Vec<u8>) -> Result<(), Failed>
    requires sound { IsSound (D.disk dev.old) }
    requires idle { (D.disk dev.old).flights ≡ [] }
    requires some { 0 < length bytes.items }
    requires few { length bytes.items ≤ 4096 * 64 }
    requires whole { length bytes.items % 4096 ≡ 0 }
    requires inside { 4096 * at + length bytes.items ≤ 4096 * (D.disk dev.old).units }
    ensures ok { OnOk result (Called (D.disk dev.old) (Write at bytes.items) true (D.disk dev.new)) }
    ensures fault { IsErrOf result Failed.Fault → Called (D.disk dev.old) (Write at bytes.items) false (D.disk dev.new) }
    ensures memory { IsErrOf result Failed.Memory → D.disk dev.new ≡ D.disk dev.old }
    ensures sound { IsSound (D.disk dev.new) }
    ensures later { D.faults dev.old ≤ D.faults dev.new }
    ensures cause { IsErrOf result Failed.Fault → Rose (D.faults dev.old) (D.faults dev.new) }
{
    match dev.submit_write(at, bytes) {
        Ok(ticket) => {
            if wait(dev, ticket) {
                Ok(())
            } else {
                Err(Failed::Fault)
            }
        }
        Err(_) => Err(Failed::Memory),
    }
}

/// Makes all that was written stable.
pub fn flush_through<D: Device>(dev: &mut D) -> Result<(), Failed>
    requires sound { IsSound (D.disk dev.old) }
    requires idle { (D.disk dev.old).flights ≡ [] }
    ensures ok { OnOk result (Called (D.disk dev.old) Flush true (D.disk dev.new)) }
    ensures fault { IsErrOf result Failed.Fault → Called (D.disk dev.old) Flush false (D.disk dev.new) }
    ensures memory { IsErrOf result Failed.Memory → D.disk dev.new ≡ D.disk dev.old }
    ensures sound { IsSound (D.disk dev.new) }
    ensures later { D.faults dev.old ≤ D.faults dev.new }
    ensures cause { IsErrOf result Failed.Fault → Rose (D.faults dev.old) (D.faults dev.new) }
{
    match dev.submit_flush() {
        Ok(ticket) => {
            if wait(dev, ticket) {
                Ok(())
            } else {
                Err(Failed::Fault)
            }
        }
        Err(_) => Err(Failed::Memory),
    }
}
