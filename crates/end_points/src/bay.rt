// The trait `Bay`: who hands out devices and scripts by name.
ghost use Rattle.std.specs.Prelude.{◌≡◌, ◌+◌, ◌<◌, ◌≤◌, ◌^◌, ℕ, IfOk, OnOk, OnErr, IsErrOf};
ghost use Rattle.block_device.specs.Prelude.{Rose};
ghost use Rattle.end_points.specs.Bay.{BayView, HandedOut, Opened, IsFewUnits};

use crate::Source;
use block_device::{Device, Failed};

/// How a device is asked for.
#[derive(Clone, Copy)]
pub enum How {
    /// Make it: a device of exactly so many units. What stood under the name is kept, cut or filled
    /// up with zeros.
    Make(u32),
    /// What stands under the name, worked at submission.
    Plain,
    /// What stands under the name, worked beside its caller where the bay can.
    Queued,
}

/// Hands out devices and scripts by name.
pub trait Bay {
    type Dev: Device;

    type Src: Source;

    /// What is known of the bay: how many devices it gave, and where it tells them the contents and
    /// texts by name.
    ghost bay: { Self → BayView };

    /// How often it has failed: it never falls, and stays at the last number of 64 bits.
    ghost faults: { Self → ℕ };

    /// How many devices it has given.
    fn given(&self) -> u32
        ensures { result ≡ (bay self.now).given };

    /// The device under a name, with nothing in flight, an empty log and no fault so far.
    fn device(&mut self, name: &str, how: How) -> Result<Self::Dev, Failed>
        requires count { (bay self.old).given + 1 < 2 ^ 32 }
        requires few { IsFewUnits how }
        ensures ok { IfOk result (λ dev. HandedOut (bay self.old) name.now how (Self.Dev.disk dev) (Self.Dev.faults dev) (bay self.new)) }
        ensures err { OnErr result (bay self.new ≡ bay self.old) }
        ensures kept { OnOk result (faults self.new ≡ faults self.old) }
        ensures later { faults self.old ≤ faults self.new }
        ensures cause { IsErrOf result Failed.Fault → Rose (faults self.old) (faults self.new) };

    /// The text under a name, from its front on, with no fault so far.
    fn script(&mut self, name: &str) -> Result<Self::Src, Failed>
        ensures ok { IfOk result (λ src. Opened (bay self.old) name.now (Self.Src.left src) (Self.Src.faults src)) }
        ensures same { bay self.new ≡ bay self.old }
        ensures kept { OnOk result (faults self.new ≡ faults self.old) }
        ensures later { faults self.old ≤ faults self.new }
        ensures cause { IsErrOf result Failed.Fault → Rose (faults self.old) (faults self.new) };
}
