// The trait `Source`: a text that is read from its front on.
ghost use Rattle.std.specs.Prelude.{◌≡◌, ◌≤◌, ℕ, List, Option, IfOk, OnOk, OnErr, IsErrOf};
ghost use Rattle.block_device.specs.Prelude.{Rose};
ghost use Rattle.end_points.specs.Source.{Took};

use block_device::Failed;

/// A text, as a script, that is read from its front to its end.
pub trait Source {
    /// The bytes that are left, where the source tells them (one in memory does, a file doesn't).
    ghost left: { Self → Option (List ℕ) };

    /// How often it has failed: it never falls, and stays at the last number of 64 bits.
    ghost faults: { Self → ℕ };

    /// Appends up to `most` of the bytes that are left, and gives how many; 0 for a positive `most`
    /// is the end. It may take fewer than there are. An Err takes none.
    fn read(&mut self, into: &mut Vec<u8>, most: u32) -> Result<u32, Failed>
        ensures ok { IfOk result (λ n. Took (left self.old) most n into.old.items into.new.items (left self.new)) }
        ensures err { OnErr result (left self.new ≡ left self.old) }
        ensures none { OnErr result (into.new.items ≡ into.old.items) }
        ensures kept { OnOk result (faults self.new ≡ faults self.old) }
        ensures memory { IsErrOf result Failed.Memory → faults self.new ≡ faults self.old }
        ensures later { faults self.old ≤ faults self.new }
        ensures cause { IsErrOf result Failed.Fault → Rose (faults self.old) (faults self.new) };
}
