// The trait `Sink`: where text goes.
ghost use Rattle.std.specs.Prelude.{◌≡◌, ◌≤◌, ℕ, List, Option, IfOk, OnOk, OnErr};
ghost use Rattle.block_device.specs.Prelude.{Rose};
ghost use Rattle.end_points.specs.Sink.{Put};

/// A sink did not take a piece, and has counted it.
#[derive(Clone, Copy, Debug, PartialEq, Eq)]
pub struct Fault;

/// Where text goes, piece by piece, as standard output.
pub trait Sink {
    /// The bytes that it has taken, where the sink tells them (one in memory does).
    ghost written: { Self → Option (List ℕ) };

    /// How often it has failed: it never falls, and stays at the last number of 64 bits.
    ghost faults: { Self → ℕ };

    /// Takes bytes from the front of the piece, and gives how many: at least one of a piece that
    /// isn't empty. At an Err it took none. It takes no memory.
    fn write(&mut self, piece: &[u8]) -> Result<u32, Fault>
        ensures ok { IfOk result (λ n. Put (written self.old) piece.now n (written self.new)) }
        ensures err { OnErr result (written self.new ≡ written self.old) }
        ensures kept { OnOk result (faults self.new ≡ faults self.old) }
        ensures later { faults self.old ≤ faults self.new }
        ensures cause { OnErr result (Rose (faults self.old) (faults self.new)) };
}
