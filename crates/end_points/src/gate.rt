// The trait `Gate`: who is asked before each turn of a run in threads.
ghost use Rattle.std.specs.Prelude.{◌≡◌};
ghost use Rattle.end_points.specs.declared.gate.Pass.TheVariants.{Go};

/// Whose turn it would be: a client, by its number, or one of the three workers.
#[derive(Clone, Copy)]
pub enum Role {
    /// Submits the commands of one script.
    Client(u32),
    /// Takes batches to the metadata log.
    Meta,
    /// Acknowledges what is committed.
    Finish,
    /// Writes deferred units over their place.
    Defer,
}

/// What the gate says.
#[derive(Clone, Copy)]
pub enum Pass {
    /// Take the turn.
    Go,
    /// Leave it out, and ask again. A role that was told so 1048576 times in a row goes on unasked.
    Skip,
}

/// Is asked before each turn of a role, outside the lock, and once when a client ends. The answer is
/// the gate's own choice: a test steers the order of turns by it.
pub trait Gate {
    /// `acked` is the number of the client's acknowledged transactions, 0 for a worker.
    fn pass(&self, role: Role, acked: u32) -> Pass;
}

/// The gate that always lets go on.
#[derive(Clone, Copy)]
pub struct OpenGate;

impl Gate for OpenGate {
    fn pass(&self, _role: Role, _acked: u32) -> Pass
        ensures { result ≡ Go }
    {
        Pass::Go
    }
}
