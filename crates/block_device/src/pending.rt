// The submissions in flight of a device in memory, and which of them ends next.
ghost use Rattle.std.specs.Prelude.{◌≡◌, ◌<◌, map, All, MatchOption};
ghost use Rattle.block_device.specs.Pending.{lowered, others, IsFirstReady, WasTaken, NoneWasReady, TicketsAscend};

/// A submission in flight.
#[derive(Clone, Copy)]
pub struct Pending {
    pub ticket: u64,
    /// The first unit of a write.
    pub first: u32,
    /// How many bytes it writes; a flush has none.
    pub bytes: usize,
    /// Whether it will end well.
    pub ok: bool,
    /// How many reaps it still waits.
    pub lag: u8,
}

// The first that waits for no reap: the least ticket, since they stand in the order of submission.
fn first_ready(pending: &[Pending]) -> Option<usize>
    ensures { MatchOption result (All (λ p. 0 < p.lag) pending.now) (λ i. IsFirstReady pending.now i) }
{
    for (i, p) in pending.iter().enumerate() {
        if p.lag == 0 {
            return Some(i);
        }
    }
    None
}

// Each ticket waits for one reap fewer.
fn lower_lags(pending: &mut [Pending])
    ensures { pending.new ≡ map lowered pending.old }
{
    for p in pending.iter_mut() {
        p.lag = p.lag.saturating_sub(1);
    }
}

/// Takes out the ready one of least ticket, if there is one; the others wait for one reap fewer.
pub fn take_ready(pending: &mut Vec<Pending>) -> Option<Pending>
    requires { TicketsAscend pending.old.items }
    ensures { MatchOption result (NoneWasReady pending.old.items pending.new.items) (λ p. WasTaken pending.old.items p pending.new.items) }
{
    let ready = first_ready(pending);
    lower_lags(pending);
    let i = ready?;
    Some(pending.remove(i))
}
