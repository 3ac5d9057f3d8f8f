//! What is in flight, in the order of the device's flights.
ghost use Rattle.std.specs.Prelude.{◌≡◌, ◌==◌, not, filter, None, MatchOption};
ghost use Rattle.std.specs.Option.{option_map};
ghost use Rattle.store_steps.specs.Prelude.{flying_of};

use block_device::Ticket;
use store_steps::{Flying, Job};

/// Takes a submission out that is in flight no more. Says what it was for.
pub fn land(flying: &mut Vec<Flying>, ticket: Ticket) -> Option<Job>
    ensures left { flying.new.items ≡ filter (λ f. not (f.ticket.place == ticket.place)) flying.old.items }
    ensures job { result ≡ option_map (λ f. f.job) (flying_of ticket flying.old.items) }
{
    let job = flying.iter().find(|f| f.ticket == ticket).map(|f| f.job);
    flying.retain(|f| f.ticket != ticket);
    job
}

/// The job of a submission that has ended well, if its end counts: once the kernel is down, good ends count for nothing.
pub fn counting(down: Option<Ticket>, landed: Option<Job>) -> Option<Job>
    ensures { MatchOption down (result ≡ landed) (λ _. result ≡ None) }
{
    match down {
        Some(_) => None,
        None => landed,
    }
}
