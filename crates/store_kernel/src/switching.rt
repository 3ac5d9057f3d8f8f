//! How far the single submissions of a switch of halves are.
ghost use Rattle.std.specs.Prelude.{◌≡◌};
ghost use Rattle.std.specs.Option.{option_map};
ghost use Rattle.store_kernel.specs.Ends.{with_flush, with_slot, with_slot_flush};

use store_steps::{FlushState, Switching};

/// The flush behind the checkpoint, if a switch is under way, is so far.
pub fn set_flush(switching: &mut Option<Switching>, state: FlushState)
    ensures { switching.new ≡ option_map (with_flush state) switching.old }
{
    match switching {
        Some(now) => now.flush = state,
        None => {}
    }
}

/// The write of the next superblock is.
pub fn set_slot(switching: &mut Option<Switching>, state: FlushState)
    ensures { switching.new ≡ option_map (with_slot state) switching.old }
{
    match switching {
        Some(now) => now.slot = state,
        None => {}
    }
}

/// The flush behind it is.
pub fn set_slot_flush(switching: &mut Option<Switching>, state: FlushState)
    ensures { switching.new ≡ option_map (with_slot_flush state) switching.old }
{
    match switching {
        Some(now) => now.slot_flush = state,
        None => {}
    }
}
