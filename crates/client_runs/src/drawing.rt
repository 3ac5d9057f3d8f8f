//! Draws what comes next.
ghost use Rattle.std.specs.Prelude.{◌≡◌, ◌≤◌, ◌<◌, ◌+◌, ◌^◌, length, take, MatchOption};
ghost use Rattle.client_runs.specs.Choice.{ready_list};
ghost use Rattle.client_runs.specs.Standing.{IsDrawnFrom, IsNothing};

use crate::generator::Generator;
use block_device::Device;
use store_kernel::Kernel;
use store_steps::{ALL_STEPS, Step};

/// What was drawn: a client goes on, or the kernel makes a step.
#[derive(Clone, Copy)]
pub enum Drawn {
    Client(u32),
    Step(Step),
}

/// The ready steps in the order of their table, in front in the array, and how many they are.
fn ready_steps<D: Device>(kernel: &Kernel<D>) -> ([Step; 14], usize)
    ensures ready { take result.1 result.0 ≡ ready_list (D.disk kernel.now.device).depth kernel.now.state }
    ensures few { result.1 ≤ length result.0 }
{
    let mut ready = ALL_STEPS;
    let mut count = 0;
    'steps: for step in ALL_STEPS.as_slice() {
        if kernel.ready(*step) {
            ready[count] = *step;
            count += 1;
        }
    }
    (ready, count)
}

/// Draws one of the clients that can go on and of the ready steps, where there is one.
pub fn draw<D: Device>(kernel: &Kernel<D>, able: &[u32], generator: &mut Generator) -> Option<Drawn>
    requires { length able.now ≤ 64 }
    ensures { MatchOption result
        (IsNothing able.now (ready_list (D.disk kernel.now.device).depth kernel.now.state) generator.old.x generator.new.x)
        (λ item. IsDrawnFrom able.now (ready_list (D.disk kernel.now.device).depth kernel.now.state) generator.old.x item generator.new.x) }
{
    let (ready, count) = ready_steps(kernel);
    let items = able.len() + count;
    if items == 0 {
        return None;
    }
    generator.turn();
    let item = generator.item(items);
    if item < able.len() {
        Some(Drawn::Client(able[item]))
    } else {
        Some(Drawn::Step(ready[item - able.len()]))
    }
}
