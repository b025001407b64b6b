//! The turnstiles of the processes of a system.

ghost use Rattle.std.specs.Prelude.{◌≡◌, ◌<◌, IfOk, Some, length, slice_get};
ghost use Rattle.exact_choice.specs.Runnable.{IsRunnable};
ghost use Rattle.tap_exec.specs.Semantics.{semantics_of};
ghost use Rattle.exact_choice.specs.Choice.{opening_cursors};
ghost use Rattle.world_run.specs.inner.Serving.{PicksAt};

use guard_scheduler::Turnstile;
use std::alloc::Global;
use tap_base::{List, NoMemory, System};

/// One for each process, which stands at its first action.
pub(crate) fn turnstiles_of(alloc: Global, system: &System) -> Result<List<Turnstile>, NoMemory>
    requires { IsRunnable system.now }
    ensures { IfOk result (λ ts. ts ≡ opening_cursors (semantics_of system.now)) }
{
    let mut turnstiles = List::new(alloc);
    for process in system.processes.as_slice() {
        turnstiles.push(Turnstile::new(process.actions.len() as u32))?;
    }
    Ok(turnstiles)
}

/// The next true place of a list, by the turnstile of a process.
pub(crate) fn pick(turnstiles: &mut List<Turnstile>, process: u32, enabled: &[bool]) -> Option<u32>
    requires there { process < length turnstiles.old }
    requires counted { (c : _) → slice_get turnstiles.old process ≡ Some c → length enabled.now ≡ c.places }
    ensures { PicksAt turnstiles.old process enabled.now result turnstiles.new }
{
    turnstiles.items[process as usize].pick(enabled)
}
