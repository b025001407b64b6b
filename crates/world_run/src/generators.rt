//! The generators of the processes of a system.

ghost use Rattle.std.specs.Prelude.{◌≡◌, ◌<◌, IfOk, Some, length, slice_get, slice_set};
ghost use Rattle.exact_choice.specs.Draws.{opening_generators};
ghost use Rattle.exact_choice.specs.Runnable.{IsRunnable};
ghost use Rattle.rand_pcg.specs.Lcg.{Lcg};
ghost use Rattle.tap_exec.specs.Semantics.{semantics_of};
ghost use Rattle.world_run.specs.inner.Serving.{IsTaken};

use drawn_choices::generator_of;
use rand_pcg::Lcg64Xsh32;
use std::alloc::Global;
use std::mem;
use tap_base::{List, NoMemory, System};

/// One for each process, by the seed of the run and its number.
pub(crate) fn generators_of(
    alloc: Global,
    system: &System,
    seed: u64,
) -> Result<List<Lcg64Xsh32>, NoMemory>
    requires { IsRunnable system.now }
    ensures { IfOk result (λ gs. gs ≡ opening_generators seed (semantics_of system.now)) }
{
    let mut generators = List::new(alloc);
    for process in 0..system.processes.len() as u32 {
        generators.push(generator_of(seed, process))?;
    }
    Ok(generators)
}

/// Takes the generator of a process out. What then stands in its place is to be replaced.
pub(crate) fn take(generators: &mut List<Lcg64Xsh32>, process: u32) -> Lcg64Xsh32
    requires { process < length generators.old }
    ensures { IsTaken generators.old process result generators.new }
{
    mem::replace(
        &mut generators.items[process as usize],
        Lcg64Xsh32::from_state(0, 0),
    )
}
