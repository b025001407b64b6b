//! Worlds in their opening state.

ghost use Rattle.std.specs.Prelude.{IfOk, length};
ghost use Rattle.tap_base.specs.Resolved.{IsResolved};
ghost use Rattle.tap_base.specs.Wires.{wire_of};
ghost use Rattle.tap_exec.specs.Semantics.{semantics_of};
ghost use Rattle.exact_choice.specs.Runnable.{IsRunnable};
ghost use Rattle.run_text.specs.Names.{AreFewNames, AreNames};
ghost use Rattle.run_text.specs.TraceText.{names_in};
ghost use Rattle.world_run.specs.Layouts.{HasLayout};
ghost use Rattle.world_run.specs.Names.{AreNamesOf};
ghost use Rattle.world_run.specs.Served.{IsFresh, NamesProcesses};

use abstract_run::Event;
use run_text::{LineFault, Names, names_of, read_event};
use std::alloc::Global;
use std::test::Fail;
use tap_base::{NoMemory, System};
use tap_front::{TextFault, accept};
use tap_settings::inputs_of;
use world_run::World;

/// The system of a text.
pub fn system_of(alloc: Global, text: &[u8]) -> Result<System, TextFault>
    ensures runnable { IfOk result (λ s. IsRunnable s) }
    ensures resolved { IfOk result (λ s. IsResolved s) }
    ensures wire { IfOk result (λ s. HasLayout (wire_of s)) }
    ensures names { IfOk result (λ s. AreNames (names_in (semantics_of s))) }
{
    match accept(alloc, text) {
        Ok(checked) => Ok(checked.into_system()),
        Err(fault) => Err(fault),
    }
}

/// A world of a system without inputs.
pub fn open_world(alloc: Global, text: &[u8], seed: u64) -> Result<World, Fail>
    ensures fresh { IfOk result (λ w. IsFresh w) }
    ensures resolved { IfOk result (λ w. IsResolved w.system) }
    ensures names { IfOk result (λ w. AreNames (names_in (semantics_of w.system))) }
{
    let system = system_of(alloc, text)?;
    let inputs = inputs_of(alloc, &system, &[])?;
    Ok(World::new(alloc, system, &inputs, seed)?)
}

/// The names in the lines of a world.
pub fn names_of_world(alloc: Global, world: &World) -> Result<Names, NoMemory>
    requires fresh { IsFresh world.now }
    requires apart { AreNames (names_in (semantics_of world.now.system)) }
    ensures names { IfOk result (λ n. AreNamesOf (semantics_of world.now.system) n) }
    ensures few { IfOk result (λ n. AreFewNames n.processes) }
{
    names_of(alloc, world.system())
}

/// The event of a line.
pub fn event_of(alloc: Global, names: &Names, line: &str) -> Result<Event, LineFault>
    requires { AreFewNames names.now.processes }
    ensures { IfOk result (λ e. NamesProcesses (length names.now.processes) e) }
{
    read_event(alloc, line.as_bytes(), names)
}
