//! The command `soak`.

ghost use Rattle.std.specs.Prelude.{◌≡◌, ◌≤◌, ◌++◌, ℕ, Err, IfOk, OnOk, string_bytes};
ghost use Rattle.tap_base.specs.Resolved.{IsResolved};
ghost use Rattle.tap_base.specs.Wires.{wire_of};
ghost use Rattle.tap_base.specs.declared.system.Inputs.{Inputs};
ghost use Rattle.abstract_run.specs.Fits.{InputsFit};
ghost use Rattle.abstract_run.specs.Opening.{opening_state};
ghost use Rattle.exact_choice.specs.Runnable.{IsRunnable};
ghost use Rattle.link_trait.specs.Outside.{IsTold};
ghost use Rattle.run_text.specs.ScheduleText.{most_events};
ghost use Rattle.run_text.specs.TraceText.{last_lines, lines_text};
ghost use Rattle.tap_exec.specs.Semantics.{semantics_of};
ghost use Rattle.tapc_core.specs.Causes.{HasSinkCause, HasStoreCause};
ghost use Rattle.tapc_core.specs.Command.{AreFound};
ghost use Rattle.tapc_core.specs.Lines.{count_line, tally_text};
ghost use Rattle.tapc_core.specs.SettingWords.{settings_among};
ghost use Rattle.tapc_core.specs.Written.{Writes};
ghost use Rattle.tapc_core.specs.commands.Soak.{IsSoakFull, IsSoakText, soak_command};
ghost use Rattle.tapc_core.specs.inner.Soaking.{ClosesSoak, IsSoaking};
ghost use Rattle.world_run.specs.Layouts.{HasLayout};
ghost use Rattle.world_run.specs.Names.{AreNamesOf};
ghost use Rattle.world_run.specs.Served.{IsFresh};

use crate::closing::{NO_MEMORY, close};
use crate::play::close_full;
use crate::refusing::start_not;
use crate::start::{Start, begin};
use crate::status::Status;
use link_trait::{Sink, Store};
use run_text::{Names, names_of};
use soak_run::{Tally, soak as soak_world};
use std::alloc::Global;
use tap_base::{NoMemory, Text};
use world_run::{World, WorldFault};

/// What is run: a seed, so many events, and so many faults among them at most.
#[derive(Clone, Copy)]
pub(crate) struct Numbers {
    pub seed: u64,
    pub events: u32,
    pub faults: u32,
}

/// Runs the world of a system, whose file has this name, on generated events, with the settings of inputs among words.
pub(crate) fn soak<S: Store, O: Sink>(
    alloc: Global,
    system: &str,
    asked: Numbers,
    settings: &[Text],
    store: &mut S,
    out: &mut O,
) -> Status
    requires few { asked.events ≤ most_events }
    ensures writes { Writes ((soak_command system.now asked.seed asked.events asked.faults (settings_among settings.now)).writes (S.contents store.old)) result (O.written out.old) (O.written out.new) }
    ensures answers { (soak_command system.now asked.seed asked.events asked.faults (settings_among settings.now)).answers result }
    ensures found { IsTold (S.left store.old) → AreFound ((soak_command system.now asked.seed asked.events asked.faults (settings_among settings.now)).reads result) (S.contents store.old) }
    ensures leaves { (soak_command system.now asked.seed asked.events asked.faults (settings_among settings.now)).leaves (S.contents store.old) result (S.left store.new) }
    ensures store_cause { HasStoreCause result (S.faults store.old) (S.faults store.new) }
    ensures sink_cause { HasSinkCause result (O.faults out.old) (O.faults out.new) }
{
    match begin(alloc, system, settings, store) {
        Ok(start) => soak_system(alloc, start, asked, out),
        Err(fault) => start_not(alloc, fault, out),
    }
}

/// Runs a system, and puts what came of it.
fn soak_system<O: Sink>(alloc: Global, start: Start, asked: Numbers, out: &mut O) -> Status
    requires runnable { IsRunnable start.system }
    requires resolved { IsResolved start.system }
    requires wire { HasLayout (wire_of start.system) }
    requires fit { InputsFit (semantics_of start.system) start.inputs }
    requires few { asked.events ≤ most_events }
    ensures closes { ClosesSoak asked.seed asked.faults asked.events start.system start.inputs (O.written out.old) (O.written out.new) result }
    ensures answer { IsSoaking result }
    ensures cause { HasSinkCause result (O.faults out.old) (O.faults out.new) }
{
    match soak_text(alloc, start, asked) {
        Ok(text) => close(text.as_bytes(), out, Status::Done),
        Err(WorldFault::Full { cells }) => close_full(alloc, cells, &[], out),
        Err(WorldFault::NoMemory) => close(NO_MEMORY, out, Status::NoMemory),
        Err(WorldFault::Ended) => unreachable!(),
    }
}

/// How often labels came, the last values of the variables, and the end.
fn soak_text(alloc: Global, start: Start, asked: Numbers) -> Result<String, WorldFault>
    requires runnable { IsRunnable start.system }
    requires resolved { IsResolved start.system }
    requires wire { HasLayout (wire_of start.system) }
    requires fit { InputsFit (semantics_of start.system) start.inputs }
    requires few { asked.events ≤ most_events }
    ensures text { IfOk result (λ text. IsSoakText asked.seed asked.faults asked.events start.system start.inputs (string_bytes text)) }
    ensures full { (cells : ℕ) → result ≡ Err (WorldFault.Full cells) → IsSoakFull asked.seed asked.faults asked.events start.system start.inputs cells }
    ensures going { result ≡ Err WorldFault.Ended → ⊥ }
{
    let Start { system, inputs } = start;
    let names = names_of(alloc, &system)?;
    let mut world = World::new(alloc, system, &inputs, asked.seed)?;
    soak_opened(alloc, &mut world, &names, asked)
}

/// The same of a world in its opening state.
fn soak_opened(
    alloc: Global,
    world: &mut World,
    names: &Names,
    asked: Numbers,
) -> Result<String, WorldFault>
    requires fresh { IsFresh world.old }
    requires resolved { IsResolved world.old.system }
    requires seed { world.old.seed ≡ asked.seed }
    requires names { AreNamesOf (semantics_of world.old.system) names.now }
    requires few { asked.events ≤ most_events }
    ensures text { (inputs : Inputs) → world.old.course.state ≡ opening_state (semantics_of world.old.system) inputs → IfOk result (λ text. IsSoakText asked.seed asked.faults asked.events world.old.system inputs (string_bytes text)) }
    ensures full { (cells : ℕ) (inputs : Inputs) → world.old.course.state ≡ opening_state (semantics_of world.old.system) inputs → result ≡ Err (WorldFault.Full cells) → IsSoakFull asked.seed asked.faults asked.events world.old.system inputs cells }
    ensures going { result ≡ Err WorldFault.Ended → ⊥ }
{
    match soak_world(alloc, world, asked.events, asked.faults, asked.seed) {
        Ok(tally) => Ok(ended_text(alloc, world, names, asked.events, &tally)?),
        Err(fault) => Err(fault),
    }
}

/// The counts of a run, and the last lines of a world.
fn ended_text(
    alloc: Global,
    world: &World,
    names: &Names,
    events: u32,
    tally: &Tally,
) -> Result<String, NoMemory>
    requires names { AreNamesOf (semantics_of world.now.system) names.now }
    ensures { IfOk result (λ text. string_bytes text ≡ tally_text events tally.now ++ lines_text (last_lines (semantics_of world.now.system) world.now.course.state)) }
{
    let ending = world.ending(alloc, names)?;
    let mut text = tally_text(alloc, events, tally)?;
    text.push_str(ending.as_str())?;
    Ok(text)
}

/// The lines of the counts.
fn tally_text(alloc: Global, events: u32, tally: &Tally) -> Result<String, NoMemory>
    ensures { IfOk result (λ text. string_bytes text ≡ tally_text events tally.now) }
{
    let mut text = String::new(alloc);
    write_count(&mut text, "events", events as u64)?;
    write_count(&mut text, "acts", tally.acts)?;
    write_count(&mut text, "sents", tally.sents)?;
    write_count(&mut text, "rejects", tally.rejects)?;
    write_count(&mut text, "idles", tally.idles)?;
    write_count(&mut text, "voids", tally.voids)?;
    Ok(text)
}

/// Appends the line of a count.
fn write_count(text: &mut String, word: &str, count: u64) -> Result<(), NoMemory>
    ensures { OnOk result (string_bytes text.new ≡ string_bytes text.old ++ count_line word.now count) }
{
    writeln!(text, "{word} {count}")?;
    Ok(())
}
