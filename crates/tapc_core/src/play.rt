//! The command `world`: a run from its opening state to the last line that is written.

ghost use Rattle.std.specs.Prelude.{◌≡◌, ◌++◌, IfOk, string_bytes};
ghost use Rattle.tap_base.specs.Wires.{wire_of};
ghost use Rattle.abstract_run.specs.Fits.{InputsFit};
ghost use Rattle.abstract_run.specs.Opening.{opening_state};
ghost use Rattle.tap_exec.specs.Semantics.{semantics_of};
ghost use Rattle.run_text.specs.Names.{AreNames};
ghost use Rattle.run_text.specs.TraceText.{last_lines, lines_text, names_in};
ghost use Rattle.link_trait.specs.Outside.{IsTold};
ghost use Rattle.tapc_core.specs.Causes.{HasSinkCause, HasStoreCause};
ghost use Rattle.tapc_core.specs.Command.{AreFound};
ghost use Rattle.tapc_core.specs.Lines.{bad_line, full_line, no_memory_line};
ghost use Rattle.tapc_core.specs.Run.{Task};
ghost use Rattle.tapc_core.specs.SettingWords.{settings_among};
ghost use Rattle.tapc_core.specs.Written.{Writes};
ghost use Rattle.tapc_core.specs.commands.World.{IsPlayed, OfWorld, world_command};
ghost use Rattle.tapc_core.specs.inner.Closing.{ClosesOr};
ghost use Rattle.tapc_core.specs.inner.Playing.{AreOf};
ghost use Rattle.exact_choice.specs.Runnable.{IsRunnable};
ghost use Rattle.world_run.specs.Layouts.{HasLayout};
ghost use Rattle.world_run.specs.Names.{AreNamesOf};
ghost use Rattle.world_run.specs.Served.{IsFresh};

use crate::closing::{NO_MEMORY, close, close_behind};
use crate::files::FileFault;
use crate::lines::{Stop, play_lines};
use crate::reading::read_whole;
use crate::refusing::{give_up, start_not};
use crate::start::{Start, begin};
use crate::status::Status;
use link_trait::{Sink, Store};
use run_text::{Names, names_of};
use std::alloc::Global;
use tap_base::{Inputs, NoMemory, System, Text};
use world_run::World;

/// Runs the world of a system on a schedule, whose files have these names, with a seed and the settings of
/// inputs among words.
pub(crate) fn world<S: Store, O: Sink>(
    alloc: Global,
    system: &str,
    schedule: &str,
    seed: u64,
    settings: &[Text],
    store: &mut S,
    out: &mut O,
) -> Status
    ensures writes { Writes ((world_command system.now schedule.now seed (settings_among settings.now)).writes (S.contents store.old)) result (O.written out.old) (O.written out.new) }
    ensures answers { (world_command system.now schedule.now seed (settings_among settings.now)).answers result }
    ensures found { IsTold (S.left store.old) → AreFound ((world_command system.now schedule.now seed (settings_among settings.now)).reads result) (S.contents store.old) }
    ensures leaves { (world_command system.now schedule.now seed (settings_among settings.now)).leaves (S.contents store.old) result (S.left store.new) }
    ensures store_cause { HasStoreCause result (S.faults store.old) (S.faults store.new) }
    ensures sink_cause { HasSinkCause result (O.faults out.old) (O.faults out.new) }
{
    match begin(alloc, system, settings, store) {
        Ok(Start { system, inputs }) => match read_whole(alloc, store, schedule) {
            Ok(schedule) => play(alloc, system, &inputs, seed, schedule.as_slice(), out),
            Err(error) => give_up(alloc, FileFault::from(error), out),
        },
        Err(fault) => start_not(alloc, fault, out),
    }
}

/// Plays a system with inputs and a seed on a schedule, writes the trace, and answers how that ended.
fn play<O: Sink>(
    alloc: Global,
    system: System,
    inputs: &Inputs,
    seed: u64,
    schedule: &[u8],
    out: &mut O,
) -> Status
    requires runnable { IsRunnable system }
    requires wire { HasLayout (wire_of system) }
    requires fit { InputsFit (semantics_of system) inputs.now }
    requires apart { AreNames (names_in (semantics_of system)) }
    ensures writes { (task : Task) → AreOf seed system inputs.now schedule.now task → Writes (OfWorld task) result (O.written out.old) (O.written out.new) }
    ensures answer { IsPlayed result }
    ensures cause { HasSinkCause result (O.faults out.old) (O.faults out.new) }
{
    let Ok(names) = names_of(alloc, &system) else {
        return close(NO_MEMORY, out, Status::NoMemory);
    };
    match World::new(alloc, system, inputs, seed) {
        Ok(mut world) => play_world(alloc, &mut world, &names, schedule, out),
        Err(NoMemory) => close(NO_MEMORY, out, Status::NoMemory),
    }
}

/// Plays a world from its opening state.
fn play_world<O: Sink>(
    alloc: Global,
    world: &mut World,
    names: &Names,
    schedule: &[u8],
    out: &mut O,
) -> Status
    requires fresh { IsFresh world.old }
    requires names { AreNamesOf (semantics_of world.old.system) names.now }
    requires apart { AreNames (names_in (semantics_of world.old.system)) }
    ensures writes { (task : Task) (inputs : Inputs) → world.old.course.state ≡ opening_state (semantics_of world.old.system) inputs → AreOf world.old.seed world.old.system inputs schedule.now task → Writes (OfWorld task) result (O.written out.old) (O.written out.new) }
    ensures answer { IsPlayed result }
    ensures cause { HasSinkCause result (O.faults out.old) (O.faults out.new) }
{
    let mut page = Vec::new(alloc);
    match play_lines(alloc, world, names, schedule, &mut page, out) {
        Ok(()) => close_trace(alloc, world, names, page.as_slice(), out),
        Err(Stop::BadLine { number }) => close_bad(alloc, number, page.as_slice(), out),
        Err(Stop::Full { cells }) => close_full(alloc, cells, page.as_slice(), out),
        Err(Stop::NoMemory) => close_behind(page.as_slice(), NO_MEMORY, out, Status::NoMemory),
        Err(Stop::Failed) => Status::WriteFault,
    }
}

/// Puts the page, the last values of the variables, and the end.
fn close_trace<O: Sink>(
    alloc: Global,
    world: &World,
    names: &Names,
    page: &[u8],
    out: &mut O,
) -> Status
    requires names { AreNamesOf (semantics_of world.now.system) names.now }
    ensures closes { ClosesOr Status.Done (page.now ++ lines_text (last_lines (semantics_of world.now.system) world.now.course.state)) (page.now ++ no_memory_line) (O.written out.old) (O.written out.new) result }
    ensures answer { IsPlayed result }
    ensures cause { HasSinkCause result (O.faults out.old) (O.faults out.new) }
{
    match world.ending(alloc, names) {
        Ok(ending) => close_behind(page, ending.as_bytes(), out, Status::Done),
        Err(NoMemory) => close_behind(page, NO_MEMORY, out, Status::NoMemory),
    }
}

/// Puts the page, and the number of a line that is that of no event.
pub(crate) fn close_bad<O: Sink>(alloc: Global, number: u64, page: &[u8], out: &mut O) -> Status
    ensures closes { ClosesOr Status.BadSchedule (page.now ++ bad_line number) (page.now ++ no_memory_line) (O.written out.old) (O.written out.new) result }
    ensures answer { IsPlayed result }
    ensures cause { HasSinkCause result (O.faults out.old) (O.faults out.new) }
{
    match bad_line(alloc, number) {
        Ok(line) => close_behind(page, line.as_bytes(), out, Status::BadSchedule),
        Err(NoMemory) => close_behind(page, NO_MEMORY, out, Status::NoMemory),
    }
}

/// Puts the page, and how many cells stood in the channels where an event was reached with too many.
pub(crate) fn close_full<O: Sink>(alloc: Global, cells: u32, page: &[u8], out: &mut O) -> Status
    ensures closes { ClosesOr Status.WorldFull (page.now ++ full_line cells) (page.now ++ no_memory_line) (O.written out.old) (O.written out.new) result }
    ensures answer { IsPlayed result }
    ensures cause { HasSinkCause result (O.faults out.old) (O.faults out.new) }
{
    match full_line(alloc, cells) {
        Ok(line) => close_behind(page, line.as_bytes(), out, Status::WorldFull),
        Err(NoMemory) => close_behind(page, NO_MEMORY, out, Status::NoMemory),
    }
}

fn full_line(alloc: Global, cells: u32) -> Result<String, NoMemory>
    ensures { IfOk result (λ line. string_bytes line ≡ full_line cells) }
{
    Ok(format!(in alloc; "full {cells}\n")?)
}

fn bad_line(alloc: Global, number: u64) -> Result<String, NoMemory>
    ensures { IfOk result (λ line. string_bytes line ≡ bad_line number) }
{
    Ok(format!(in alloc; "bad line {number}\n")?)
}
