//! The world is played on a schedule.

ghost use Rattle.std.specs.Prelude.{◌≡◌, ◌≤◌, ◌<◌, ◌^◌, ◌⊎◌, [], false, length, IfOk, MatchOption, OnSome};
ghost use Rattle.tap_exec.specs.Semantics.{semantics_of};
ghost use Rattle.run_text.specs.Names.{AreNames};
ghost use Rattle.run_text.specs.ScheduleText.{IsLineOf, IsOfNoEvent, most_events};
ghost use Rattle.run_text.specs.TraceText.{names_in};
ghost use Rattle.link_trait.specs.Outside.{HasCause};
ghost use Rattle.tapc_core.specs.inner.Playing.{HasPlayCause, Moves, Plays, StopsAt};
ghost use Rattle.world_run.specs.Names.{AreNamesOf};
ghost use Rattle.world_run.specs.Served.{IsFresh, NamesProcesses};

use abstract_run::Event;
use link_trait::{Failed, Sink};
use run_text::{LineFault, Names, first_line, read_event};
use std::alloc::Global;
use tap_base::NoMemory;
use world_run::{World, WorldFault};

/// How many bytes are gathered before they are put.
const PAGE: usize = 4096;

/// How many events a schedule has at most.
const MOST_EVENTS: u64 = 1_000_000;

/// What stops a run before the end of its schedule.
#[derive(Clone, Copy, Debug, PartialEq, Eq)]
pub enum Stop {
    /// A line of the schedule, counted from 1, is that of no event, or of one event too many.
    BadLine { number: u64 },
    /// An event was reached with so many cells in the channels: too many.
    Full { cells: u32 },
    /// Memory was refused.
    NoMemory,
    /// A put failed.
    Failed,
}

impl From<NoMemory> for Stop {
    ghost use Rattle.tapc_core.specs.declared.lines.Stop.TheVariants as stop;

    ghost from_gives = { λ _ e. e ≡ stop.NoMemory };

    fn from(_e: NoMemory) -> Stop {
        Stop::NoMemory
    }
}

impl From<Failed> for Stop {
    ghost use Rattle.tapc_core.specs.declared.lines.Stop.TheVariants as stop;

    ghost from_gives = { λ _ e. e ≡ stop.Failed };

    fn from(_e: Failed) -> Stop {
        Stop::Failed
    }
}

/// Serves the events of a schedule in order. The lines of their labels go to the page, and from there
/// to the sink once it has some kilobytes.
pub fn play_lines<O: Sink>(
    alloc: Global,
    world: &mut World,
    names: &Names,
    schedule: &[u8],
    page: &mut Vec<u8>,
    out: &mut O,
) -> Result<(), Stop>
    requires fresh { IsFresh world.old }
    requires names { AreNamesOf (semantics_of world.old.system) names.now }
    requires apart { AreNames (names_in (semantics_of world.old.system)) }
    requires empty { page.old.items ≡ [] }
    ensures plays { Plays world.old.seed (semantics_of world.old.system) world.old.course.state schedule.now (O.written out.old) result world.new.course.state (O.written out.new) page.new.items }
    ensures system { world.new.system ≡ world.old.system }
    ensures cause { HasPlayCause (O.faults out.old) (O.faults out.new) result }
{
    let mut rest = schedule;
    let mut number = 1;
    while !rest.is_empty() {
        let (line, tail) = first_line(rest);
        let Some(event) = numbered_event(alloc, number, line, names)? else {
            return Err(Stop::BadLine { number });
        };
        serve_next(alloc, world, names, &event, page)?;
        put_full_page(page, out)?;
        rest = tail;
        number += 1;
    }
    Ok(())
}

/// Serves an event in a world that has not ended, and appends the lines of its labels to the page.
fn serve_next(
    alloc: Global,
    world: &mut World,
    names: &Names,
    event: &Event,
    page: &mut Vec<u8>,
) -> Result<(), Stop>
    requires going { world.old.ended ≡ false }
    requires names { AreNamesOf (semantics_of world.old.system) names.now }
    requires named { NamesProcesses (length world.old.system.processes) event.now }
    ensures system { world.new.system ≡ world.old.system }
    ensures stops { StopsAt event.now world.old page.old.items result world.new page.new.items }
{
    match world.serve(alloc, names, event, page) {
        Ok(()) => Ok(()),
        Err(WorldFault::Full { cells }) => Err(Stop::Full { cells }),
        Err(WorldFault::NoMemory) => Err(Stop::NoMemory),
        Err(WorldFault::Ended) => unreachable!(),
    }
}

/// The event of a line of the schedule, counted from 1; none where the line is that of no event, or of
/// one event too many.
fn numbered_event(
    alloc: Global,
    number: u64,
    line: &[u8],
    names: &Names,
) -> Result<Option<Event>, NoMemory>
    requires apart { AreNames names.now.processes }
    requires few { length names.now.processes < 2 ^ 32 }
    ensures event { IfOk result (λ found. MatchOption found ((most_events < number) ⊎ IsOfNoEvent names.now.processes line.now) (λ e. IsLineOf names.now.processes line.now e)) }
    ensures within { IfOk result (λ found. OnSome found (number ≤ most_events)) }
{
    if number > MOST_EVENTS {
        return Ok(None);
    }
    match read_event(alloc, line, names) {
        Ok(event) => Ok(Some(event)),
        Err(LineFault::BadLine) => Ok(None),
        Err(LineFault::NoMemory) => Err(NoMemory),
    }
}

/// Puts the page where it has some kilobytes.
fn put_full_page<O: Sink>(page: &mut Vec<u8>, out: &mut O) -> Result<(), Failed>
    ensures moves { Moves page.old.items (O.written out.old) result page.new.items (O.written out.new) }
    ensures cause { HasCause (O.faults out.old) (O.faults out.new) result }
{
    if page.len() < PAGE {
        return Ok(());
    }
    out.put(page.as_slice())?;
    page.clear();
    Ok(())
}
