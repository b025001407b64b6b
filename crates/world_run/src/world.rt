//! A system, and how far a run of it has come.

ghost use Rattle.std.specs.Prelude.{◌≡◌, ◌≤◌, ◌+◌, false, length, IfOk, OnOk, string_bytes};
ghost use Rattle.tap_base.specs.Wires.{wire_of};
ghost use Rattle.abstract_run.specs.CellCount.{cells_in};
ghost use Rattle.abstract_run.specs.Fits.{InputsFit};
ghost use Rattle.abstract_run.specs.Opening.{opening_state};
ghost use Rattle.exact_choice.specs.Runnable.{IsRunnable};
ghost use Rattle.tap_exec.specs.Semantics.{semantics_of};
ghost use Rattle.run_text.specs.TraceText.{last_lines, lines_text};
ghost use Rattle.world_run.specs.Layouts.{HasLayout};
ghost use Rattle.world_run.specs.Names.{AreNamesOf};
ghost use Rattle.world_run.specs.Served.{Answers, AnswersEvent, IsFresh, NamesProcesses};

use crate::course::Course;
use crate::deeds::Deeds;
use crate::fault::WorldFault;
use crate::generators::generators_of;
use crate::given::Given;
use crate::layouts::layout_of;
use crate::rejects::no_errors;
use crate::serve::serve_event;
use crate::turnstiles::turnstiles_of;
use crate::writing::append_last;
use abstract_run::{Event, Label, Outgoing, init};
use message_layout::Layout;
use run_text::{Names, write_all_vars};
use std::alloc::Global;
use std::marker::Model;
use tap_base::{Inputs, NoMemory, System};

/// With more cells than these in its channels a world serves no event.
const MOST_CELLS: u32 = 99_936;

/// A system, and how far a run of it has come. It serves one event after another. Where memory is
/// refused within an event it has ended, and serves none any more.
#[derive(Debug, Drop)]
pub struct World {
    system: System,
    /// The seed of its draws.
    seed: u64,
    /// How the messages of the system are written as bytes.
    layout: Layout,
    course: Course,
    /// What the last event did that was served.
    last: Deeds,
    /// Whether memory was refused within an event.
    ended: bool,
}

impl Model for World {
    ghost use Rattle.std.specs.Coded.{codes};
    ghost use Rattle.tap_base.specs.contracts.system.System as of_system;
    ghost use Rattle.world_run.specs.Served.{IsWhole, WorldValue};

    ghost Value = { WorldValue };

    ghost coded = { Prim.hlevel (codes, of_system.the_row.coded) };

    ghost view = { λ w. record { system = w.system; seed = w.seed; layout = w.layout; course = w.course; last = w.last; ended = w.ended } };

    ghost invariant = { λ w. IsWhole w.system w.layout w.course w.ended };
}

impl World {
    /// The system in its opening state, with a value for each of its inputs. In each process it is the
    /// first action's turn, and its choices are drawn by the seed and its number.
    pub fn new(alloc: Global, system: System, inputs: &Inputs, seed: u64) -> Result<World, NoMemory>
        requires runnable { IsRunnable system }
        requires inputs { InputsFit (semantics_of system) inputs.now }
        requires wire { HasLayout (wire_of system) }
        ensures system { IfOk result (λ w. w.system ≡ system) }
        ensures seed { IfOk result (λ w. w.seed ≡ seed) }
        ensures opening { IfOk result (λ w. w.course.state ≡ opening_state (semantics_of system) inputs.now) }
        ensures fresh { IfOk result (λ w. IsFresh w) }
        ensures no_cells { IfOk result (λ w. w.course.cells ≡ 0) }
    {
        let state = init(alloc, &system, inputs)?;
        let turnstiles = turnstiles_of(alloc, &system)?;
        let generators = generators_of(alloc, &system, seed)?;
        let errors = no_errors(alloc, &system)?;
        let layout = layout_of(alloc, &system)?;
        Ok(World {
            system,
            seed,
            layout,
            course: Course {
                state,
                turnstiles,
                generators,
                errors,
                cells: 0,
            },
            last: Deeds::new(alloc),
            ended: false,
        })
    }

    /// The system.
    pub fn system(&self) -> &System
        ensures { result.now ≡ self.now.system }
    {
        &self.system
    }

    /// How the messages of the system are written as bytes.
    pub fn layout(&self) -> &Layout
        ensures { result.now ≡ self.now.layout }
    {
        &self.layout
    }

    /// Serves an event, and records what it did. An event that cannot happen is one in which nothing
    /// does. It names processes of the system, two different ones where it names two.
    ///
    /// # Errors
    ///
    /// `Full` exactly where more than 99,936 cells stand in the channels, and `Ended` exactly where the
    /// world has ended; nothing changes. `NoMemory`: what is recorded stays, and the world has ended.
    pub fn event(&mut self, alloc: Global, event: &Event) -> Result<(), WorldFault>
        requires { NamesProcesses (length self.old.system.processes) event.now }
        ensures system { self.new.system ≡ self.old.system }
        ensures seed { self.new.seed ≡ self.old.seed }
        ensures layout { self.new.layout ≡ self.old.layout }
        ensures answers { AnswersEvent event.now self.old result self.new }
        ensures cells { OnOk result (self.new.course.cells ≤ self.old.course.cells + 64) }
    {
        if self.ended {
            return Err(WorldFault::Ended);
        }
        if self.course.cells > MOST_CELLS {
            return Err(WorldFault::Full {
                cells: self.course.cells,
            });
        }
        let given = Given {
            alloc,
            system: &self.system,
        };
        let mut deeds = Deeds::new(alloc);
        self.ended = true;
        serve_event(&given, &mut self.course, event, &mut deeds)?;
        self.ended = false;
        self.last = deeds;
        Ok(())
    }

    /// The labels of the last event that was served, in order; none before the first.
    pub fn labels_of_last(&self) -> &[Label]
        ensures { result.now ≡ self.now.last.labels }
    {
        self.last.labels.as_slice()
    }

    /// What went out in the last event that was served, in order.
    pub fn sent_in_last(&self) -> &[Outgoing]
        ensures { result.now ≡ self.now.last.sent }
    {
        self.last.sent.as_slice()
    }

    /// How many cells stand in the channels, unless the world has ended.
    pub fn cells(&self) -> u32
        ensures { self.now.ended ≡ false → result ≡ cells_in self.now.course.state }
    {
        self.course.cells
    }

    /// The last lines of a trace: a line for each variable, and the end.
    pub fn ending(&self, alloc: Global, names: &Names) -> Result<String, NoMemory>
        requires { AreNamesOf (semantics_of self.now.system) names.now }
        ensures { IfOk result (λ text. string_bytes text ≡ lines_text (last_lines (semantics_of self.now.system) self.now.course.state)) }
    {
        let mut text = String::new(alloc);
        write_all_vars(&mut text, names, self.course.state.stores.as_slice())?;
        writeln!(text, "end")?;
        Ok(text)
    }

    /// Serves an event, and appends the lines of its labels to the page. An event that cannot happen is
    /// one in which nothing does. It names processes of the system, two different ones where it names two.
    ///
    /// # Errors
    ///
    /// `Full` exactly where more than 99,936 cells stand in the channels, and `Ended` exactly where the
    /// world has ended; nothing changes. `NoMemory`: the page is then as it was, and the world has ended.
    pub fn serve(
        &mut self,
        alloc: Global,
        names: &Names,
        event: &Event,
        page: &mut Vec<u8>,
    ) -> Result<(), WorldFault>
        requires names { AreNamesOf (semantics_of self.old.system) names.now }
        requires named { NamesProcesses (length self.old.system.processes) event.now }
        ensures system { self.new.system ≡ self.old.system }
        ensures seed { self.new.seed ≡ self.old.seed }
        ensures layout { self.new.layout ≡ self.old.layout }
        ensures answers { Answers event.now self.old page.old.items result self.new page.new.items }
        ensures cells { OnOk result (self.new.course.cells ≤ self.old.course.cells + 64) }
    {
        self.event(alloc, event)?;
        match append_last(alloc, self, names, page) {
            Ok(()) => Ok(()),
            Err(NoMemory) => {
                self.ended = true;
                Err(WorldFault::NoMemory)
            }
        }
    }
}
