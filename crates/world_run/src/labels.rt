//! One label: it is done where it is possible, and recorded.

ghost use Rattle.std.specs.Prelude.{◌≡◌, ◌+◌, ◌≤◌, [], ◌∷◌, length, IfOk, OnOk};
ghost use Rattle.abstract_run.specs.CellCount as count;
ghost use Rattle.abstract_run.specs.Progress.{IsPossible};
ghost use Rattle.tap_exec.specs.Semantics.{semantics_of};
ghost use Rattle.run_text.specs.Sized.{IsSized};
ghost use Rattle.exact_choice.specs.Runnable.{IsRunnable};
ghost use Rattle.world_run.specs.Served.{Happened, IsCourse};
ghost use Rattle.world_run.specs.inner.Serving.{IsPlain, Tried, most_more, said_by};

use crate::course::Course;
use crate::deeds::Deeds;
use crate::given::Given;
use abstract_run::{Label, StepFault, step};
use tap_base::{Guard, NoMemory, System};

/// Does a label that is possible, and that leaves cursors, generators and errors as they are.
pub(crate) fn perform(
    given: &Given<'_>,
    course: &mut Course,
    label: Label,
    deeds: &mut Deeds,
) -> Result<(), NoMemory>
    requires runnable { IsRunnable given.now.system.now }
    requires course { IsCourse (said_by given.now) course.old }
    requires room { course.old.cells ≤ 100000 }
    requires possible { IsPossible (said_by given.now) course.old.state label }
    requires plain { IsPlain label }
    requires sized { IsSized (length (said_by given.now).processes) label }
    ensures did { OnOk result (Happened (said_by given.now) (label ∷ []) course.old course.new deeds.old deeds.new) }
    ensures course { OnOk result (IsCourse (said_by given.now) course.new) }
    ensures cells { OnOk result (course.new.cells ≤ course.old.cells + most_more label) }
{
    if !attempt(given, course, label, deeds)? {
        unreachable!();
    }
    Ok(())
}

/// Does a label where it is possible, and records it. Answers whether it was possible. Cursors,
/// generators and errors are left to the caller.
pub(crate) fn attempt(
    given: &Given<'_>,
    course: &mut Course,
    label: Label,
    deeds: &mut Deeds,
) -> Result<bool, NoMemory>
    requires runnable { IsRunnable given.now.system.now }
    requires course { IsCourse (said_by given.now) course.old }
    requires room { course.old.cells ≤ 100000 }
    ensures tried { IfOk result (λ done. Tried (said_by given.now) label course.old course.new deeds.old done deeds.new) }
    ensures turnstiles { course.new.turnstiles ≡ course.old.turnstiles }
    ensures generators { course.new.generators ≡ course.old.generators }
    ensures errors { course.new.errors ≡ course.old.errors }
{
    match step(given.alloc, given.system, &mut course.state, &label) {
        Ok(sends) => {
            course.cells = cells_behind(given.system, &label, course.cells, sends.len());
            deeds.keep(label, &course.state, sends)?;
            Ok(true)
        }
        Err(StepFault::NotEnabled) => Ok(false),
        Err(StepFault::NoMemory) => Err(NoMemory),
    }
}

/// How many cells stand in the channels behind a label, with so many before it, and so many sends.
pub(crate) fn cells_behind(system: &System, label: &Label, cells: u32, sends: usize) -> u32
    requires few { cells ≤ 100000 }
    requires sends { sends ≤ 64 }
    requires taken { count.cells_taken (semantics_of system.now) label.now ≤ cells + (count.cells_put label.now + sends) }
    ensures { result + count.cells_taken (semantics_of system.now) label.now ≡ cells + (count.cells_put label.now + sends) }
{
    let cells = cells as usize + cells_put(label) + sends - cells_taken(system, label);
    cells as u32
}

/// How many cells a label puts in beside the sends of an action.
fn cells_put(label: &Label) -> usize
    ensures count { result ≡ count.cells_put label.now }
    ensures few { result ≤ 1 }
{
    match label {
        Label::Copy { .. } => 1,
        Label::Forge { .. } => 1,
        _ => 0,
    }
}

/// How many cells a label takes out.
fn cells_taken(system: &System, label: &Label) -> usize
    ensures { result ≡ count.cells_taken (semantics_of system.now) label.now }
{
    match label {
        Label::Act {
            process,
            action,
            choices: _,
        } => cells_received(system, *process, *action),
        Label::Reject { .. } => 1,
        Label::Lose { .. } => 1,
        Label::Stop {
            process: _,
            receivers,
        } => receivers.len(),
        _ => 0,
    }
}

/// How many cells an action receives.
fn cells_received(system: &System, process: u32, action: u32) -> usize
    ensures { result ≡ count.cells_taken (semantics_of system.now) (Label.Act process action []) }
{
    let Some(process) = system.processes.get(process as usize) else {
        return 0;
    };
    let Some(action) = process.actions.get(action as usize) else {
        return 0;
    };
    match action.guard {
        Guard::Receive { .. } => 1,
        _ => 0,
    }
}
