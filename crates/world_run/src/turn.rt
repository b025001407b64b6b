//! A turn of a process.

ghost use Rattle.std.specs.Prelude.{◌≡◌, ◌+◌, ◌≤◌, ◌<◌, [], true, None, Some, length, slice_get, IfOk, IfSome, OnOk};
ghost use Rattle.abstract_run.specs.Answers.{most_waiting};
ghost use Rattle.abstract_run.specs.Fits.{Fits};
ghost use Rattle.exact_choice.specs.Runnable.{IsRunnable};
ghost use Rattle.abstract_run.specs.Step.{is_live, is_zero};
ghost use Rattle.exact_choice.specs.Choice.{AreCursorsOf};
ghost use Rattle.tap_exec.specs.Semantics.{semantics_of};
ghost use Rattle.world_run.specs.Served.{Happened, IsCourse, IsSteady, TookPlace, full_from};
ghost use Rattle.world_run.specs.inner.Serving.{AreEnabled, Chose, Ended, action_count, fall_labels, said_by};

use crate::acts::act;
use crate::course::Course;
use crate::deeds::Deeds;
use crate::given::Given;
use crate::labels::perform;
use crate::rejects::{MOST_REJECTS, reject_arrived};
use crate::turnstiles::pick;
use abstract_run::{Event, Label, State, enabled};
use tap_base::{List, NoMemory, System};

/// A turn of a process with a reading of its clock. One that is down does nothing, and one whose link
/// is cut off stops. Another rejects the errors that have arrived, and does its next enabled action.
pub(crate) fn turn(
    given: &Given<'_>,
    course: &mut Course,
    process: u32,
    reading: u64,
    deeds: &mut Deeds,
) -> Result<(), NoMemory>
    requires runnable { IsRunnable given.now.system.now }
    requires steady { IsSteady (said_by given.now) course.old }
    requires room { course.old.cells ≤ full_from }
    requires there { process < length given.now.system.now.processes }
    ensures served { OnOk result (TookPlace (said_by given.now) (Event.Turn process reading) course.old course.new deeds.old deeds.new) }
    ensures steady { OnOk result (IsSteady (said_by given.now) course.new) }
    ensures cells { OnOk result (course.new.cells ≤ course.old.cells + 64) }
{
    if is_down(&course.state, process) {
        return perform(given, course, Label::Down { process }, deeds);
    }
    let cut_off = is_cut_off(&course.state, process);
    perform(given, course, Label::Tick { process, reading }, deeds)?;
    if cut_off {
        let receivers = List::new(given.alloc);
        return perform(given, course, Label::Stop { process, receivers }, deeds);
    }
    let rejects = reject_arrived(given, course, process, deeds)?;
    end_turn(given, course, process, rejects, deeds)
}

fn is_down(state: &State, process: u32) -> bool
    requires { process < length state.now.down }
    ensures { slice_get state.now.down process ≡ Some result }
{
    state.down.as_slice()[process as usize]
}

/// Whether the link of the process fails at its next send or receive.
fn is_cut_off(state: &State, process: u32) -> bool
    requires { process < length state.now.cuts }
    ensures { result ≡ is_zero (slice_get state.now.cuts process) }
{
    let cut = state.cuts.as_slice()[process as usize];
    match cut {
        Some(0) => true,
        _ => false,
    }
}

/// What a process does behind its rejects: its next enabled action, and where there is none, an idle
/// turn or, behind as many rejects as a turn takes, a flood.
fn end_turn(
    given: &Given<'_>,
    course: &mut Course,
    process: u32,
    rejects: u32,
    deeds: &mut Deeds,
) -> Result<(), NoMemory>
    requires runnable { IsRunnable given.now.system.now }
    requires steady { IsSteady (said_by given.now) course.old }
    requires live { is_live course.old.state process ≡ true }
    requires room { course.old.cells ≤ full_from }
    requires there { process < length given.now.system.now.processes }
    requires at_most { rejects ≤ most_waiting }
    requires none_left { rejects < most_waiting → slice_get course.old.errors process ≡ Some [] }
    ensures { OnOk result (Ended (said_by given.now) process rejects course.old course.new deeds.old deeds.new) }
{
    match choose(given, course, process)? {
        Some(action) => {
            act(given, course, process, action, deeds)?;
            stop_fallen(given, course, deeds)
        }
        None if rejects < MOST_REJECTS => perform(given, course, Label::Idle { process }, deeds),
        None => perform(given, course, Label::Flood { process }, deeds),
    }
}

/// The next enabled action of a process, by its turnstile.
fn choose(given: &Given<'_>, course: &mut Course, process: u32) -> Result<Option<u32>, NoMemory>
    requires runnable { IsRunnable given.now.system.now }
    requires course { IsCourse (said_by given.now) course.old }
    requires there { process < length given.now.system.now.processes }
    ensures chose { IfOk result (λ action. Chose (said_by given.now) course.old.state process course.old.turnstiles action course.new.turnstiles) }
    ensures state { course.new.state ≡ course.old.state }
    ensures generators { course.new.generators ≡ course.old.generators }
    ensures errors { course.new.errors ≡ course.old.errors }
    ensures cells { course.new.cells ≡ course.old.cells }
    ensures course { IfOk result (λ action. IsCourse (said_by given.now) course.new) }
{
    let enabled = enabled_actions(given, &course.state, process)?;
    Ok(pick(&mut course.turnstiles, process, enabled.as_slice()))
}

/// Of each action of a process, whether it is enabled.
fn enabled_actions(given: &Given<'_>, state: &State, process: u32) -> Result<List<bool>, NoMemory>
    requires runnable { IsRunnable given.now.system.now }
    requires fits { Fits (said_by given.now) state.now }
    requires there { process < length given.now.system.now.processes }
    ensures { IfOk result (λ xs. IfSome (action_count given.now.system.now process) (λ actions. AreEnabled (said_by given.now) state.now process actions xs)) }
{
    let mut told = List::new(given.alloc);
    for action in 0..action_count(given.system, process) {
        told.push(enabled(given.system, state, process, action))?;
    }
    Ok(told)
}

/// How many actions a process has.
fn action_count(system: &System, process: u32) -> u32
    requires runnable { IsRunnable system.now }
    requires there { process < length system.now.processes }
    ensures { action_count system.now process ≡ Some result }
{
    system.processes.as_slice()[process as usize].actions.len() as u32
}

/// The stop of a process whose link failed within its action, where one did.
fn stop_fallen(given: &Given<'_>, course: &mut Course, deeds: &mut Deeds) -> Result<(), NoMemory>
    requires runnable { IsRunnable given.now.system.now }
    requires course { IsCourse (said_by given.now) course.old }
    requires room { course.old.cells ≤ 100000 }
    ensures did { OnOk result (Happened (said_by given.now) (fall_labels course.old.state.falling) course.old course.new deeds.old deeds.new) }
    ensures steady { OnOk result (IsSteady (said_by given.now) course.new) }
    ensures cells { OnOk result (course.new.cells ≤ course.old.cells) }
{
    let Some(falling) = &course.state.falling else {
        return Ok(());
    };
    let process = falling.process;
    let receivers = List::from_slice(given.alloc, falling.receivers.as_slice())?;
    perform(given, course, Label::Stop { process, receivers }, deeds)
}
