//! The events of a schedule.

ghost use Rattle.std.specs.Prelude.{◌≡◌, ◌≤◌, ◌+◌, [], ◌∷◌, length, IfOk, OnOk};
ghost use Rattle.abstract_run.specs.Answers.{or_void};
ghost use Rattle.exact_choice.specs.Runnable.{IsRunnable};
ghost use Rattle.run_text.specs.ScheduleText.{AreTwo};
ghost use Rattle.run_text.specs.Sized.{IsSized};
ghost use Rattle.world_run.specs.Served.{Happened, IsCourse, IsSteady, NamesProcesses, TookPlace, full_from};
ghost use Rattle.world_run.specs.inner.Serving.{IsPlain, label_of, said_by};

use crate::course::Course;
use crate::deeds::Deeds;
use crate::given::Given;
use crate::labels::{attempt, perform};
use crate::rejects::{arrives_bad, one_more};
use crate::turn::turn;
use abstract_run::{Event, Label};
use std::alloc::Global;
use tap_base::{Bytes, NoMemory};

/// Does the labels of an event, and records them.
pub(crate) fn serve_event(
    given: &Given<'_>,
    course: &mut Course,
    event: &Event,
    deeds: &mut Deeds,
) -> Result<(), NoMemory>
    requires runnable { IsRunnable given.now.system.now }
    requires steady { IsSteady (said_by given.now) course.old }
    requires room { course.old.cells ≤ full_from }
    requires named { NamesProcesses (length given.now.system.now.processes) event.now }
    ensures served { OnOk result (TookPlace (said_by given.now) event.now course.old course.new deeds.old deeds.new) }
    ensures steady { OnOk result (IsSteady (said_by given.now) course.new) }
    ensures cells { OnOk result (course.new.cells ≤ course.old.cells + 64) }
{
    match event {
        Event::Turn { process, reading } => turn(given, course, *process, *reading, deeds),
        Event::Arrive { from, to } => arrive(given, course, *from, *to, deeds),
        _ => {
            let label = copy_label(given.alloc, event)?;
            try_plain(given, course, label, deeds)
        }
    }
}

/// The label of an event that is neither a turn nor an arrival.
fn copy_label(alloc: Global, event: &Event) -> Result<Label, NoMemory>
    ensures { IfOk result (λ l. l ≡ label_of event.now) }
{
    let label = match event {
        Event::Turn { .. } => Label::Void,
        Event::Arrive { from, to } => Label::Arrive {
            from: *from,
            to: *to,
        },
        Event::Lose { from, to, place } => Label::Lose {
            from: *from,
            to: *to,
            place: *place,
        },
        Event::Copy { from, to, place } => Label::Copy {
            from: *from,
            to: *to,
            place: *place,
        },
        Event::Move {
            from,
            to,
            place,
            target,
        } => Label::Move {
            from: *from,
            to: *to,
            place: *place,
            target: *target,
        },
        Event::Damage {
            from,
            to,
            place,
            bytes,
        } => Label::Damage {
            from: *from,
            to: *to,
            place: *place,
            bytes: Bytes::copy_of(alloc, bytes.as_slice())?,
        },
        Event::Forge { from, to, bytes } => Label::Forge {
            from: *from,
            to: *to,
            bytes: Bytes::copy_of(alloc, bytes.as_slice())?,
        },
        Event::Cut { process, sends } => Label::Cut {
            process: *process,
            sends: *sends,
        },
    };
    Ok(label)
}

/// Does a label where it is possible, and else nothing happens.
fn try_plain(
    given: &Given<'_>,
    course: &mut Course,
    label: Label,
    deeds: &mut Deeds,
) -> Result<(), NoMemory>
    requires runnable { IsRunnable given.now.system.now }
    requires steady { IsSteady (said_by given.now) course.old }
    requires room { course.old.cells ≤ full_from }
    requires plain { IsPlain label }
    requires sized { IsSized (length (said_by given.now).processes) label }
    ensures did { OnOk result (Happened (said_by given.now) (or_void (said_by given.now) course.old.state label ∷ []) course.old course.new deeds.old deeds.new) }
    ensures course { OnOk result (IsCourse (said_by given.now) course.new) }
    ensures cells { OnOk result (course.new.cells ≤ course.old.cells + 64) }
{
    if attempt(given, course, label, deeds)? {
        return Ok(());
    }
    perform(given, course, Label::Void, deeds)
}

/// An arrival, or nothing where no datagram is in flight. An error that arrives is the last of those
/// that wait to be rejected.
fn arrive(
    given: &Given<'_>,
    course: &mut Course,
    from: u32,
    to: u32,
    deeds: &mut Deeds,
) -> Result<(), NoMemory>
    requires runnable { IsRunnable given.now.system.now }
    requires steady { IsSteady (said_by given.now) course.old }
    requires room { course.old.cells ≤ full_from }
    requires two { AreTwo (length given.now.system.now.processes) from to }
    ensures did { OnOk result (Happened (said_by given.now) (or_void (said_by given.now) course.old.state (Label.Arrive from to) ∷ []) course.old course.new deeds.old deeds.new) }
    ensures course { OnOk result (IsCourse (said_by given.now) course.new) }
    ensures cells { OnOk result (course.new.cells ≤ course.old.cells + 64) }
{
    let bad = arrives_bad(&course.state, from, to);
    if !attempt(given, course, Label::Arrive { from, to }, deeds)? {
        return perform(given, course, Label::Void, deeds);
    }
    if bad {
        one_more(&mut course.errors, from, to)?;
    }
    Ok(())
}
