//! The errors that have arrived, and that a turn rejects.

ghost use Rattle.std.specs.Prelude.{◌≡◌, ◌+◌, ◌≤◌, ◌<◌, [], ◌∷◌, true, None, Some, length, slice_get, IfOk, OnOk, IfSome, drop, position, slice_set};
ghost use Rattle.std.specs.Option.{option_copied};
ghost use Rattle.abstract_run.specs.Answers.{most_waiting};
ghost use Rattle.abstract_run.specs.Channels as channels;
ghost use Rattle.abstract_run.specs.Fits.{Fits, IsFitChannel};
ghost use Rattle.abstract_run.specs.Step.{is_live};
ghost use Rattle.abstract_run.specs.inner.Among.{HasChannels};
ghost use Rattle.tap_base.specs.Lists.{Each};
ghost use Rattle.tap_exec.specs.Semantics.{semantics_of};
ghost use Rattle.exact_choice.specs.Rejects as spec;
ghost use Rattle.exact_choice.specs.Runnable.{IsRunnable};
ghost use Rattle.world_run.specs.Served.{IsCourse};
ghost use Rattle.world_run.specs.inner.Serving.{Rejected, first_of, said_by};

use crate::course::Course;
use crate::deeds::Deeds;
use crate::given::Given;
use crate::labels::attempt;
use abstract_run::{Cell, Channel, Label, State};
use std::alloc::Global;
use tap_base::{List, NoMemory, System, item};

/// How many errors a turn rejects at most.
pub(crate) const MOST_REJECTS: u32 = 4096;

/// No error at any process of a system.
pub(crate) fn no_errors(alloc: Global, system: &System) -> Result<List<List<u32>>, NoMemory>
    ensures { IfOk result (λ errors. errors ≡ spec.opening_errors (semantics_of system.now)) }
{
    let mut errors = List::new(alloc);
    for _process in system.processes.as_slice() {
        errors.push(List::new(alloc))?;
    }
    Ok(errors)
}

/// An error from a process arrived at another.
pub(crate) fn one_more(errors: &mut List<List<u32>>, from: u32, to: u32) -> Result<(), NoMemory>
    requires { to < length errors.old }
    ensures { OnOk result (errors.new ≡ spec.one_more from to errors.old) }
{
    errors.items[to as usize].push(from)?;
    Ok(())
}

/// Rejects the errors that have arrived at a process, at most 4,096 of them and in the order in which
/// they arrived. Answers how many.
pub(crate) fn reject_arrived(
    given: &Given<'_>,
    course: &mut Course,
    process: u32,
    deeds: &mut Deeds,
) -> Result<u32, NoMemory>
    requires runnable { IsRunnable given.now.system.now }
    requires course { IsCourse (said_by given.now) course.old }
    requires settled { course.old.state.falling ≡ None }
    requires live { is_live course.old.state process ≡ true }
    requires room { course.old.cells ≤ 100000 }
    ensures rejected { IfOk result (λ n. Rejected (said_by given.now) process n course.old course.new deeds.old deeds.new) }
    ensures at_most { IfOk result (λ n. n ≤ most_waiting) }
    ensures none_left { IfOk result (λ n. n < most_waiting → slice_get course.new.errors process ≡ Some []) }
{
    for rejects in 0..MOST_REJECTS {
        let Some(from) = first_sender(&course.errors, process) else {
            return Ok(rejects);
        };
        reject(given, course, from, process, deeds)?;
    }
    Ok(MOST_REJECTS)
}

/// The sender of the error that arrived first.
fn first_sender(errors: &List<List<u32>>, process: u32) -> Option<u32>
    ensures { result ≡ first_of errors.now process }
{
    let senders = item(errors.as_slice(), process as usize)?;
    let sender = item(senders.as_slice(), 0)?;
    Some(*sender)
}

/// Rejects the error that arrived first.
fn reject(
    given: &Given<'_>,
    course: &mut Course,
    from: u32,
    process: u32,
    deeds: &mut Deeds,
) -> Result<(), NoMemory>
    requires runnable { IsRunnable given.now.system.now }
    requires course { IsCourse (said_by given.now) course.old }
    requires settled { course.old.state.falling ≡ None }
    requires live { is_live course.old.state process ≡ true }
    requires room { course.old.cells ≤ 100000 }
    requires first { first_of course.old.errors process ≡ Some from }
    ensures { OnOk result (Rejected (said_by given.now) process 1 course.old course.new deeds.old deeds.new) }
{
    let Some(place) = first_error(&course.state, from, process) else {
        unreachable!();
    };
    let label = Label::Reject {
        from,
        to: process,
        place,
    };
    if !attempt(given, course, label, deeds)? {
        unreachable!();
    }
    take_first(&mut course.errors, process);
    Ok(())
}

/// The error that arrived first is there no more.
fn take_first(errors: &mut List<List<u32>>, process: u32)
    requires there { process < length errors.old }
    requires some { IfSome (slice_get errors.old process) (λ senders. 0 < length senders) }
    ensures { IfSome (slice_get errors.old process) (λ senders. errors.new ≡ slice_set errors.old process (drop 1 senders)) }
{
    let _ = errors.items[process as usize].remove(0);
}

/// The place of the first error from one process that has arrived at another.
fn first_error(state: &State, from: u32, to: u32) -> Option<u32>
    requires channels { HasChannels state.now }
    requires fit { Each IsFitChannel state.now.channels }
    ensures { result ≡ spec.first_error state.now from to }
{
    let channel = channel_between(state, from, to)?;
    first_error_in(channel)
}

/// The place of the first error before the mark of a channel.
fn first_error_in(channel: &Channel) -> Option<u32>
    requires { IsFitChannel channel.now }
    ensures { result ≡ spec.first_error_in channel.now }
{
    let place = place_of_error(&channel.cells.as_slice()[..channel.mark as usize])?;
    Some(place as u32)
}

/// The place of the first error.
fn place_of_error(cells: &[Cell]) -> Option<usize>
    ensures place { result ≡ position (λ x. channels.is_error x) cells.now }
    ensures within { IfSome result (λ at. at < length cells.now) }
{
    cells.iter().position(|cell| is_error(cell))
}

fn is_error(cell: &Cell) -> bool
    ensures { result ≡ channels.is_error cell.now }
{
    match cell {
        Cell::Error => true,
        Cell::Msg { .. } => false,
    }
}

/// Whether the next datagram to arrive from one process at another is an error.
pub(crate) fn arrives_bad(state: &State, from: u32, to: u32) -> bool
    requires { HasChannels state.now }
    ensures { result ≡ spec.arrives_bad state.now from to }
{
    let Some(channel) = channel_between(state, from, to) else {
        return false;
    };
    let Some(cell) = item(channel.cells.as_slice(), channel.mark as usize) else {
        return false;
    };
    is_error(cell)
}

/// The channel from one process to another.
fn channel_between(state: &State, from: u32, to: u32) -> Option<&Channel>
    requires { HasChannels state.now }
    ensures { option_copied result ≡ channels.channel_of from to state.now.channels }
{
    let at = place_among(state.down.len(), from, to)?;
    item(state.channels.as_slice(), at)
}

/// The place of the channel between two of so many processes. Channels stand by sender and then by
/// receiver, and none leads from a process to itself.
fn place_among(processes: usize, from: u32, to: u32) -> Option<usize>
    requires { processes ≤ 64 }
    ensures { result ≡ channels.place_of from to (channels.channels_among processes) }
{
    let sender = from as usize;
    let receiver = to as usize;
    if sender >= processes || receiver >= processes {
        return None;
    }
    let first = sender * (processes - 1);
    if receiver < sender {
        return Some(first + receiver);
    }
    if receiver == sender {
        return None;
    }
    Some(first + receiver - 1)
}
