//! Faults of datagrams in flight. Places are counted from the mark.

ghost use Rattle.std.specs.Prelude.{◌≡◌, ◌<◌, ◌≤◌, IfOk, Some, length, slice_get};
ghost use Rattle.std.specs.List.{insert, remove};
ghost use Rattle.tap_base.specs.Faults.{changed_to, copied_at, lost_at, moved_to};
ghost use Rattle.abstract_run.specs.inner.Among.{HasChannels};
ghost use Rattle.abstract_run.specs.Channels as spec;
ghost use Rattle.abstract_run.specs.inner.Does.{Changes, Tries};
ghost use Rattle.abstract_run.specs.Step as step;

use crate::channels::{MOST_CELLS, place_in};
use crate::state::{Channel, State, StepFault};
use byte_meaning::Cell;
use std::alloc::Global;
use tap_base::{List, NoMemory};

// ---- losses

/// The cell in flight at a place goes.
fn lose_in(channel: &mut Channel, place: u32) -> bool
    ensures { Changes (spec.on_flight (lost_at place) channel.old) channel.old result channel.new }
{
    let at = channel.mark as usize + place as usize;
    if at >= channel.cells.len() {
        return false;
    }
    let _ = channel.cells.remove(at);
    true
}

fn lose_at(channels: &mut List<Channel>, at: usize, place: u32) -> bool
    requires { at < length channels.old }
    ensures { Changes (spec.changed_at at (spec.on_flight (lost_at place)) channels.old) channels.old result channels.new }
{
    lose_in(&mut channels.items[at], place)
}

/// The cell in flight at a place between two processes is lost.
pub(crate) fn lose(state: &mut State, from: u32, to: u32, place: u32) -> bool
    requires { HasChannels state.old }
    ensures { Changes (step.flight_changed (lost_at place) state.old from to) state.old result state.new }
{
    match place_in(state, from, to) {
        Some(at) => lose_at(&mut state.channels, at, place),
        None => false,
    }
}

// ---- copies

fn copy_of(alloc: Global, cell: &Cell) -> Result<Cell, NoMemory>
    ensures { IfOk result (λ copy. copy ≡ cell.now) }
{
    match cell {
        Cell::Msg { message, values } => Ok(Cell::Msg {
            message: *message,
            values: List::from_slice(alloc, values.as_slice())?,
        }),
        Cell::Error => Ok(Cell::Error),
    }
}

/// A copy of the cell in flight at a place comes directly behind it.
fn copy_in(alloc: Global, channel: &mut Channel, place: u32) -> Result<(), StepFault>
    ensures { Tries (spec.where_room (spec.on_flight (copied_at place)) channel.old) channel.old result channel.new }
{
    if channel.cells.len() >= MOST_CELLS {
        return Err(StepFault::NotEnabled);
    }
    let at = channel.mark as usize + place as usize;
    let Some(cell) = channel.cells.get(at) else {
        return Err(StepFault::NotEnabled);
    };
    let copy = copy_of(alloc, cell)?;
    channel.cells.insert(at + 1, copy)?;
    Ok(())
}

fn copy_at(
    alloc: Global,
    channels: &mut List<Channel>,
    at: usize,
    place: u32,
) -> Result<(), StepFault>
    requires { at < length channels.old }
    ensures { Tries (spec.changed_at at (spec.where_room (spec.on_flight (copied_at place))) channels.old) channels.old result channels.new }
{
    copy_in(alloc, &mut channels.items[at], place)
}

/// The cell in flight at a place between two processes is copied.
pub(crate) fn copy(
    alloc: Global,
    state: &mut State,
    from: u32,
    to: u32,
    place: u32,
) -> Result<(), StepFault>
    requires { HasChannels state.old }
    ensures { Tries (step.channel_changed (spec.where_room (spec.on_flight (copied_at place))) state.old from to) state.old result state.new }
{
    match place_in(state, from, to) {
        Some(at) => copy_at(alloc, &mut state.channels, at, place),
        None => Err(StepFault::NotEnabled),
    }
}

// ---- moves

/// The cell at one place goes towards the end, past those up to another place.
fn move_up(cells: &mut List<Cell>, from: usize, to: usize)
    requires order { from ≤ to }
    requires within { to < length cells.old }
    ensures { (x : _) → slice_get cells.old from ≡ Some x → cells.new ≡ insert (remove cells.old from) to x }
{
    for at in from..to {
        cells.items.swap(at, at + 1);
    }
}

/// The cell at one place goes towards the front, past those up to another place.
fn move_down(cells: &mut List<Cell>, from: usize, to: usize)
    requires order { to ≤ from }
    requires within { from < length cells.old }
    ensures { (x : _) → slice_get cells.old from ≡ Some x → cells.new ≡ insert (remove cells.old from) to x }
{
    for step in 0..from - to {
        cells.items.swap(from - step, from - step - 1);
    }
}

/// The cell in flight at a place is put at another.
fn move_in(channel: &mut Channel, place: u32, target: u32) -> bool
    ensures { Changes (spec.on_flight (moved_to place target) channel.old) channel.old result channel.new }
{
    let from = channel.mark as usize + place as usize;
    let to = channel.mark as usize + target as usize;
    if from >= channel.cells.len() || to >= channel.cells.len() {
        return false;
    }
    if from <= to {
        move_up(&mut channel.cells, from, to);
    } else {
        move_down(&mut channel.cells, from, to);
    }
    true
}

fn move_at(channels: &mut List<Channel>, at: usize, place: u32, target: u32) -> bool
    requires { at < length channels.old }
    ensures { Changes (spec.changed_at at (spec.on_flight (moved_to place target)) channels.old) channels.old result channels.new }
{
    move_in(&mut channels.items[at], place, target)
}

/// The cell in flight at a place between two processes is put at another.
pub(crate) fn shift(state: &mut State, from: u32, to: u32, place: u32, target: u32) -> bool
    requires { HasChannels state.old }
    ensures { Changes (step.flight_changed (moved_to place target) state.old from to) state.old result state.new }
{
    match place_in(state, from, to) {
        Some(at) => move_at(&mut state.channels, at, place, target),
        None => false,
    }
}

// ---- damage

/// The cell in flight at a place becomes another.
fn damage_in(channel: &mut Channel, place: u32, cell: Cell) -> bool
    ensures { Changes (spec.on_flight (changed_to place cell) channel.old) channel.old result channel.new }
{
    let at = channel.mark as usize + place as usize;
    if at >= channel.cells.len() {
        return false;
    }
    channel.cells.set(at, cell);
    true
}

fn damage_at(channels: &mut List<Channel>, at: usize, place: u32, cell: Cell) -> bool
    requires { at < length channels.old }
    ensures { Changes (spec.changed_at at (spec.on_flight (changed_to place cell)) channels.old) channels.old result channels.new }
{
    damage_in(&mut channels.items[at], place, cell)
}

/// The cell in flight at a place between two processes becomes another.
pub(crate) fn damage(state: &mut State, from: u32, to: u32, place: u32, cell: Cell) -> bool
    requires { HasChannels state.old }
    ensures { Changes (step.flight_changed (changed_to place cell) state.old from to) state.old result state.new }
{
    match place_in(state, from, to) {
        Some(at) => damage_at(&mut state.channels, at, place, cell),
        None => false,
    }
}

// ---- forged datagrams

/// One more cell comes at the end.
fn forge_in(channel: &mut Channel, cell: Cell) -> Result<(), StepFault>
    ensures { Tries (spec.appended cell channel.old) channel.old result channel.new }
{
    if channel.cells.len() >= MOST_CELLS {
        return Err(StepFault::NotEnabled);
    }
    channel.cells.push(cell)?;
    Ok(())
}

fn forge_at(channels: &mut List<Channel>, at: usize, cell: Cell) -> Result<(), StepFault>
    requires { at < length channels.old }
    ensures { Tries (spec.changed_at at (spec.appended cell) channels.old) channels.old result channels.new }
{
    forge_in(&mut channels.items[at], cell)
}

/// A cell comes at the end of the channel between two processes.
pub(crate) fn forge(state: &mut State, from: u32, to: u32, cell: Cell) -> Result<(), StepFault>
    requires { HasChannels state.old }
    ensures { Tries (step.channel_changed (spec.appended cell) state.old from to) state.old result state.new }
{
    match place_in(state, from, to) {
        Some(at) => forge_at(&mut state.channels, at, cell),
        None => Err(StepFault::NotEnabled),
    }
}
