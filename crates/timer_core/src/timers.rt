//! Timers that are armed, become due at a reading of the clock, and are turned off.

ghost use Rattle.std.specs.Prelude.{◌≡◌, ◌≤◌, ◌<◌, ◌^◌, ◌∷◌, map, length, replicate, slice_get, slice_set, Some, IfOk, MatchOption};
ghost use Rattle.std.specs.Option.{option_map};
ghost use Rattle.tap_base.specs.Lists.{Each};
ghost use Rattle.abstract_run.specs.Enabled.{is_due};
ghost use Rattle.abstract_run.specs.Fits.{IsFitTimer};
ghost use Rattle.abstract_run.specs.Step.{time_after, timer_after as later};
ghost use Rattle.timer_core.specs.Due.{IsNextDue, NoneIsDue};
ghost use Rattle.timer_core.specs.inner.Sooner.{sooner};

use std::alloc::Global;
use std::marker::Model;
use tap_base::{List, NoMemory};
use tap_exec::TimerState;

/// The greatest time of a process, in milliseconds.
const LAST_TIME: u64 = 1 << 62;

/// The timers of a process, and its time, in milliseconds: the greatest reading so far, up to 2^62.
#[derive(Debug, Drop)]
pub struct Timers {
    time: u64,
    states: List<TimerState>,
}

impl Model for Timers {
    ghost use Rattle.std.specs.Prelude.{◌≤◌, ◌^◌};
    ghost use Rattle.tap_base.specs.Lists.{Each};
    ghost use Rattle.abstract_run.specs.Fits.{IsFitTimer};
    ghost use Rattle.timer_core.specs.Timing.{Timing};

    ghost Value = { Timing };

    ghost view = { λ t. record { time = t.time; states = t.states } };

    ghost invariant = { λ t. (t.time ≤ 2 ^ 62) × Each IsFitTimer t.states };
}

impl Timers {
    /// So many timers, all off, at time 0. No other call takes memory.
    pub fn new(alloc: Global, count: u32) -> Result<Timers, NoMemory>
        ensures { IfOk result (λ t. t ≡ record { time = 0; states = replicate count TimerState.Off }) }
    {
        let mut states = List::new(alloc);
        for _ in 0..count {
            states.push(TimerState::Off)?;
        }
        Ok(Timers { time: 0, states })
    }

    /// Arms a timer with a delay in milliseconds, whatever its state was. The next reading dates it.
    pub fn start(&mut self, timer: u32, delay: u32)
        requires { timer < length self.old.states }
        ensures { self.new ≡ record self.old { states = slice_set self.old.states timer (TimerState.Armed delay) } }
    {
        self.states.set(timer as usize, TimerState::Armed { delay });
    }

    /// Turns a timer off: one that is stopped, or whose timeout runs.
    pub fn stop(&mut self, timer: u32)
        requires { timer < length self.old.states }
        ensures { self.new ≡ record self.old { states = slice_set self.old.states timer TimerState.Off } }
    {
        self.states.set(timer as usize, TimerState::Off);
    }

    /// Takes a reading of the clock, in milliseconds: a later one is the time from now on. Every armed
    /// timer becomes due at the time plus its delay.
    pub fn tick(&mut self, reading: u64)
        ensures { let time = time_after self.old.time reading in self.new ≡ record { time = time; states = map (later time) self.old.states } }
    {
        self.time = self.time.max(reading.min(LAST_TIME));
        date_all(&mut self.states, self.time);
    }

    /// Whether a timer is due by now.
    pub fn due(&self, timer: u32) -> bool
        requires { timer < length self.now.states }
        ensures { option_map (is_due self.now.time) (slice_get self.now.states timer) ≡ Some result }
    {
        is_due_by(self.states.items[timer as usize], self.time)
    }

    /// The time, in milliseconds.
    pub fn time(&self) -> u64
        ensures time { result ≡ self.now.time }
        ensures within { result ≤ 2 ^ 62 }
        ensures fit { Each IsFitTimer self.now.states }
    {
        self.time
    }

    /// The least time at which a timer is due, in milliseconds, whether that is past or to come. `None`
    /// exactly where no timer is in the state `Due`.
    pub fn next_due(&self) -> Option<u64>
        ensures { MatchOption result (NoneIsDue self.now.states) (IsNextDue self.now.states) }
    {
        least_due(self.states.as_slice())
    }
}

fn is_due_by(state: TimerState, time: u64) -> bool
    ensures { result ≡ is_due time state }
{
    match state {
        TimerState::Due { at } => at <= time,
        _ => false,
    }
}

/// The state of a timer after a reading that made this the time.
fn dated(state: TimerState, time: u64) -> TimerState
    requires { time ≤ 2 ^ 62 }
    ensures { result ≡ later time state }
{
    match state {
        TimerState::Armed { delay } => TimerState::Due {
            at: time + u64::from(delay),
        },
        _ => state,
    }
}

fn date_all(states: &mut List<TimerState>, time: u64)
    requires { time ≤ 2 ^ 62 }
    ensures { states.new ≡ map (later time) states.old }
{
    for at in 0..states.len() {
        let state = dated(states.items[at], time);
        states.set(at, state);
    }
}

fn least_due(states: &[TimerState]) -> Option<u64>
    ensures { MatchOption result (NoneIsDue states.now) (IsNextDue states.now) }
{
    let mut least = None;
    for state in states {
        least = earlier(least, *state);
    }
    least
}

/// The lesser of the times that are known and that of a timer which is due.
fn earlier(least: Option<u64>, state: TimerState) -> Option<u64>
    ensures { result ≡ sooner least state }
{
    match state {
        TimerState::Due { at } => Some(match least {
            Some(known) => known.min(at),
            None => at,
        }),
        _ => least,
    }
}
