//! What a body changes as it runs.

use tap_base::List;

/// The cells and timers of a process while a body of it runs, what was sent so far, and what gives it
/// its choices.
#[derive(Debug, Drop)]
pub struct Running<C> {
    /// The cells of all variables, in order of declaration.
    pub cells: List<i64>,
    pub timers: List<TimerState>,
    /// The sends so far, in send order.
    pub sends: List<Outgoing>,
    pub choices: C,
}

/// A timer of a process. Times and delays are in milliseconds.
#[derive(Clone, Copy, Debug)]
pub enum TimerState {
    /// Stopped, or never started.
    Off,
    /// Started in this turn: it becomes due this long after the next reading of the clock.
    Armed { delay: u32 },
    /// Its timeout is enabled from this time on.
    Due { at: u64 },
}

/// A send of an action.
#[derive(Debug, Drop)]
pub struct Outgoing {
    /// The number of the receiver.
    pub to: u32,
    pub message: u32,
    /// A value for each field, the fixed ones included.
    pub values: List<i64>,
}
