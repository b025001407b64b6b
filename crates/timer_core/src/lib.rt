//! The timers of one process, and its time.
#![tactic(auto)]

mod timers;

pub use timers::Timers;
