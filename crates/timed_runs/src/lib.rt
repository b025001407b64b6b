//! Timers in whole runs: no timeout comes before its delay.
#![tactic(auto)]

mod laws;

pub use laws::delays_are_kept;
