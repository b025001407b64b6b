//! Runs the code of one process.
#![tactic(auto)]

mod machine;
mod making;
mod running;
mod steps;

pub use drawn_steps::{Outbox, Sent};
pub use machine::Machine;
pub use steps::Steps;
