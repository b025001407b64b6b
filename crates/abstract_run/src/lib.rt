//! The abstract system: the state of a run, its steps, and the spelling of messages.
#![tactic(auto)]

mod acting;
mod acts;
mod arrivals;
mod bodies;
mod channels;
mod enabling;
mod faults;
mod guards;
mod label;
mod laws;
mod opening;
mod sending;
mod state;
mod steps;
mod stops;
mod ticks;

pub use acting::act_by;
pub use acts::Performed;
pub use byte_meaning::{Cell, meaning, spell};
pub use enabling::enabled;
pub use label::{Event, Label};
pub use laws::{actions_go_on, falls_go_on, same_steps, steps_keep_fitting, ticks_go_on};
pub use opening::init;
pub use state::{Channel, Falling, State, StepFault};
pub use steps::step;
pub use tap_exec::{Choices, Outgoing, Running, TimerState};
