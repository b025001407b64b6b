//! Values of expressions, and what statements do to the cells and timers of a process.
#![tactic(auto)]

mod assign;
mod choices;
mod evaluate;
mod execute;
mod fields;
mod laws;
mod running;
mod worked;

pub use choices::Choices;
pub use evaluate::try_eval;
pub use execute::exec_all;
pub use fields::fill;
pub use laws::choices_are_front;
pub use running::{Outgoing, Running, TimerState};
pub use worked::statements_are_worked;
