//! Which action of a process runs, where several are enabled: they take their turns in cyclic order. And which error a
//! process rejects, where several have arrived: the one that arrived first. And which choices it takes: those that the words
//! of its generator draw.
#![tactic(auto)]

mod laws;
mod worked;

pub use laws::{one_choice, one_draw, one_reject};
pub use worked::{choice_is_worked, order_is_worked};
