//! The lines of what is left of a store, one after another.
#![tactic(auto)]

mod answer;
mod held;
mod laws;
mod line;
mod lines;

pub use answer::NextLine;
pub use laws::{in_order, one_answer};
pub use lines::Lines;
