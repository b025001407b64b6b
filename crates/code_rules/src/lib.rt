//! The rules that the instructions of register code keep, judged one instruction at a time.
#![tactic(auto)]

mod choices;
mod jumps;
mod naming;
mod nests;
mod place;
mod ranges;
mod results;
mod rules;
mod sending;
mod truths;

pub use nests::Nests;
pub use place::{PartPlace, enter, process_place};
pub use ranges::{both_in, range_at};
pub use rules::first_broken;
