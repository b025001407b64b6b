//! A world runs on generated events, and its labels are counted.
#![tactic(auto)]

mod soaking;
mod tally;

pub use soaking::soak;
pub use tally::Tally;
