//! What bytes mean to the process that takes them.
#![tactic(auto)]

mod cell;
mod laws;
mod messages;
mod reading;
mod spelling;
mod worked;

pub use cell::Cell;
pub use laws::{meaning_is_meant, receivers_are_the_same, spellings_mean};
pub use messages::meaning;
pub use spelling::spell;
pub use worked::{meanings_are_worked, patterns_are_worked};
