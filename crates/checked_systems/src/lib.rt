//! What holds of every checked system.
#![tactic(auto)]

mod laws;

pub use laws::{checked_is_sound, checked_runs};
