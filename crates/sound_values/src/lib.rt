//! Values of expressions lie in their intervals, and 64-bit numbers compute them.
#![tactic(auto)]

mod laws;

pub use laws::{fields_are_sound, values_are_sound};
