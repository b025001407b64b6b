//! Words draw the choices of register code.
#![tactic(auto)]

mod laws;

pub use laws::choices_are_draws;
