//! The choices of a body can be drawn, in a system that is judged right: each option leads on to the body's end.
#![tactic(auto)]

mod laws;

pub use laws::{actions_are_drawn, bodies_are_drawn};
