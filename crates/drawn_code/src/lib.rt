//! Verified code can always come to its end.
#![tactic(auto)]

mod laws;

pub use laws::{bodies_can_end, code_can_end};
