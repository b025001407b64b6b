//! The bodies of a system that is judged right keep its ranges, and 64-bit numbers compute them.
#![tactic(auto)]

mod laws;

pub use laws::{bodies_are_sound, bodies_go_on};
