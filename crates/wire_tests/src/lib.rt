//! Tests of the layout of wires and of the bytes of messages. Each wire is a small one, and each row was worked by hand.
#![tactic(auto)]

#[cfg(test)]
mod bytes;
pub mod calls;
pub mod conditions;
#[cfg(test)]
mod layouts;
pub mod wires;
