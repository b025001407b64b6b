//! Tests of the bytes of messages, of the whole language. Each row was worked by hand.
#![tactic(auto)]

#[cfg(test)]
mod meanings;
