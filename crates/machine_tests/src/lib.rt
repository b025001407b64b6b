//! Tests of machines that run register code.
#![tactic(auto)]

#[cfg(test)]
mod programs;
#[cfg(test)]
mod runs;
#[cfg(test)]
mod suiting;
