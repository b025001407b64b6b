//! Tests of lines: those of schedules and those of traces, between two processes a and b.
#![tactic(auto)]

#[cfg(test)]
mod entries;
#[cfg(test)]
mod events;
#[cfg(test)]
mod names;
