//! Tests of schedules that are made from a seed.
#![tactic(auto)]

#[cfg(test)]
mod made;
