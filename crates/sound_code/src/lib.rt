//! Verified code ends within its cost and keeps every register in its range.
#![tactic(auto)]

mod laws;

pub use laws::{
    bodies_run, code_begins_in_range, code_keeps_ranges, guards_run, parts_end, runs_are_steps,
    steps_fit, steps_join,
};
