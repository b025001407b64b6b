//! The definitions of a run worked on small cases: laws that no other crate needs.
#![tactic(auto)]

mod faults;
mod worked;

pub use faults::{faults_are_worked, stops_are_worked};
pub use worked::{
    fitting_is_worked, losses_are_worked, messages_are_worked, spellings_are_worked,
    steps_are_worked,
};
