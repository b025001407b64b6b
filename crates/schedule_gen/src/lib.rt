//! Schedules that the words of a generator make, and their text.
#![tactic(auto)]

mod fault;
mod generator;
mod laws;
mod pages;
mod routes;
mod rows;
mod writing;

pub use fault::MakeFault;
pub use generator::Generator;
pub use laws::{
    rows_are_worked, schedules_are_read, schedules_are_slow, schedules_go_on, schedules_keep_faults,
};
pub use routes::Route;
pub use writing::make;
