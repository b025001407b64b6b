//! Traces, judged: whether a text is the trace of a run, and which of its lines is the first that shows
//! that it is none.
#![tactic(auto)]

mod check;
mod due;
mod fault;
mod given;
mod judge;
mod laws;
mod passed;
mod reader;

pub use check::{check_text, check_trace};
pub use fault::ReplayFault;
pub use given::Given;
pub use judge::Judge;
pub use laws::one_verdict;
pub use passed::{Passed, Refusal};
