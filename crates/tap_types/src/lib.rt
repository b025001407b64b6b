//! The system that a tree names, or the first offence that keeps it from naming one: names, kinds,
//! counts, limits, and sends that someone receives.
#![tactic(auto)]

mod actions;
mod assigns;
mod exprs;
mod fields;
mod kinds;
mod laws;
mod leaves;
mod processes;
mod receivers;
mod resolved;
mod scope;
mod sends;
mod stmts;
mod targets;
mod uses;

pub use laws::{keeps_names, names_one, resolves_whole, tests_are_truths, uses_are_worked};
pub use resolved::resolve;
pub use tap_names::TypeFault;
