//! From tokens to the expression that they spell.
#![tactic(auto)]

mod atoms;
mod chains;
mod depth;
mod fault;
mod found;
mod laws;
mod nodes;
mod places;
mod signs;
mod start;
mod whole;

pub use depth::first_too_deep;
pub use fault::ParseFault;
pub use found::{Built, Stuck};
pub use laws::{expressions_are_worked, one_end, one_front, one_tree};
pub use places::place_at;
pub use whole::{parse_expr, read_expr};
