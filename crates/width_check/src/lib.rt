//! The check of a resolved system: no value leaves its width, no divisor may be 0, no index leaves
//! its array, and no action costs or sends too much.
#![tactic(auto)]

mod actions;
mod checked;
mod costs;
mod counts;
mod expressions;
mod fault;
mod intervals;
mod reads;
mod sendings;
mod sends;
mod simple;
mod statements;
mod worked;

pub use checked::{Checked, check};
pub use fault::WidthFault;
pub use worked::widths_are_worked;
