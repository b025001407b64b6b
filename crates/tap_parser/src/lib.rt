//! From tokens to the tree that they spell.
#![tactic(auto)]

mod actions;
mod bounds;
mod declarations;
mod exprs;
mod forms;
mod kept;
mod laws;
mod leaves;
mod lists;
mod nodes;
mod processes;
mod simple;
mod stmts;
mod vars;
mod whole;

pub use laws::{one_text, one_text_end, one_text_front};
pub use tap_expr::ParseFault;
pub use whole::parse;
