//! The canonical text of a tree.
#![tactic(auto)]

mod declarations;
mod exprs;
mod joints;
mod laws;
mod level;
mod pen;
mod spellings;
mod stmts;
mod whole;
mod written;

pub use laws::{
    canonical_texts_are_worked, fewest, limits_kept, read_again, spelled_again, tokens_again,
};
pub use whole::print;
