//! A text is read as a tree, is accepted as a system, or has a first offence.
#![tactic(auto)]

mod accepted;
mod laws;
mod layouts;
mod offence;
mod texts;

pub use accepted::acceptance;
pub use laws::{
    accepted_is_checked, accepted_is_safe, accepted_runs, accepted_spellings_mean,
    names_tell_apart, never_refused, one_offence, one_system_of_text, one_tree_of_text,
    printed_again, resolved_is_whole, var_names_tell_apart,
};
pub use offence::{Offence, refused_line};
pub use texts::{LONGEST_TEXT, TOO_LONG, TextFault, accept, tree_of};
