//! The tokens of a text, or its first offence; and a text with its tokens, from which readers take them.
#![tactic(auto)]

mod classes;
mod fault;
mod found;
mod laws;
mod longest;
mod numbers;
mod source;
mod spellings;
mod steps;
mod tokens;

pub use fault::LexFault;
pub use found::Found;
pub use laws::{one_outcome, same_offences, same_tokens};
pub use source::Source;
pub use spellings::sign_of;
pub use tap_base::{Token, TokenKind};
pub use tokens::lex;
