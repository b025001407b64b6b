//! The choice among enabled actions: the first one in cyclic order, from where the last choice ended.
#![tactic(auto)]

mod laws;
mod turnstile;

pub use laws::{comes_nearer, is_fair, one_is_first};
pub use turnstile::Turnstile;
