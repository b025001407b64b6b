//! Single instructions of register code, done on registers and counters.
#![tactic(auto)]

mod arithmetic;
mod guard;
mod plain;
mod registers;
mod spare;

pub use guard::{instr_at, judge};
pub use plain::move_on;
pub use registers::Core;
pub use spare::push_spare;
