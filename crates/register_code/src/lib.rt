//! Register code: what a program in it holds, what its instructions do, and the rules that it keeps.
#![tactic(auto)]

mod bad;
mod code;
mod instr;
mod loops;
mod wires;

pub use bad::{BadCode, Part, VerifyFault};
pub use code::{
    Code, CodeAction, CodeField, CodeInput, CodeKind, CodeMessage, CodeProcess, CodeTemporary,
    CodeVariable,
};
pub use instr::Instr;
pub use loops::{Loop, begun_by, ended_by, loop_at};
