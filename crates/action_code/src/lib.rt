//! The verifier of register code.
#![tactic(auto)]

mod breaks;
mod costs;
mod declarations;
mod laws;
mod limits;
mod uses;
mod verifier;

pub use laws::breaks_are_in_order;
pub use register_code::{
    BadCode, Code, CodeAction, CodeField, CodeInput, CodeKind, CodeMessage, CodeProcess,
    CodeTemporary, CodeVariable, Instr, Part, VerifyFault,
};
pub use uses::{Uses, uses_of};
pub use verifier::{Verified, verify};
