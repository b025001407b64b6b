//! Why tokens have no tree.

use tap_base::{NoMemory, Refusal};

/// Why tokens have no tree.
#[derive(Clone, Copy, Debug, PartialEq, Eq)]
pub enum ParseFault {
    /// The tokens have this first offence.
    Refused(Refusal),
    /// Memory was refused.
    NoMemory,
}
