//! Why a text is not the trace of a run.

ghost use Rattle.std.specs.Prelude.{◌≡◌};
ghost use Rattle.replay.specs.declared.fault.ReplayFault.TheVariants as fault;

use link_trait::Failed;
use std::alloc::AllocError;
use tap_base::NoMemory;

/// Why a text is not the trace of a run.
#[derive(Clone, Copy, Debug, PartialEq, Eq)]
pub enum ReplayFault {
    /// The line of this number, counted from 1, is in no grammar, stands behind `end`, is one too many,
    /// or is the missing `end`.
    BadLine { number: u64 },
    /// No run goes on with the line of this number.
    NotARun { line: u64 },
    /// A call of the store failed.
    ReadFault,
    /// Memory was refused.
    NoMemory,
}

impl From<NoMemory> for ReplayFault {
    ghost from_gives = { λ _ e. e ≡ fault.NoMemory };

    fn from(_e: NoMemory) -> ReplayFault {
        ReplayFault::NoMemory
    }
}

impl From<AllocError> for ReplayFault {
    ghost from_gives = { λ _ e. e ≡ fault.NoMemory };

    fn from(_e: AllocError) -> ReplayFault {
        ReplayFault::NoMemory
    }
}

impl From<Failed> for ReplayFault {
    ghost from_gives = { λ _ e. e ≡ fault.ReadFault };

    fn from(_e: Failed) -> ReplayFault {
        ReplayFault::ReadFault
    }
}
