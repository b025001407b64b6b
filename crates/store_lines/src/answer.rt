//! What the next line is answered by, and why no further one comes.

ghost use Rattle.std.specs.Prelude.{◌≡◌};
ghost use Rattle.store_lines.specs.Lines.{answer_to};
ghost use Rattle.store_lines.specs.declared.answer.Stop.TheVariants as stop;

use link_trait::Failed;
use std::alloc::AllocError;

/// What the call for the next line found.
#[derive(Clone, Copy, Debug, PartialEq, Eq)]
pub enum NextLine {
    /// A line.
    Line,
    /// The end: no byte is left.
    End,
    /// The line has more than 33,554,432 bytes.
    TooLong,
    /// A call of the store failed.
    ReadFault,
    /// Memory was refused.
    NoMemory,
}

/// Why no further line is given.
#[derive(Clone, Copy, Debug, PartialEq, Eq)]
pub(crate) enum Stop {
    TooLong,
    ReadFault,
    NoMemory,
}

impl Stop {
    /// What is answered from then on.
    pub(crate) fn answer(self) -> NextLine
        ensures { result ≡ answer_to self }
    {
        match self {
            Stop::TooLong => NextLine::TooLong,
            Stop::ReadFault => NextLine::ReadFault,
            Stop::NoMemory => NextLine::NoMemory,
        }
    }
}

impl From<Failed> for Stop {
    ghost from_gives = { λ _ e. e ≡ stop.ReadFault };

    fn from(_e: Failed) -> Stop {
        Stop::ReadFault
    }
}

impl From<AllocError> for Stop {
    ghost from_gives = { λ _ e. e ≡ stop.NoMemory };

    fn from(_e: AllocError) -> Stop {
        Stop::NoMemory
    }
}
