//! What judging a line answers.

ghost use Rattle.std.specs.Prelude.{◌≡◌};
ghost use Rattle.replay.specs.declared.passed.Refusal.TheVariants as refusal;

use tap_base::NoMemory;

/// What a line was that a trace can go on with.
#[derive(Clone, Copy, Debug, PartialEq, Eq)]
pub enum Passed {
    /// The line of a label. The state is now the one behind it.
    Label,
    /// A line that had to come: that of a datagram, of a variable, or the end.
    Due,
}

/// Why a trace does not go on with a line.
#[derive(Clone, Copy, Debug, PartialEq, Eq)]
pub enum Refusal {
    /// The line is in no grammar, or stands behind the end.
    BadLine,
    /// The line is no possible step, or not the line that had to come.
    NotARun,
    /// Memory was refused.
    NoMemory,
}

impl From<NoMemory> for Refusal {
    ghost from_gives = { λ _ e. e ≡ refusal.NoMemory };

    fn from(_e: NoMemory) -> Refusal {
        Refusal::NoMemory
    }
}
