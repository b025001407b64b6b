//! Why a text has no tokens.

use tap_base::{NoMemory, Refusal};

/// Why a text has no tokens.
#[derive(Clone, Copy, Debug, PartialEq, Eq)]
pub enum LexFault {
    /// The text has this first offence.
    Refused(Refusal),
    /// Memory was refused.
    NoMemory,
}

impl From<NoMemory> for LexFault {
    ghost use Rattle.std.specs.Prelude.{◌≡◌};
    ghost use Rattle.tap_lexer.specs.declared.fault.LexFault.TheVariants as fault;

    ghost from_gives = { λ _ e. e ≡ fault.NoMemory };

    fn from(_e: NoMemory) -> LexFault {
        LexFault::NoMemory
    }
}

impl From<Refusal> for LexFault {
    ghost use Rattle.std.specs.Prelude.{◌≡◌};
    ghost use Rattle.tap_lexer.specs.declared.fault.LexFault.TheVariants as fault;

    ghost from_gives = { λ refusal e. e ≡ fault.Refused refusal };

    fn from(refusal: Refusal) -> LexFault {
        LexFault::Refused(refusal)
    }
}
