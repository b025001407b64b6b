//! Why a system is not checked.

ghost use Rattle.std.specs.Prelude.{◌≡◌};
ghost use Rattle.width_check.specs.declared.fault.WidthFault.TheVariants as fault;

use tap_base::{NoMemory, Refusal};

/// Why a system is not checked: its first offence, or refused memory.
#[derive(Clone, Copy, Debug, PartialEq, Eq)]
pub enum WidthFault {
    Refused(Refusal),
    NoMemory,
}

impl From<NoMemory> for WidthFault {
    ghost from_gives = { λ _ e. e ≡ fault.NoMemory };

    fn from(_e: NoMemory) -> WidthFault {
        WidthFault::NoMemory
    }
}
