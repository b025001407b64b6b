//! Why a tree names no system.

ghost use Rattle.std.specs.Prelude.{◌≡◌};

use std::alloc::AllocError;
use tap_base::{NoMemory, Place, Refusal, RefusalCode};

/// Why a tree names no system: its first offence, or refused memory.
#[derive(Clone, Copy, Debug, PartialEq, Eq)]
pub enum TypeFault {
    Refused(Refusal),
    NoMemory,
}

impl From<NoMemory> for TypeFault {
    ghost use Rattle.tap_names.specs.declared.fault.TypeFault.TheVariants as fault;

    ghost from_gives = { λ _ e. e ≡ fault.NoMemory };

    fn from(_e: NoMemory) -> TypeFault {
        TypeFault::NoMemory
    }
}

impl From<AllocError> for TypeFault {
    ghost use Rattle.tap_names.specs.declared.fault.TypeFault.TheVariants as fault;

    ghost from_gives = { λ _ e. e ≡ fault.NoMemory };

    fn from(_e: AllocError) -> TypeFault {
        TypeFault::NoMemory
    }
}

impl From<Refusal> for TypeFault {
    ghost use Rattle.tap_names.specs.declared.fault.TypeFault.TheVariants as fault;

    ghost from_gives = { λ r e. e ≡ fault.Refused r };

    fn from(refusal: Refusal) -> TypeFault {
        TypeFault::Refused(refusal)
    }
}

/// An offence, by its code and its place.
pub fn refusal(code: RefusalCode, place: Place) -> Refusal
    ensures { result ≡ record { code = code; place = place } }
{
    Refusal { code, place }
}
