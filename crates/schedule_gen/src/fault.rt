//! Why a schedule is not made to its end.

use link_trait::Failed;
use tap_base::NoMemory;

/// Why a schedule is not made to its end.
#[derive(Clone, Copy, Debug, PartialEq, Eq)]
pub enum MakeFault {
    /// A put failed.
    WriteFault,
    /// Memory was refused.
    NoMemory,
}

impl From<NoMemory> for MakeFault {
    ghost use Rattle.std.specs.Prelude.{◌≡◌};
    ghost use Rattle.schedule_gen.specs.declared.fault.MakeFault.TheVariants as fault;

    ghost from_gives = { λ _ e. e ≡ fault.NoMemory };

    fn from(_e: NoMemory) -> MakeFault {
        MakeFault::NoMemory
    }
}

impl From<Failed> for MakeFault {
    ghost use Rattle.std.specs.Prelude.{◌≡◌};
    ghost use Rattle.schedule_gen.specs.declared.fault.MakeFault.TheVariants as fault;

    ghost from_gives = { λ _ e. e ≡ fault.WriteFault };

    fn from(_e: Failed) -> MakeFault {
        MakeFault::WriteFault
    }
}
