//! Why an event was not served.

ghost use Rattle.std.specs.Prelude.{◌≡◌};
ghost use Rattle.world_run.specs.declared.fault.WorldFault.TheVariants as fault;

use std::alloc::AllocError;
use tap_base::NoMemory;

/// Why an event was not served.
#[derive(Clone, Copy, Debug, PartialEq, Eq)]
pub enum WorldFault {
    /// So many cells stand in the channels: more than 99,936.
    Full { cells: u32 },
    /// Memory was refused within an earlier event.
    Ended,
    /// Memory was refused.
    NoMemory,
}

impl From<NoMemory> for WorldFault {
    ghost from_gives = { λ _ e. e ≡ fault.NoMemory };

    fn from(_e: NoMemory) -> WorldFault {
        WorldFault::NoMemory
    }
}

impl From<AllocError> for WorldFault {
    ghost from_gives = { λ _ e. e ≡ fault.NoMemory };

    fn from(_e: AllocError) -> WorldFault {
        WorldFault::NoMemory
    }
}
