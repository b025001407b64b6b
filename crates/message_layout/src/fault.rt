//! Why a wire has no layout.

ghost use Rattle.std.specs.Prelude.{◌≡◌};
ghost use Rattle.message_layout.specs.declared.fault.LayoutFault.TheVariants as fault;

use tap_base::NoMemory;

/// Why a wire has no layout.
#[derive(Clone, Copy, Debug, PartialEq, Eq)]
pub enum LayoutFault {
    /// The first message of more than 8,192 bits.
    TooLong { message: u32 },
    /// The first two messages that one process receives from one other and that are not told apart.
    NotApart { first: u32, second: u32 },
    NoMemory,
}

impl From<NoMemory> for LayoutFault {
    ghost from_gives = { λ _ e. e ≡ fault.NoMemory };

    fn from(_e: NoMemory) -> LayoutFault {
        LayoutFault::NoMemory
    }
}
