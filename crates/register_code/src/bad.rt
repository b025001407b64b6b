//! Why code is refused.

ghost use Rattle.std.specs.Prelude.{◌≡◌};
ghost use Rattle.register_code.specs.declared.bad.VerifyFault.TheVariants as fault;

use tap_base::NoMemory;

/// The guard or the body of an action.
#[derive(Clone, Copy, Debug, PartialEq, Eq)]
pub enum Part {
    Guard,
    Body,
}

/// The first rule that code breaks, by process, action, part, instruction and rule; all but rules
/// count from 0. Limits, names and the fields of messages stand at the beginning of the program, inputs
/// and variables at that of their process, temporaries and the kind of a guard at that of their action,
/// and what a whole part costs and sends at its last instruction.
#[derive(Clone, Copy, Debug, PartialEq, Eq)]
pub struct BadCode {
    pub process: u32,
    pub action: u32,
    pub part: Part,
    pub instr: u32,
    pub rule: u8,
}

/// Why code is not verified: it breaks a rule, or memory was refused.
#[derive(Clone, Copy, Debug, PartialEq, Eq)]
pub enum VerifyFault {
    Bad(BadCode),
    NoMemory,
}

impl From<NoMemory> for VerifyFault {
    ghost from_gives = { λ _ e. e ≡ fault.NoMemory };

    fn from(_e: NoMemory) -> VerifyFault {
        VerifyFault::NoMemory
    }
}
