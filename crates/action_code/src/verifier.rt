//! The verifier.

ghost use Rattle.std.specs.Prelude.{◌≡◌};
ghost use Rattle.register_code.specs.Verified.{IsVerified, Verifies};

use crate::breaks::code_break;
use register_code::{Code, VerifyFault};
use std::alloc::Global;
use std::marker::Model;
use tap_base::NoMemory;

/// Code that breaks no rule. Contracts see it as the code.
#[derive(Debug, Drop)]
pub struct Verified {
    code: Code,
}

impl Model for Verified {
    ghost use Rattle.register_code.specs.declared.code.Code.{Code};
    ghost use Rattle.register_code.specs.Verified.{IsVerified};

    ghost Value = { Code };

    ghost view = { λ v. v.code };

    ghost invariant = { λ v. IsVerified v.code };
}

impl Verified {
    /// The code, which breaks no rule.
    pub fn code(&self) -> &Code
        ensures value { result.now ≡ self.now }
        ensures verified { IsVerified self.now }
    {
        &self.code
    }
}

/// The code as verified, or the code unchanged with the first rule that it breaks, by process,
/// action, part, instruction and rule.
///
/// `Bad` comes exactly where a rule is broken: V1 limits and names, V2 ranges, V3 guards, V4 what is
/// named, V5 results, V6 indexes, V7 options, V8 sends, V9 jumps, V10 loops, V11 a cost above
/// 16,000,000, V12 more than 64 sends, V13 delays. `NoMemory` comes where memory was refused.
pub fn verify(alloc: Global, code: Code) -> Result<Verified, (Code, VerifyFault)>
    ensures { Verifies code result }
{
    match code_break(alloc, &code) {
        Err(NoMemory) => Err((code, VerifyFault::NoMemory)),
        Ok(Some(bad)) => Err((code, VerifyFault::Bad(bad))),
        Ok(None) => Ok(Verified { code }),
    }
}
