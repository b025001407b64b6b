//! The loops of a part.

ghost use Rattle.std.specs.Prelude.{◌≡◌};
ghost use Rattle.register_code.specs.Loops as spec;

use crate::instr::Instr;
use tap_base::item;

/// The number of the instruction that a loop ends at, and how often the loop runs.
#[derive(Clone, Copy, Debug, PartialEq, Eq)]
pub struct Loop {
    pub last: u32,
    pub count: u32,
}

/// What a `Repeat` says of its loop; `None` of any other instruction.
pub fn begun_by(instr: Instr) -> Option<Loop>
    ensures { result ≡ spec.begun_by instr }
{
    match instr {
        Instr::Repeat { count, last } => Some(Loop { last, count }),
        _ => None,
    }
}

/// The number that an `Again` names; `None` of any other instruction.
pub fn ended_by(instr: Instr) -> Option<u32>
    ensures { result ≡ spec.ended_by instr }
{
    match instr {
        Instr::Again { first } => Some(first),
        _ => None,
    }
}

/// The loop that begins at a number: a `Repeat` there that names an `Again` that names the number.
pub fn loop_at(instrs: &[Instr], begin: usize) -> Option<Loop>
    ensures { result ≡ spec.loop_at instrs.now begin }
{
    let found = begun_by(*item(instrs, begin)?)?;
    let first = ended_by(*item(instrs, found.last as usize)?)?;
    if first as usize == begin {
        Some(found)
    } else {
        None
    }
}
