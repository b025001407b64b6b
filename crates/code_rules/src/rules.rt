//! The first rule that an instruction breaks.

ghost use Rattle.std.specs.Prelude.{◌≡◌, true, slice_get};
ghost use Rattle.register_code.specs.Declarations.{fields_fit};
ghost use Rattle.register_code.specs.Rules as spec;
ghost use Rattle.code_rules.specs.Places.{HasTables, seen};

use crate::choices::{delay_fits, has_options, index_fits};
use crate::jumps::{jumps_well, loops_well};
use crate::naming::names_exist;
use crate::place::PartPlace;
use crate::results::result_fits;
use crate::sending::can_send;
use register_code::{Code, Instr};

/// The first rule that is not kept.
fn first_rule(
    names: bool,
    result_kept: bool,
    index: bool,
    options: bool,
    sends: bool,
    jumps: bool,
    loops: bool,
    delay: bool,
) -> Option<u8>
    ensures { result ≡ slice_get (spec.broken_rules names result_kept index options sends jumps loops delay) 0 }
{
    if !names {
        return Some(4);
    }
    if !result_kept {
        return Some(5);
    }
    if !index {
        return Some(6);
    }
    if !options {
        return Some(7);
    }
    if !sends {
        return Some(8);
    }
    if !jumps {
        return Some(9);
    }
    if !loops {
        return Some(10);
    }
    if !delay {
        return Some(13);
    }
    None
}

/// The number of the first rule that an instruction breaks, where it stands at this number among the
/// instructions; `None` where it breaks none. The fields of all messages have to fit, and the tables
/// of the place have to be those of the instructions.
pub fn first_broken(
    code: &Code,
    place: &PartPlace,
    instrs: &[Instr],
    at: usize,
    instr: Instr,
) -> Option<u8>
    requires fields { fields_fit code.now ≡ true }
    requires tables { HasTables instrs.now place.now }
    ensures { result ≡ slice_get (spec.broken (seen code.now instrs.now place.now) at instr) 0 }
{
    first_rule(
        names_exist(code, place, instrs, instr),
        result_fits(code, place, instrs, instr),
        index_fits(code, place, instrs, instr),
        has_options(code, place, instrs, instr),
        can_send(code, place, instrs, instr),
        jumps_well(&place.nests, instrs, at, instr),
        loops_well(&place.nests, instrs, at, instr),
        delay_fits(code, place, instrs, instr),
    )
}
