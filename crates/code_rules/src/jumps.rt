//! Jumps go forward and into no loop, and loops are whole and nested.

ghost use Rattle.std.specs.Prelude.{◌≡◌, ◌+◌, ◌<◌, ◌≤◌, ◌==◌, ◌&&◌, Some, length, true};
ghost use Rattle.std.specs.Option.{option_map};
ghost use Rattle.tap_base.specs.Option.{is_yes};
ghost use Rattle.register_code.specs.Jumping as spec;
ghost use Rattle.register_code.specs.Loops as loops;
ghost use Rattle.code_rules.specs.Nests.{AreNests};
ghost use Rattle.code_rules.specs.inner.Bounds as bounds;

use crate::nests::Nests;
use register_code::{Instr, Loop, loop_at};

fn begins_before(begin: Option<u32>, number: usize) -> bool
    ensures { result ≡ bounds.begins_before begin number }
{
    match begin {
        None => true,
        Some(begin) => (begin as usize) < number,
    }
}

fn ends_from(end: Option<u32>, number: u32) -> bool
    ensures { result ≡ bounds.ends_from end number }
{
    match end {
        None => true,
        Some(end) => number <= end,
    }
}

/// Each loop that holds the target holds the jump: the last one to begin does.
fn enters_no_loop(nests: &Nests, instrs: &[Instr], at: usize, target: usize) -> bool
    requires nests { AreNests instrs.now nests.now }
    requires ahead { at < target }
    requires inside { target ≤ length instrs.now }
    ensures { result ≡ spec.enters_no_loop instrs.now at target }
{
    let begin = nests.begins.as_slice()[target];
    begins_before(begin, at)
}

fn jump_fits(nests: &Nests, instrs: &[Instr], at: usize, target: usize) -> bool
    requires nests { AreNests instrs.now nests.now }
    ensures { result ≡ spec.jump_fits instrs.now at target }
{
    if at >= target || target > instrs.len() {
        return false;
    }
    enters_no_loop(nests, instrs, at, target)
}

/// A jump goes forward and into no loop.
pub(crate) fn jumps_well(nests: &Nests, instrs: &[Instr], at: usize, instr: Instr) -> bool
    requires { AreNests instrs.now nests.now }
    ensures { result ≡ spec.jumps_well instrs.now at instr }
{
    match instr {
        Instr::Jump { target } => jump_fits(nests, instrs, at, target as usize),
        Instr::JumpNe {
            a: _,
            imm: _,
            target,
        } => jump_fits(nests, instrs, at, target as usize),
        _ => true,
    }
}

/// No loop overlaps this one but one that holds it, or that it holds. One that begins in it and ends
/// behind it holds the number behind its end; one that begins before it and ends in it holds its
/// beginning.
fn is_nested(nests: &Nests, instrs: &[Instr], begin: usize, found: Loop) -> bool
    requires nests { AreNests instrs.now nests.now }
    requires there { loops.loop_at instrs.now begin ≡ Some found }
    ensures { result ≡ spec.is_nested instrs.now begin found }
{
    let later = nests.begins.as_slice()[found.last as usize + 1];
    let sooner = nests.ends.as_slice()[begin];
    begins_before(later, begin + 1) & ends_from(sooner, found.last)
}

fn is_nested_there(nests: &Nests, instrs: &[Instr], begin: usize) -> bool
    requires { AreNests instrs.now nests.now }
    ensures { result ≡ is_yes (option_map (spec.is_nested instrs.now begin) (loops.loop_at instrs.now begin)) }
{
    match loop_at(instrs, begin) {
        None => false,
        Some(found) => is_nested(nests, instrs, begin, found),
    }
}

fn ends_well(nests: &Nests, instrs: &[Instr], first: usize, at: usize) -> bool
    requires { AreNests instrs.now nests.now }
    ensures { result ≡ is_yes (option_map (λ loop. loop.last == at && spec.is_nested instrs.now first loop) (loops.loop_at instrs.now first)) }
{
    match loop_at(instrs, first) {
        None => false,
        Some(found) => (found.last as usize == at) & is_nested(nests, instrs, first, found),
    }
}

/// Loops are whole and nested.
pub(crate) fn loops_well(nests: &Nests, instrs: &[Instr], at: usize, instr: Instr) -> bool
    requires { AreNests instrs.now nests.now }
    ensures { result ≡ spec.loops_well instrs.now at instr }
{
    match instr {
        Instr::Repeat { count, last } => {
            (at < last as usize)
                & (1 <= count)
                & (count <= 65536)
                & is_nested_there(nests, instrs, at)
        }
        Instr::Again { first } => ends_well(nests, instrs, first as usize, at),
        _ => true,
    }
}
