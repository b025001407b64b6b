//! Of each number of a part, the loop that holds it and begins last, and the one that ends first.

ghost use Rattle.std.specs.Prelude.{◌≡◌, ◌+◌, ◌<◌, ◌≤◌, ◌^◌, Some, None, length, replicate, slice_get, IfOk};
ghost use Rattle.register_code.specs.Loops as loops;
ghost use Rattle.code_rules.specs.Nests as spec;

use register_code::{Instr, Loop, ended_by, loop_at};
use std::alloc::Global;
use tap_base::{List, NoMemory, item};

/// Of each number of a part up to its length, where the last loop to begin of those that hold it
/// begins; and of each instruction, where the first loop to end of those that hold it ends.
#[derive(Debug, Drop)]
pub struct Nests {
    pub begins: List<Option<u32>>,
    pub ends: List<Option<u32>>,
}

fn is_held(begin: usize, found: Loop, number: usize) -> bool
    ensures { result ≡ loops.is_held begin found number }
{
    (begin < number) & (number <= found.last as usize)
}

/// A loop begins there and holds the number.
fn is_held_from(instrs: &[Instr], begin: usize, number: usize) -> bool
    ensures { result ≡ loops.is_held_from instrs.now begin number }
{
    match loop_at(instrs, begin) {
        None => false,
        Some(found) => is_held(begin, found, number),
    }
}

fn held_until(instrs: &[Instr], end: usize, number: usize) -> Option<bool>
    ensures { result ≡ spec.held_until instrs.now end number }
{
    let begin = ended_by(*item(instrs, end)?)? as usize;
    let found = loop_at(instrs, begin)?;
    Some((found.last as usize == end) & is_held(begin, found, number))
}

/// A loop ends there and holds the number.
fn is_held_until(instrs: &[Instr], end: usize, number: usize) -> bool
    ensures { result ≡ spec.is_held_until instrs.now end number }
{
    match held_until(instrs, end, number) {
        None => false,
        Some(held) => held,
    }
}

/// Where the last loop to begin of those that hold the number behind `at` begins. Each loop that
/// goes on behind another one's end, and began before it, holds that one's beginning.
fn latest_behind(instrs: &[Instr], begins: &[Option<u32>], at: u32) -> Option<u32>
    requires table { spec.AreLatest instrs.now begins.now }
    requires so_far { at < length begins.now }
    ensures { spec.IsLatest instrs.now (at + 1) result }
{
    let mut begin = Some(at);
    'outward: while let Some(b) = begin {
        if is_held_from(instrs, b as usize, at as usize + 1) {
            return begin;
        }
        begin = begins[b as usize];
    }
    None
}

fn latest_begins(alloc: Global, instrs: &[Instr]) -> Result<List<Option<u32>>, NoMemory>
    requires { length instrs.now < 2 ^ 32 }
    ensures latest { IfOk result (spec.AreLatest instrs.now) }
    ensures all { IfOk result (λ begins. length begins ≡ length instrs.now + 1) }
{
    let mut begins = List::new(alloc);
    begins.push(None)?;
    'numbers: for at in 0..instrs.len() {
        let begin = latest_behind(instrs, begins.as_slice(), at as u32);
        begins.push(begin)?;
    }
    Ok(begins)
}

fn entry(ends: &[Option<u32>], number: usize) -> Option<u32>
    ensures { result ≡ spec.entry ends.now number }
{
    *item(ends, number)?
}

/// Where the first loop to end of those that hold the number ends. Each loop that began before
/// another one does, and ends behind it, holds the number behind that one's end.
fn soonest_from(instrs: &[Instr], ends: &[Option<u32>], at: u32) -> Option<u32>
    requires all { length ends.now ≡ length instrs.now }
    requires few { length instrs.now < 2 ^ 32 }
    requires table { spec.AreSoonest instrs.now (at + 1) ends.now }
    ensures { spec.IsSoonest instrs.now at result }
{
    let mut end = Some(at);
    'onward: while let Some(e) = end {
        if is_held_until(instrs, e as usize, at as usize) {
            return end;
        }
        end = entry(ends, e as usize + 1);
    }
    None
}

fn no_ends(alloc: Global, count: usize) -> Result<List<Option<u32>>, NoMemory>
    ensures { IfOk result (λ ends. ends ≡ replicate count None) }
{
    let mut ends = List::new(alloc);
    'entries: for _i in 0..count {
        ends.push(None)?;
    }
    Ok(ends)
}

fn soonest_ends(alloc: Global, instrs: &[Instr]) -> Result<List<Option<u32>>, NoMemory>
    requires { length instrs.now < 2 ^ 32 }
    ensures soonest { IfOk result (spec.AreSoonest instrs.now 0) }
    ensures all { IfOk result (λ ends. length ends ≡ length instrs.now) }
{
    let mut ends = no_ends(alloc, instrs.len())?;
    let mut at = instrs.len();
    'numbers: while 0 < at {
        at -= 1;
        let end = soonest_from(instrs, ends.as_slice(), at as u32);
        ends.set(at, end);
    }
    Ok(ends)
}

/// The tables of a part, in the time of its length.
pub(crate) fn nests_of(alloc: Global, instrs: &[Instr]) -> Result<Nests, NoMemory>
    requires { length instrs.now < 2 ^ 32 }
    ensures { IfOk result (spec.AreNests instrs.now) }
{
    Ok(Nests {
        begins: latest_begins(alloc, instrs)?,
        ends: soonest_ends(alloc, instrs)?,
    })
}
