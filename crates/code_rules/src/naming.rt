//! What an instruction names is there, and may stand where it stands.

ghost use Rattle.std.specs.Prelude.{◌≡◌, ◌+◌, ◌==◌, ◌&&◌, ◌||◌, true, length, nat_lt, nat_le};
ghost use Rattle.std.specs.Option.{option_map};
ghost use Rattle.tap_base.specs.Option.{is_yes};
ghost use Rattle.std.specs.List.{list_all};
ghost use Rattle.register_code.specs.Naming as spec;
ghost use Rattle.register_code.specs.Sites.{holds_of};
ghost use Rattle.code_rules.specs.Places.{fields_at, seen};

use crate::place::PartPlace;
use register_code::{Code, Instr, Part};
use tap_base::{Range, item};

fn is_register(ranges: &[Range], r: u32) -> bool
    ensures { result ≡ nat_lt r (length ranges.now) }
{
    (r as usize) < ranges.len()
}

fn one(x: bool) -> bool
    ensures { result ≡ (x && true) }
{
    x
}

fn two(x: bool, y: bool) -> bool
    ensures { result ≡ (x && (y && true)) }
{
    x & y
}

fn three(x: bool, y: bool, z: bool) -> bool
    ensures { result ≡ (x && (y && (z && true))) }
{
    x & y & z
}

/// The single registers that the instruction names are there.
fn named_exist(ranges: &[Range], instr: Instr) -> bool
    ensures { result ≡ list_all (λ r. nat_lt r (length ranges.now)) (spec.named instr) }
{
    match instr {
        Instr::Const { r, imm: _ } => one(is_register(ranges, r)),
        Instr::Copy { r, a } => two(is_register(ranges, r), is_register(ranges, a)),
        Instr::Add { r, a, b }
        | Instr::Sub { r, a, b }
        | Instr::Mul { r, a, b }
        | Instr::Div { r, a, b }
        | Instr::Mod { r, a, b }
        | Instr::Min { r, a, b }
        | Instr::Max { r, a, b }
        | Instr::Eq { r, a, b }
        | Instr::Ne { r, a, b }
        | Instr::Lt { r, a, b }
        | Instr::Le { r, a, b } => three(
            is_register(ranges, r),
            is_register(ranges, a),
            is_register(ranges, b),
        ),
        Instr::Load {
            r,
            base: _,
            length: _,
            index,
        } => { two(is_register(ranges, r), is_register(ranges, index)) }
        Instr::Save {
            base: _,
            length: _,
            index,
            a,
        } => { two(is_register(ranges, index), is_register(ranges, a)) }
        Instr::Part { r, field: _ } => one(is_register(ranges, r)),
        Instr::Choose { r, lo: _, hi: _ } => one(is_register(ranges, r)),
        Instr::Select {
            r,
            first: _,
            count: _,
        } => one(is_register(ranges, r)),
        Instr::JumpNe {
            a,
            imm: _,
            target: _,
        } => one(is_register(ranges, a)),
        Instr::Start { timer: _, a } => one(is_register(ranges, a)),
        Instr::Jump { .. }
        | Instr::Repeat { .. }
        | Instr::Again { .. }
        | Instr::Send { .. }
        | Instr::Stop { .. } => true,
    }
}

/// The register that the instruction writes, but for the cells of a Save.
fn written(instr: Instr) -> Option<u32>
    ensures { result ≡ spec.written instr }
{
    match instr {
        Instr::Const { r, .. }
        | Instr::Copy { r, .. }
        | Instr::Add { r, .. }
        | Instr::Sub { r, .. }
        | Instr::Mul { r, .. }
        | Instr::Div { r, .. }
        | Instr::Mod { r, .. }
        | Instr::Min { r, .. }
        | Instr::Max { r, .. }
        | Instr::Eq { r, .. }
        | Instr::Ne { r, .. }
        | Instr::Lt { r, .. }
        | Instr::Le { r, .. }
        | Instr::Load { r, .. }
        | Instr::Part { r, .. }
        | Instr::Choose { r, .. }
        | Instr::Select { r, .. } => Some(r),
        _ => None,
    }
}

fn may_guard(instr: Instr) -> bool
    ensures { result ≡ spec.may_guard instr }
{
    match instr {
        Instr::Save { .. }
        | Instr::Part { .. }
        | Instr::Choose { .. }
        | Instr::Select { .. }
        | Instr::Jump { .. }
        | Instr::JumpNe { .. }
        | Instr::Repeat { .. }
        | Instr::Again { .. }
        | Instr::Send { .. }
        | Instr::Start { .. }
        | Instr::Stop { .. } => false,
        _ => true,
    }
}

fn may_stand(part: Part, instr: Instr) -> bool
    ensures { result ≡ spec.may_stand part instr }
{
    match part {
        Part::Guard => may_guard(instr),
        Part::Body => true,
    }
}

/// An input is not written, and a guard writes only temporaries.
fn may_write(place: &PartPlace, r: u32, code: &Code, instrs: &[Instr]) -> bool
    ensures { result ≡ spec.may_write (seen code.now instrs.now place.now) r }
{
    let is_temporary = place.cells as u128 + place.inputs as u128 <= r as u128;
    match place.part {
        Part::Guard => is_temporary,
        Part::Body => is_temporary | ((r as usize) < place.cells),
    }
}

fn written_may_be(place: &PartPlace, r: Option<u32>, code: &Code, instrs: &[Instr]) -> bool
    ensures { result ≡ holds_of r (spec.may_write (seen code.now instrs.now place.now)) }
{
    match r {
        None => true,
        Some(r) => may_write(place, r, code, instrs),
    }
}

/// With no registers none is named.
fn are_registers(ranges: &[Range], first: u32, count: u32) -> bool
    ensures { result ≡ (count == 0 || nat_le (first + count) (length ranges.now)) }
{
    (count == 0) | (first as u64 + count as u64 <= ranges.len() as u64)
}

fn run_is_inside(base: u32, length: u32, cells: usize) -> bool
    ensures { result ≡ nat_le (base + length) cells }
{
    base as u64 + length as u64 <= cells as u64
}

fn field_exists(code: &Code, received: Option<u32>, field: u32) -> bool
    ensures { result ≡ is_yes (option_map (λ fields. nat_lt field (length fields)) (fields_at code.now received)) }
{
    match received {
        None => false,
        Some(message) => match item(code.messages.as_slice(), message as usize) {
            None => false,
            Some(message) => (field as usize) < message.fields.len(),
        },
    }
}

/// Runs of cells, fields, messages, processes and timers that the instruction names are there.
fn others_exist(code: &Code, place: &PartPlace, instrs: &[Instr], instr: Instr) -> bool
    ensures { result ≡ spec.others_exist (seen code.now instrs.now place.now) instr }
{
    match instr {
        Instr::Load {
            r: _,
            base,
            length,
            index: _,
        } => run_is_inside(base, length, place.cells),
        Instr::Save {
            base,
            length,
            index: _,
            a: _,
        } => run_is_inside(base, length, place.cells),
        Instr::Part { r: _, field } => field_exists(code, place.received, field),
        Instr::Select { r: _, first, count } => are_registers(
            place.ranges.as_slice(),
            first,
            count,
        ),
        Instr::Send {
            message,
            first,
            count,
            to,
        } => {
            are_registers(place.ranges.as_slice(), first, count)
                & ((message as usize) < code.messages.len())
                & ((to as usize) < code.processes.len())
        }
        Instr::Start { timer, a: _ } => timer < place.timers,
        Instr::Stop { timer } => timer < place.timers,
        _ => true,
    }
}

/// What the instruction names is there, and may stand where it stands.
pub(crate) fn names_exist(code: &Code, place: &PartPlace, instrs: &[Instr], instr: Instr) -> bool
    ensures { result ≡ spec.names_exist (seen code.now instrs.now place.now) instr }
{
    named_exist(place.ranges.as_slice(), instr)
        & others_exist(code, place, instrs, instr)
        & written_may_be(place, written(instr), code, instrs)
        & may_stand(place.part, instr)
}
