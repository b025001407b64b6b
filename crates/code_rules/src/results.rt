//! What an instruction gives is in range.

ghost use Rattle.std.specs.Prelude.{◌≡◌, ◌≤◌, ◌^◌, ◌-ℤ◌, pos, Some, true, drop, take, slice_get};
ghost use Rattle.std.specs.List.{list_all};
ghost use Rattle.tap_base.specs.Interval as interval;
ghost use Rattle.register_code.specs.Declarations.{field_fits, fields_fit};
ghost use Rattle.register_code.specs.Fields.{code_field};
ghost use Rattle.register_code.specs.Results as spec;
ghost use Rattle.register_code.specs.Sites.{both_in};
ghost use Rattle.code_rules.specs.Places.{fields_at, seen};

use crate::place::PartPlace;
use crate::ranges::{both_in, lies_in, operation_range, range_at};
use register_code::{Code, CodeField, Instr};
use tap_base::{Op, Range, item};

/// The interval of an operation is there, and lies within the range of r.
fn operates(ranges: &[Range], op: Op, r: u32, a: u32, b: u32) -> bool
    ensures { result ≡ spec.operates_in ranges.now op r a b }
{
    let Some(range) = range_at(ranges, r) else {
        return false;
    };
    let Some(x) = range_at(ranges, a) else {
        return false;
    };
    let Some(y) = range_at(ranges, b) else {
        return false;
    };
    match operation_range(op, x, y) {
        None => false,
        Some(result) => lies_in(result, range),
    }
}

/// Each cell of a run has its range within that of r.
fn load_fits(ranges: &[Range], r: u32, base: u32, length: u32) -> bool
    ensures { result ≡ list_all (λ cell. both_in (Some cell) (slice_get ranges.now r)) (take length (drop base ranges.now)) }
{
    let range = range_at(ranges, r);
    ranges
        .iter()
        .skip(base as usize)
        .take(length as usize)
        .all(|cell| both_in(Some(*cell), range))
}

/// The range of a lies within that of each cell of a run.
fn save_fits(ranges: &[Range], a: u32, base: u32, length: u32) -> bool
    ensures { result ≡ list_all (λ cell. both_in (slice_get ranges.now a) (Some cell)) (take length (drop base ranges.now)) }
{
    let range = range_at(ranges, a);
    ranges
        .iter()
        .skip(base as usize)
        .take(length as usize)
        .all(|cell| both_in(range, Some(*cell)))
}

/// The greatest number of so many bits.
fn greatest(width: u8) -> i64
    requires { width ≤ 63 }
    ensures { result ≡ pos (2 ^ width) -ℤ pos 1 }
{
    ((1u64 << width) - 1) as i64
}

/// The range of a field: all that its width holds, or its fixed value alone.
pub(crate) fn field_range(field: &CodeField) -> Range
    requires { field_fits field.now ≡ true }
    ensures { result ≡ interval.field_range (code_field field.now) }
{
    match field.fixed {
        None => Range {
            lo: 0,
            hi: greatest(field.width),
        },
        Some(value) => Range {
            lo: value as i64,
            hi: value as i64,
        },
    }
}

/// The fields of the message that is received.
fn field_at(code: &Code, received: Option<u32>, field: u32) -> Option<Range>
    requires { fields_fit code.now ≡ true }
    ensures { result ≡ spec.received_range (fields_at code.now received) field }
{
    let Some(message) = received else {
        return None;
    };
    let Some(message) = item(code.messages.as_slice(), message as usize) else {
        return None;
    };
    match item(message.fields.as_slice(), field as usize) {
        None => None,
        Some(field) => Some(field_range(field)),
    }
}

/// The result is in range.
pub(crate) fn result_fits(code: &Code, place: &PartPlace, instrs: &[Instr], instr: Instr) -> bool
    requires { fields_fit code.now ≡ true }
    ensures { result ≡ spec.result_fits (seen code.now instrs.now place.now) instr }
{
    let ranges = place.ranges.as_slice();
    match instr {
        Instr::Const { r, imm } => both_in(Some(Range { lo: imm, hi: imm }), range_at(ranges, r)),
        Instr::Copy { r, a } => both_in(range_at(ranges, a), range_at(ranges, r)),
        Instr::Add { r, a, b } => operates(ranges, Op::Add, r, a, b),
        Instr::Sub { r, a, b } => operates(ranges, Op::Sub, r, a, b),
        Instr::Mul { r, a, b } => operates(ranges, Op::Mul, r, a, b),
        Instr::Div { r, a, b } => operates(ranges, Op::Div, r, a, b),
        Instr::Mod { r, a, b } => operates(ranges, Op::Mod, r, a, b),
        Instr::Min { r, a, b } => operates(ranges, Op::Min, r, a, b),
        Instr::Max { r, a, b } => operates(ranges, Op::Max, r, a, b),
        Instr::Eq { r, a, b } => operates(ranges, Op::Eq, r, a, b),
        Instr::Ne { r, a, b } => operates(ranges, Op::Ne, r, a, b),
        Instr::Lt { r, a, b } => operates(ranges, Op::Lt, r, a, b),
        Instr::Le { r, a, b } => operates(ranges, Op::Le, r, a, b),
        Instr::Load {
            r,
            base,
            length,
            index: _,
        } => load_fits(ranges, r, base, length),
        Instr::Save {
            base,
            length,
            index: _,
            a,
        } => save_fits(ranges, a, base, length),
        Instr::Part { r, field } => both_in(
            field_at(code, place.received, field),
            range_at(ranges, r),
        ),
        Instr::Choose { r, lo, hi } => both_in(Some(Range { lo, hi }), range_at(ranges, r)),
        _ => true,
    }
}
