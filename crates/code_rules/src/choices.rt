//! An index is within its run, a choice has options, and a delay fits.

ghost use Rattle.std.specs.Prelude.{◌≡◌, ◌^◌, ◌-ℤ◌, pos, int_lt};
ghost use Rattle.tap_base.specs.Interval as interval;
ghost use Rattle.register_code.specs.Results as spec;
ghost use Rattle.code_rules.specs.Others.{AreOthers};
ghost use Rattle.code_rules.specs.Places.{seen};

use crate::place::PartPlace;
use crate::ranges::{both_in, range_at};
use crate::truths::are_truths;
use register_code::{Code, Instr};
use tap_base::Range;

/// All offsets of a run.
fn offsets(length: u32) -> Range
    ensures { result ≡ interval.from_to (pos 0) (pos length -ℤ pos 1) }
{
    Range {
        lo: 0,
        hi: length as i64 - 1,
    }
}

/// An index is within its run.
pub(crate) fn index_fits(code: &Code, place: &PartPlace, instrs: &[Instr], instr: Instr) -> bool
    ensures { result ≡ spec.index_fits (seen code.now instrs.now place.now) instr }
{
    let ranges = place.ranges.as_slice();
    match instr {
        Instr::Load {
            r: _,
            base: _,
            length,
            index,
        } => both_in(range_at(ranges, index), Some(offsets(length))),
        Instr::Save {
            base: _,
            length,
            index,
            a: _,
        } => both_in(range_at(ranges, index), Some(offsets(length))),
        _ => true,
    }
}

/// A delay fits.
pub(crate) fn delay_fits(code: &Code, place: &PartPlace, instrs: &[Instr], instr: Instr) -> bool
    ensures { result ≡ spec.delay_fits (seen code.now instrs.now place.now) instr }
{
    match instr {
        Instr::Start { timer: _, a } => both_in(
            range_at(place.ranges.as_slice(), a),
            Some(Range {
                lo: 0,
                hi: 4294967295,
            }),
        ),
        _ => true,
    }
}

/// Not more than 2^32 values.
fn are_few(lo: i64, hi: i64) -> bool
    ensures { result ≡ int_lt (hi -ℤ lo) (pos (2 ^ 32)) }
{
    hi as i128 - (lo as i128) < 4294967296
}

fn up_to(count: u32) -> Range
    ensures { result ≡ interval.from_to (pos 0) (pos count) }
{
    Range {
        lo: 0,
        hi: count as i64,
    }
}

/// A choice has options.
pub(crate) fn has_options(code: &Code, place: &PartPlace, instrs: &[Instr], instr: Instr) -> bool
    requires { AreOthers place.now.ranges place.now.others }
    ensures { result ≡ spec.has_options (seen code.now instrs.now place.now) instr }
{
    let ranges = place.ranges.as_slice();
    match instr {
        Instr::Choose { r: _, lo, hi } => (lo <= hi) & are_few(lo, hi),
        Instr::Select { r, first, count } => {
            (0 < count)
                & are_truths(ranges, place.others.as_slice(), first, count)
                & both_in(Some(up_to(count)), range_at(ranges, r))
        }
        _ => true,
    }
}
