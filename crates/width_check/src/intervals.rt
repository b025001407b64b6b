//! The interval of one operation, where its operands have one.

ghost use Rattle.std.specs.Prelude.{◌≡◌, option_and_then};
ghost use Rattle.tap_base.specs.declared.refusal.RefusalCode.TheVariants.{W4};
ghost use Rattle.tap_base.specs.Interval as interval;
ghost use Rattle.tap_base.specs.Offences.{Clears};
ghost use Rattle.width_check.specs.ExprOffences as spec;
ghost use Rattle.width_check.specs.inner.Judging.{Bounds};

use tap_base::{Op, Place, Range, Refusal, RefusalCode};

pub(crate) fn refusal(code: RefusalCode, place: Place) -> Refusal
    ensures { result ≡ record { code = code; place = place } }
{
    Refusal { code, place }
}

pub(crate) fn truths() -> Range
    ensures { result ≡ interval.truth_range }
{
    Range { lo: 0, hi: 1 }
}

/// The interval of an operation, or nothing where a bound leaves 64 bits or a divisor may be 0.
fn operation_range(op: Op, a: Range, b: Range) -> Option<Range>
    ensures { result ≡ interval.operation_range op a b }
{
    match op {
        Op::Add => a.add(b),
        Op::Sub => a.sub(b),
        Op::Mul => a.mul(b),
        Op::Div => a.div(b),
        Op::Mod => a.rem(b),
        Op::Min => a.min(b),
        Op::Max => a.max(b),
        _ => Some(truths()),
    }
}

pub(crate) fn negation(a: Option<Range>) -> Option<Range>
    ensures { result ≡ option_and_then interval.negation_range a }
{
    a?.neg()
}

pub(crate) fn operation(op: Op, a: Option<Range>, b: Option<Range>) -> Option<Range>
    ensures { result ≡ spec.operation_interval op a b }
{
    operation_range(op, a?, b?)
}

/// An interval that is there, or this offence.
fn found(range: Option<Range>, place: Place) -> Result<Option<Range>, Refusal>
    ensures { Bounds (spec.where_none range W4 place) range result }
{
    match range {
        None => Err(refusal(RefusalCode::W4, place)),
        Some(a) => Ok(Some(a)),
    }
}

pub(crate) fn negate(a: Option<Range>, place: Place) -> Result<Option<Range>, Refusal>
    ensures { Bounds (spec.negation_offences a place) (option_and_then interval.negation_range a) result }
{
    match a {
        None => Ok(None),
        Some(a) => found(a.neg(), place),
    }
}

fn is_division(op: Op) -> bool
    ensures { result ≡ spec.is_division op }
{
    match op {
        Op::Div | Op::Mod => true,
        _ => false,
    }
}

/// A divisor that may be 0 is judged before the bounds of the operation.
pub(crate) fn operate(
    op: Op,
    a: Option<Range>,
    b: Option<Range>,
    divisor: Place,
    place: Place,
) -> Result<Option<Range>, Refusal>
    ensures { Bounds (spec.operation_offences op a b divisor place) (spec.operation_interval op a b) result }
{
    let Some(a) = a else {
        return Ok(None);
    };
    let Some(b) = b else {
        return Ok(None);
    };
    if is_division(op) && b.has_zero() {
        return Err(refusal(RefusalCode::W2, divisor));
    }
    found(operation_range(op, a, b), place)
}

fn lies_within(a: Range, range: Range) -> bool
    ensures { result ≡ spec.lies_within a range }
{
    range.lo <= a.lo && a.hi <= range.hi
}

/// That an interval, where there is one, is within a range.
pub(crate) fn hold(
    found: Option<Range>,
    range: Range,
    code: RefusalCode,
    place: Place,
) -> Result<(), Refusal>
    ensures { Clears (spec.where_wider found range code place) result }
{
    match found {
        None => Ok(()),
        Some(a) => {
            if lies_within(a, range) {
                Ok(())
            } else {
                Err(refusal(code, place))
            }
        }
    }
}
