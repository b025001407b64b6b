//! Intervals of expressions, and the offences within them.

ghost use Rattle.std.specs.Prelude.{◌≡◌, option_and_then, slice_get};
ghost use Rattle.std.specs.Option.{option_map};
ghost use Rattle.tap_base.specs.declared.refusal.RefusalCode.TheVariants.{W3};
ghost use Rattle.tap_base.specs.Interval as interval;
ghost use Rattle.tap_base.specs.Offences.{Clears};
ghost use Rattle.width_check.specs.ExprOffences as spec;
ghost use Rattle.width_check.specs.inner.Judging.{Judges};
ghost use Rattle.width_check.specs.inner.Reading.{scope_in};

use crate::intervals::{hold, negate, negation, operate, operation, truths};
use crate::reads::Reads;
use tap_base::{Expr, ExprKind, Place, Range, Refusal, RefusalCode};

/// The interval of an element, where its index has one.
fn element_range(index: Option<Range>, reads: &Reads, first: u32) -> Option<Range>
    ensures { result ≡ option_and_then (λ i. slice_get reads.now.cells first) index }
{
    match index {
        None => None,
        Some(_) => reads.cells.get(first as usize).copied(),
    }
}

fn truth_range(a: Option<Range>) -> Option<Range>
    ensures { result ≡ option_map (λ x. interval.truth_range) a }
{
    match a {
        None => None,
        Some(_) => Some(truths()),
    }
}

/// That an index, where it has an interval, stays within its array.
pub(crate) fn hold_index(index: Option<Range>, length: u32, place: Place) -> Result<(), Refusal>
    ensures { Clears (spec.where_wider index (interval.index_range length) W3 place) result }
{
    let range = Range {
        lo: 0,
        hi: length as i64 - 1,
    };
    hold(index, range, RefusalCode::W3, place)
}

/// The interval of an expression, or the first offence within it.
#[tactic(auto, using(tap_base::proofs::LoopFacts::first_front, tap_base::proofs::LoopFacts::first_back))]
pub(crate) fn judge(e: &Expr, reads: &Reads) -> Result<Option<Range>, Refusal>
    ensures { Judges (spec.judged (scope_in reads.now) e.now) result }
{
    match &e.kind {
        ExprKind::Number(n) => Ok(Some(Range { lo: *n, hi: *n })),
        ExprKind::Cell(k) => Ok(reads.cells.get(*k as usize).copied()),
        ExprKind::Input(k) => Ok(reads.inputs.get(*k as usize).copied()),
        ExprKind::Part(k) => Ok(reads.fields.get(*k as usize).copied()),
        ExprKind::Element {
            first,
            length,
            index,
        } => {
            let inner = index.get();
            let found = judge(inner, reads)?;
            hold_index(found, *length, inner.place)?;
            Ok(element_range(found, reads, *first))
        }
        ExprKind::Not(inner) => {
            let found = judge(inner.get(), reads)?;
            Ok(truth_range(found))
        }
        ExprKind::Neg(inner) => {
            let found = judge(inner.get(), reads)?;
            negate(found, e.place)
        }
        ExprKind::Binary { op, left, right } => {
            let a = judge(left.get(), reads)?;
            let divisor = right.get();
            let b = judge(divisor, reads)?;
            operate(*op, a, b, divisor.place, e.place)
        }
    }
}

/// The interval of an expression, where it has one.
pub(crate) fn interval(e: &Expr, reads: &Reads) -> Option<Range>
    ensures { result ≡ (spec.judged (scope_in reads.now) e.now).interval }
{
    match &e.kind {
        ExprKind::Number(n) => Some(Range { lo: *n, hi: *n }),
        ExprKind::Cell(k) => reads.cells.get(*k as usize).copied(),
        ExprKind::Input(k) => reads.inputs.get(*k as usize).copied(),
        ExprKind::Part(k) => reads.fields.get(*k as usize).copied(),
        ExprKind::Element {
            first,
            length: _,
            index,
        } => element_range(interval(index.get(), reads), reads, *first),
        ExprKind::Not(inner) => truth_range(interval(inner.get(), reads)),
        ExprKind::Neg(inner) => negation(interval(inner.get(), reads)),
        ExprKind::Binary { op, left, right } => {
            let a = interval(left.get(), reads);
            let b = interval(right.get(), reads);
            operation(*op, a, b)
        }
    }
}
