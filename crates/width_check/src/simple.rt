//! The offences of simple statements.

ghost use Rattle.std.specs.Prelude.{◌≡◌, flat_map};
ghost use Rattle.tap_base.specs.Offences.{Clears};
ghost use Rattle.width_check.specs.ExprOffences.{expr_offences, index_offences, judged};
ghost use Rattle.width_check.specs.StmtOffences as spec;
ghost use Rattle.width_check.specs.inner.Reading.{scope_in};

use crate::expressions::{hold_index, interval, judge};
use crate::intervals::hold;
use crate::reads::Reads;
use tap_base::{Expr, Range, Refusal, RefusalCode, Target, item};

/// The offences within an expression.
pub(crate) fn judge_value(e: &Expr, reads: &Reads) -> Result<(), Refusal>
    ensures { Clears (expr_offences (scope_in reads.now) e.now) result }
{
    match judge(e, reads) {
        Ok(_) => Ok(()),
        Err(r) => Err(r),
    }
}

fn judge_values(values: &[Expr], reads: &Reads) -> Result<(), Refusal>
    ensures { Clears (flat_map (expr_offences (scope_in reads.now)) values.now) result }
{
    for value in values {
        judge_value(value, reads)?;
    }
    Ok(())
}

/// That an index is within its array.
#[tactic(auto, using(tap_base::proofs::LoopFacts::first_front, tap_base::proofs::LoopFacts::first_back))]
fn judge_index(index: &Expr, length: u32, reads: &Reads) -> Result<(), Refusal>
    ensures { Clears (index_offences length (judged (scope_in reads.now) index.now)) result }
{
    match judge(index, reads) {
        Ok(found) => hold_index(found, length, index.place),
        Err(r) => Err(r),
    }
}

pub(crate) fn judge_target(target: &Target, reads: &Reads) -> Result<(), Refusal>
    ensures { Clears (spec.target_offences (scope_in reads.now) target.now) result }
{
    match &target.index {
        None => Ok(()),
        Some(index) => judge_index(index, target.length, reads),
    }
}

fn judge_targets(targets: &[Target], reads: &Reads) -> Result<(), Refusal>
    ensures { Clears (flat_map (spec.target_offences (scope_in reads.now)) targets.now) result }
{
    for target in targets {
        judge_target(target, reads)?;
    }
    Ok(())
}

/// That each value is within the range of its target.
fn judge_widths(targets: &[Target], values: &[Expr], reads: &Reads) -> Result<(), Refusal>
    ensures { Clears (spec.width_offences (scope_in reads.now) targets.now values.now) result }
{
    for at in 0..targets.len() {
        let Some(value) = item(values, at) else {
            return Ok(());
        };
        let target = &targets[at];
        hold(
            interval(value, reads),
            target.range,
            RefusalCode::W1,
            target.place,
        )?;
    }
    Ok(())
}

/// The indexes of all targets, then all values, then their widths.
#[tactic(auto, using(tap_base::proofs::LoopFacts::first_front, tap_base::proofs::LoopFacts::first_back))]
pub(crate) fn judge_assignment(
    targets: &[Target],
    values: &[Expr],
    reads: &Reads,
) -> Result<(), Refusal>
    ensures { Clears (spec.assignment_offences (scope_in reads.now) targets.now values.now) result }
{
    judge_targets(targets, reads)?;
    judge_values(values, reads)?;
    judge_widths(targets, values, reads)
}

#[tactic(auto, using(tap_base::proofs::LoopFacts::first_front, tap_base::proofs::LoopFacts::first_back))]
pub(crate) fn judge_delay(delay: &Expr, reads: &Reads) -> Result<(), Refusal>
    ensures { Clears (spec.delay_offences (judged (scope_in reads.now) delay.now)) result }
{
    match judge(delay, reads) {
        Ok(found) => hold(
            found,
            Range {
                lo: 0,
                hi: u32::MAX as i64,
            },
            RefusalCode::W5,
            delay.place,
        ),
        Err(r) => Err(r),
    }
}
