//! The offences of statements, in the order in which they stand.

ghost use Rattle.std.specs.Prelude.{◌≡◌, map};
ghost use Rattle.tap_base.specs.ListWords.{joined};
ghost use Rattle.tap_base.specs.Lists.{Each};
ghost use Rattle.tap_base.specs.Offences.{Clears};
ghost use Rattle.tap_base.specs.Resolved.{IsMessage};
ghost use Rattle.width_check.specs.StmtOffences as spec;
ghost use Rattle.width_check.specs.inner.Reading.{scope_in};

use crate::reads::Reads;
use crate::sends::judge_send;
use crate::simple::{judge_assignment, judge_delay, judge_target, judge_value};
use tap_base::{Branch, Message, Refusal, Stmt};

/// A branch: its guard, then its statements.
#[cycle(walk)]
#[tactic(auto, using(tap_base::proofs::LoopFacts::first_front, tap_base::proofs::LoopFacts::first_back))]
fn judge_branch(branch: &Branch, messages: &[Message], reads: &Reads) -> Result<(), Refusal>
    requires { Each IsMessage messages.now }
    ensures { Clears (spec.branch_offences messages.now (scope_in reads.now) branch.now) result }
{
    judge_value(&branch.guard, reads)?;
    judge_body(branch.body.as_slice(), messages, reads)
}

#[cycle(walk)]
fn judge_branches(branches: &[Branch], messages: &[Message], reads: &Reads) -> Result<(), Refusal>
    requires { Each IsMessage messages.now }
    ensures { Clears (joined (map (spec.branch_offences messages.now (scope_in reads.now)) branches.now)) result }
{
    for branch in branches {
        judge_branch(branch, messages, reads)?;
    }
    Ok(())
}

#[cycle(walk)]
fn judge_stmt(stmt: &Stmt, messages: &[Message], reads: &Reads) -> Result<(), Refusal>
    requires { Each IsMessage messages.now }
    ensures { Clears (spec.stmt_offences messages.now (scope_in reads.now) stmt.now) result }
{
    match stmt {
        Stmt::Skip => Ok(()),
        Stmt::Assign { targets, values } => {
            judge_assignment(targets.as_slice(), values.as_slice(), reads)
        }
        Stmt::Choose { target } => judge_target(target, reads),
        Stmt::Send {
            message,
            values,
            to: _,
        } => judge_send(messages, *message, values.as_slice(), reads),
        Stmt::Start { timer: _, delay } => judge_delay(delay, reads),
        Stmt::Stop { timer: _ } => Ok(()),
        Stmt::If { branches } => judge_branches(branches.as_slice(), messages, reads),
        Stmt::Loop { count: _, branches } => {
            judge_branches(branches.as_slice(), messages, reads)
        }
    }
}

/// Statements, from left to right.
#[cycle(walk)]
pub(crate) fn judge_body(stmts: &[Stmt], messages: &[Message], reads: &Reads) -> Result<(), Refusal>
    requires { Each IsMessage messages.now }
    ensures { Clears (spec.body_offences messages.now (scope_in reads.now) stmts.now) result }
{
    for stmt in stmts {
        judge_stmt(stmt, messages, reads)?;
    }
    Ok(())
}
