//! How many sends statements make at most.

ghost use Rattle.std.specs.Prelude.{◌≡◌, map, sum};
ghost use Rattle.tap_base.specs.Sends as spec;
ghost use Rattle.width_check.specs.inner.Capped.{capped};

use crate::counts::{plus, times};
use tap_base::{Action, Branch, Stmt};

#[cycle(sendings)]
fn branch_sends(branch: &Branch) -> u32
    ensures { result ≡ capped (spec.branch_sends branch.now) }
{
    body_sends(branch.body.as_slice())
}

#[cycle(sendings)]
fn branches_sends(branches: &[Branch]) -> u32
    ensures { result ≡ capped (sum (map spec.branch_sends branches.now)) }
{
    let mut total = 0;
    for branch in branches {
        total = plus(total, branch_sends(branch));
    }
    total
}

#[cycle(sendings)]
fn stmt_sends(stmt: &Stmt) -> u32
    ensures { result ≡ capped (spec.stmt_sends stmt.now) }
{
    match stmt {
        Stmt::Send {
            message: _,
            values: _,
            to: _,
        } => 1,
        Stmt::If { branches } => branches_sends(branches.as_slice()),
        Stmt::Loop { count, branches } => {
            let turn = branches_sends(branches.as_slice());
            times(*count, turn)
        }
        _ => 0,
    }
}

#[cycle(sendings)]
fn body_sends(stmts: &[Stmt]) -> u32
    ensures { result ≡ capped (spec.body_sends stmts.now) }
{
    let mut total = 0;
    for stmt in stmts {
        total = plus(total, stmt_sends(stmt));
    }
    total
}

/// What an action sends at most.
pub(crate) fn action_sends(action: &Action) -> u32
    ensures { result ≡ capped (spec.action_sends action.now) }
{
    body_sends(action.body.as_slice())
}
