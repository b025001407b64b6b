//! What expressions and statements cost.

ghost use Rattle.std.specs.Prelude.{◌≡◌, ◌+◌, ◌*◌, map, sum};
ghost use Rattle.width_check.specs.Cost as spec;
ghost use Rattle.width_check.specs.inner.Capped.{capped};

use crate::counts::{plus, times};
use tap_base::{Action, Branch, Expr, ExprKind, Guard, Stmt, Target};

fn expr_cost(e: &Expr) -> u32
    ensures { result ≡ capped (spec.expr_cost e.now) }
{
    match &e.kind {
        ExprKind::Element {
            first: _,
            length: _,
            index,
        } => plus(1, expr_cost(index.get())),
        ExprKind::Not(inner) => plus(1, expr_cost(inner.get())),
        ExprKind::Neg(inner) => plus(1, expr_cost(inner.get())),
        ExprKind::Binary { op: _, left, right } => {
            plus(1, plus(expr_cost(left.get()), expr_cost(right.get())))
        }
        _ => 1,
    }
}

fn exprs_cost(es: &[Expr]) -> u32
    ensures { result ≡ capped (spec.exprs_cost es.now) }
{
    let mut total = 0;
    for e in es {
        total = plus(total, expr_cost(e));
    }
    total
}

fn index_cost(index: &Option<Expr>) -> u32
    ensures { result ≡ capped (spec.index_cost index.now) }
{
    match index {
        None => 0,
        Some(e) => expr_cost(e),
    }
}

fn targets_cost(targets: &[Target]) -> u32
    ensures { result ≡ capped (spec.targets_cost targets.now) }
{
    let mut total = 0;
    for target in targets {
        total = plus(total, index_cost(&target.index));
    }
    total
}

#[cycle(costs)]
fn branch_cost(branch: &Branch) -> u32
    ensures { result ≡ capped (spec.branch_cost branch.now) }
{
    let guard = expr_cost(&branch.guard);
    let body = body_cost(branch.body.as_slice());
    plus(guard, body)
}

#[cycle(costs)]
fn branches_cost(branches: &[Branch]) -> u32
    ensures { result ≡ capped (sum (map spec.branch_cost branches.now)) }
{
    let mut total = 0;
    for branch in branches {
        total = plus(total, branch_cost(branch));
    }
    total
}

/// The turns of a loop, each of which judges the guards and runs a branch.
#[cycle(costs)]
fn loop_cost(count: u32, branches: &[Branch]) -> u32
    ensures { result ≡ capped (1 + count * (1 + sum (map spec.branch_cost branches.now))) }
{
    let turn = plus(1, branches_cost(branches));
    plus(1, times(count, turn))
}

#[cycle(costs)]
fn stmt_cost(stmt: &Stmt) -> u32
    ensures { result ≡ capped (spec.stmt_cost stmt.now) }
{
    match stmt {
        Stmt::Skip => 1,
        Stmt::Assign { targets, values } => {
            let targets = targets_cost(targets.as_slice());
            let values = exprs_cost(values.as_slice());
            plus(1, plus(targets, values))
        }
        Stmt::Choose { target } => plus(1, index_cost(&target.index)),
        Stmt::Send {
            message: _,
            values,
            to: _,
        } => plus(1, exprs_cost(values.as_slice())),
        Stmt::Start { timer: _, delay } => plus(1, expr_cost(delay)),
        Stmt::Stop { timer: _ } => 1,
        Stmt::If { branches } => plus(1, branches_cost(branches.as_slice())),
        Stmt::Loop { count, branches } => loop_cost(*count, branches.as_slice()),
    }
}

#[cycle(costs)]
fn body_cost(stmts: &[Stmt]) -> u32
    ensures { result ≡ capped (spec.body_cost stmts.now) }
{
    let mut total = 0;
    for stmt in stmts {
        total = plus(total, stmt_cost(stmt));
    }
    total
}

fn guard_cost(guard: &Guard) -> u32
    ensures { result ≡ capped (spec.guard_cost guard.now) }
{
    match guard {
        Guard::Local(e) => expr_cost(e),
        _ => 0,
    }
}

/// What an action costs.
pub(crate) fn action_cost(action: &Action) -> u32
    ensures { result ≡ capped (spec.action_cost action.now) }
{
    let guard = guard_cost(&action.guard);
    let body = body_cost(action.body.as_slice());
    plus(guard, body)
}
