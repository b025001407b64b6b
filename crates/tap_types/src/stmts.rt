//! Statements whose names are declared and whose values are of the right kinds.

ghost use Rattle.std.specs.Prelude.{◌≡◌, map, option_map};
ghost use Rattle.tap_base.specs.ListWords.{joined, some_of};
ghost use Rattle.tap_names.specs.Refusals.{Judges};
ghost use Rattle.tap_types.specs.StmtOffences.{body_offences, branch_offences, choice_offences, send_offences, stmt_offences};
ghost use Rattle.tap_types.specs.Systems.{body_of, branch_of, send_of, stmt_of, target_of};
ghost use Rattle.tap_types.specs.inner.Typing.{IsListed, scope_of};

use crate::assigns::type_assignment;
use crate::exprs::{type_value, type_values};
use crate::scope::Names;
use crate::targets::aim;
use crate::uses::{check_values, check_width, count_of, message_named, peer_named, timer_named};
use std::alloc::Global;
use tap_base::{AstBranch, AstExpr, AstStmt, AstTarget, Branch, Ident, List, Stmt};
use tap_names::{Kind, TypeFault};

/// Statements, from left to right.
#[cycle(type_stmt)]
#[tactic(auto, using(tap_names::proofs::Faults::front, tap_names::proofs::Faults::back, tap_names::proofs::Faults::refused))]
pub fn type_body(alloc: Global, names: &Names, body: &[AstStmt]) -> Result<List<Stmt>, TypeFault>
    requires { IsListed names.now }
    ensures { let c = scope_of names.now in
        Judges (body_offences c body.now) (body_of c body.now) result }
{
    let mut found = List::new(alloc);
    'body: for stmt in body {
        found.push(type_stmt(alloc, names, stmt)?)?;
    }
    Ok(found)
}

#[cycle(type_stmt)]
#[tactic(auto, using(tap_names::proofs::Faults::front, tap_names::proofs::Faults::back, tap_names::proofs::Faults::refused))]
fn type_stmt(alloc: Global, names: &Names, stmt: &AstStmt) -> Result<Stmt, TypeFault>
    requires { IsListed names.now }
    ensures { let c = scope_of names.now in
        Judges (stmt_offences c stmt.now) (stmt_of c stmt.now) result }
{
    match stmt {
        AstStmt::Skip => Ok(Stmt::Skip),
        AstStmt::Assign { targets, values } => {
            type_assignment(alloc, names, targets.as_slice(), values.as_slice())
        }
        AstStmt::Choose { target } => type_choice(alloc, names, target),
        AstStmt::Send {
            message,
            values,
            to,
        } => type_send(alloc, names, message, values.as_slice(), to),
        AstStmt::Start { timer, delay } => {
            let timer = timer_named(names, timer)?;
            let delay = type_value(alloc, names, delay, Kind::Number)?;
            Ok(Stmt::Start { timer, delay })
        }
        AstStmt::Stop { timer } => {
            let timer = timer_named(names, timer)?;
            Ok(Stmt::Stop { timer })
        }
        AstStmt::If { branches } => {
            let branches = type_branches(alloc, names, branches.as_slice())?;
            Ok(Stmt::If { branches })
        }
        AstStmt::Loop {
            count,
            place,
            branches,
        } => {
            let count = count_of(*count, *place)?;
            let branches = type_branches(alloc, names, branches.as_slice())?;
            Ok(Stmt::Loop { count, branches })
        }
    }
}

#[cycle(type_stmt)]
#[tactic(auto, using(tap_names::proofs::Faults::front, tap_names::proofs::Faults::back, tap_names::proofs::Faults::refused))]
fn type_branches(
    alloc: Global,
    names: &Names,
    branches: &[AstBranch],
) -> Result<List<Branch>, TypeFault>
    requires { IsListed names.now }
    ensures { let c = scope_of names.now in
        Judges (joined (map (branch_offences c) branches.now)) (some_of (map (branch_of c) branches.now)) result }
{
    let mut found = List::new(alloc);
    'branches: for branch in branches {
        found.push(type_branch(alloc, names, branch)?)?;
    }
    Ok(found)
}

#[cycle(type_stmt)]
#[tactic(auto, using(tap_names::proofs::Faults::front, tap_names::proofs::Faults::back, tap_names::proofs::Faults::refused))]
fn type_branch(alloc: Global, names: &Names, branch: &AstBranch) -> Result<Branch, TypeFault>
    requires { IsListed names.now }
    ensures { let c = scope_of names.now in
        Judges (branch_offences c branch.now) (branch_of c branch.now) result }
{
    let guard = type_value(alloc, names, &branch.guard, Kind::Boolean)?;
    let body = type_body(alloc, names, branch.body.as_slice())?;
    Ok(Branch { guard, body })
}

#[tactic(auto, using(tap_names::proofs::Faults::front, tap_names::proofs::Faults::back, tap_names::proofs::Faults::refused))]
fn type_choice(alloc: Global, names: &Names, target: &AstTarget) -> Result<Stmt, TypeFault>
    requires { IsListed names.now }
    ensures { let c = scope_of names.now in
        Judges (choice_offences c target.now) (option_map Stmt.Choose (target_of c target.now)) result }
{
    let aimed = aim(alloc, names, target)?;
    check_width(aimed.target.range, target.name.place)?;
    Ok(Stmt::Choose {
        target: aimed.target,
    })
}

#[tactic(auto, using(tap_names::proofs::Faults::front, tap_names::proofs::Faults::back, tap_names::proofs::Faults::refused))]
fn type_send(
    alloc: Global,
    names: &Names,
    message: &Ident,
    values: &[AstExpr],
    to: &Ident,
) -> Result<Stmt, TypeFault>
    requires { IsListed names.now }
    ensures { let c = scope_of names.now in
        Judges (send_offences c message.now values.now to.now) (send_of c message.now values.now to.now) result }
{
    let number = message_named(names, message)?;
    check_values(names, number, message.place, values)?;
    let values = type_values(alloc, names, values, Kind::Number)?;
    let to = peer_named(names, to)?;
    Ok(Stmt::Send {
        message: number,
        values,
        to,
    })
}
