//! Statements and actions.
#![tactic(auto, using(crate::proofs::Appends::after_append))]

ghost use Rattle.std.specs.Prelude.{◌≡◌, List, map, OnOk};
ghost use Rattle.tap_printer.specs.Canonical.{action_tokens, branch_tokens, guard_tokens, index_tokens, separated, stmt_tokens, target_tokens};
ghost use Rattle.tap_printer.specs.Printed.{Printed};
ghost use Rattle.tap_printer.specs.inner.Pages.{after};

use crate::pen::Pen;
use crate::written::{Written, write_separated};
use tap_base::{AstAction, AstBranch, AstExpr, AstGuard, AstStmt, AstTarget, NoMemory, Sign};

impl Written for AstTarget {
    ghost tokens = { target_tokens };

    fn write(&self, pen: &mut Pen) -> Result<(), NoMemory> {
        self.name.write(pen)?;
        write_index(pen, &self.index)
    }
}

/// Writes the index of a target, if there is one.
fn write_index(pen: &mut Pen, index: &Option<AstExpr>) -> Result<(), NoMemory>
    ensures { OnOk result (pen.new ≡ after pen.old (index_tokens index.now)) }
{
    if let Some(expr) = index {
        pen.mark(Sign::OpenIndex)?;
        expr.write(pen)?;
        pen.mark(Sign::CloseIndex)?;
    }
    Ok(())
}

impl Written for AstGuard {
    ghost tokens = { guard_tokens };

    fn write(&self, pen: &mut Pen) -> Result<(), NoMemory> {
        match self {
            AstGuard::Local(expr) => expr.write(pen),
            AstGuard::Receive { message, from } => {
                pen.mark(Sign::Rcv)?;
                message.write(pen)?;
                pen.mark(Sign::From)?;
                from.write(pen)
            }
            AstGuard::Timeout { timer } => {
                pen.mark(Sign::Timeout)?;
                timer.write(pen)
            }
        }
    }
}

impl Written for AstAction {
    ghost tokens = { action_tokens };

    fn write(&self, pen: &mut Pen) -> Result<(), NoMemory> {
        self.guard.write(pen)?;
        pen.mark(Sign::Arrow)?;
        write_stmts(pen, self.body.as_slice())
    }
}

/// Writes statements with `;` between them.
#[cycle(stmts)]
fn write_stmts(pen: &mut Pen, stmts: &[AstStmt]) -> Result<(), NoMemory>
    ensures { OnOk result (pen.new ≡ after pen.old (separated Sign.Semicolon (map stmt_tokens stmts.now))) }
{
    if let Some((first, rest)) = stmts.split_first() {
        write_stmt(pen, first)?;
        for stmt in rest {
            pen.mark(Sign::Semicolon)?;
            write_stmt(pen, stmt)?;
        }
    }
    Ok(())
}

#[cycle(stmts)]
fn write_stmt(pen: &mut Pen, stmt: &AstStmt) -> Result<(), NoMemory>
    ensures { OnOk result (pen.new ≡ after pen.old (stmt_tokens stmt.now)) }
{
    match stmt {
        AstStmt::Skip => pen.mark(Sign::Skip),
        AstStmt::Assign { targets, values } => {
            write_separated(pen, Sign::Comma, targets.as_slice())?;
            pen.mark(Sign::Becomes)?;
            write_separated(pen, Sign::Comma, values.as_slice())
        }
        AstStmt::Choose { target } => {
            pen.mark(Sign::Choose)?;
            target.write(pen)
        }
        AstStmt::Send {
            message,
            values,
            to,
        } => {
            pen.mark(Sign::Send)?;
            message.write(pen)?;
            pen.mark(Sign::Open)?;
            write_separated(pen, Sign::Comma, values.as_slice())?;
            pen.mark(Sign::Close)?;
            pen.mark(Sign::To)?;
            to.write(pen)
        }
        AstStmt::Start { timer, delay } => {
            pen.mark(Sign::Start)?;
            timer.write(pen)?;
            pen.mark(Sign::After)?;
            delay.write(pen)
        }
        AstStmt::Stop { timer } => {
            pen.mark(Sign::Stop)?;
            timer.write(pen)
        }
        AstStmt::If { branches } => {
            pen.mark(Sign::If)?;
            write_branches(pen, branches.as_slice())?;
            pen.mark(Sign::Fi)
        }
        AstStmt::Loop {
            count,
            branches,
            ..
        } => {
            pen.mark(Sign::Do)?;
            pen.number(*count)?;
            pen.mark(Sign::Times)?;
            write_branches(pen, branches.as_slice())?;
            pen.mark(Sign::Od)
        }
    }
}

/// Writes branches with `[]` between them.
#[cycle(stmts)]
fn write_branches(pen: &mut Pen, branches: &[AstBranch]) -> Result<(), NoMemory>
    ensures { OnOk result (pen.new ≡ after pen.old (separated Sign.Box (map branch_tokens branches.now))) }
{
    if let Some((first, rest)) = branches.split_first() {
        write_branch(pen, first)?;
        for branch in rest {
            pen.mark(Sign::Box)?;
            write_branch(pen, branch)?;
        }
    }
    Ok(())
}

#[cycle(stmts)]
fn write_branch(pen: &mut Pen, branch: &AstBranch) -> Result<(), NoMemory>
    ensures { OnOk result (pen.new ≡ after pen.old (branch_tokens branch.now)) }
{
    branch.guard.write(pen)?;
    pen.mark(Sign::Arrow)?;
    write_stmts(pen, branch.body.as_slice())
}
