//! Expressions, with the fewest parentheses.
#![tactic(auto, using(crate::proofs::Appends::after_append))]

ghost use Rattle.std.specs.Prelude.{◌≡◌, List, OnOk};
ghost use Rattle.tap_printer.specs.CanonicalExprs.{expr_tokens, expr_tokens_at, phrase_of};
ghost use Rattle.tap_printer.specs.Printed.{Printed};
ghost use Rattle.tap_printer.specs.inner.Levels.{as_level};
ghost use Rattle.tap_printer.specs.inner.Pages.{after};

use crate::level::{Level, is_choice, left_side, operation, operator, right_side};
use crate::pen::Pen;
use crate::written::Written;
use tap_base::{AstExpr, AstKind, NoMemory, Sign};

impl Written for AstExpr {
    ghost tokens = { expr_tokens };

    fn write(&self, pen: &mut Pen) -> Result<(), NoMemory> {
        write_at(pen, Level::WHOLE, self)
    }
}

/// The level of an expression by itself.
fn level_of(expr: &AstExpr) -> Level
    ensures { as_level result ≡ (phrase_of expr.now).level }
{
    match &expr.kind {
        AstKind::Number(_)
        | AstKind::Truth(_)
        | AstKind::Name(_)
        | AstKind::Index { .. }
        | AstKind::Part { .. } => Level::Atom,
        AstKind::Not(_) => Level::Negation,
        AstKind::Neg(_) => Level::Factor,
        AstKind::Binary { op, .. } => operation(*op),
    }
}

/// Writes an expression where one of a level is due: in parentheses exactly where its own level is looser.
#[cycle(expr)]
fn write_at(pen: &mut Pen, due: Level, expr: &AstExpr) -> Result<(), NoMemory>
    ensures { OnOk result (pen.new ≡ after pen.old (expr_tokens_at (as_level due) expr.now)) }
{
    if level_of(expr).tightness() < due.tightness() {
        pen.mark(Sign::Open)?;
        write_bare(pen, expr)?;
        pen.mark(Sign::Close)
    } else {
        write_bare(pen, expr)
    }
}

/// Writes an expression without parentheses around it.
#[cycle(expr)]
fn write_bare(pen: &mut Pen, expr: &AstExpr) -> Result<(), NoMemory>
    ensures { OnOk result (pen.new ≡ after pen.old (phrase_of expr.now).tokens) }
{
    match &expr.kind {
        AstKind::Number(number) => pen.number(*number),
        AstKind::Truth(true) => pen.mark(Sign::True),
        AstKind::Truth(false) => pen.mark(Sign::False),
        AstKind::Name(name) => pen.name(name.as_str()),
        AstKind::Index { name, index } => {
            pen.name(name.as_str())?;
            pen.mark(Sign::OpenIndex)?;
            write_at(pen, Level::WHOLE, index.get())?;
            pen.mark(Sign::CloseIndex)
        }
        AstKind::Part { message, field } => {
            pen.name(message.as_str())?;
            pen.mark(Sign::Dot)?;
            pen.name(field.as_str())
        }
        AstKind::Not(inner) => {
            pen.mark(Sign::Not)?;
            write_at(pen, Level::Relation, inner.get())
        }
        AstKind::Neg(inner) => {
            pen.mark(Sign::Minus)?;
            write_at(pen, Level::Atom, inner.get())
        }
        AstKind::Binary { op, left, right } if is_choice(*op) => {
            pen.mark(operator(*op))?;
            pen.mark(Sign::Open)?;
            write_at(pen, Level::WHOLE, left.get())?;
            pen.mark(Sign::Comma)?;
            write_at(pen, Level::WHOLE, right.get())?;
            pen.mark(Sign::Close)
        }
        AstKind::Binary { op, left, right } => {
            write_at(pen, left_side(*op), left.get())?;
            pen.mark(operator(*op))?;
            write_at(pen, right_side(*op), right.get())
        }
    }
}
