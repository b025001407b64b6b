//! Expressions whose names are declared and whose parts are of the right kinds.

ghost use Rattle.std.specs.Prelude.{◌≡◌, flat_map};
ghost use Rattle.tap_base.specs.Option.{each};
ghost use Rattle.tap_names.specs.Refusals.{Judges};
ghost use Rattle.tap_types.specs.ExprOffences.{judged_in, value_offences};
ghost use Rattle.tap_types.specs.Systems.{expr_of, truth_number};
ghost use Rattle.tap_types.specs.inner.Typing.{IsListed, Types, scope_of};

use crate::kinds::{check_operands, given_by, of_kind};
use crate::leaves::{array_at, type_name, type_part, typed};
use crate::scope::{Names, Typed};
use std::alloc::Global;
use tap_base::{AstExpr, AstKind, Boxed, Expr, ExprKind, List};
use tap_names::{Kind, TypeFault};

/// An expression with its kind.
#[tactic(auto, using(tap_names::proofs::Faults::front, tap_names::proofs::Faults::back, tap_names::proofs::Faults::refused))]
pub fn type_expr(alloc: Global, names: &Names, expr: &AstExpr) -> Result<Typed, TypeFault>
    requires { IsListed names.now }
    ensures { let c = scope_of names.now in
        Types (judged_in c expr.now).offences (judged_in c expr.now).kind (expr_of c expr.now) result }
{
    let place = expr.place;
    match &expr.kind {
        AstKind::Number(number) => Ok(typed(ExprKind::Number(*number), Kind::Number, place)),
        AstKind::Truth(truth) => {
            Ok(typed(ExprKind::Number(truth_number(*truth)), Kind::Boolean, place))
        }
        AstKind::Name(name) => Ok(type_name(names.named(name.as_str()), place)?),
        AstKind::Index { name, index } => {
            let array = array_at(names.named(name.as_str()), place)?;
            let found = type_expr(alloc, names, index.get())?;
            let index = of_kind(found, Kind::Number, index.get().place)?;
            let kind = ExprKind::Element {
                first: array.first,
                length: array.length,
                index: Boxed::new(alloc, index)?,
            };
            Ok(typed(kind, array.kind, place))
        }
        AstKind::Part { message, field } => {
            Ok(type_part(names, message.as_str(), field.as_str(), place)?)
        }
        AstKind::Not(inner) => {
            let found = type_expr(alloc, names, inner.get())?;
            let inner = of_kind(found, Kind::Boolean, inner.get().place)?;
            let kind = ExprKind::Not(Boxed::new(alloc, inner)?);
            Ok(typed(kind, Kind::Boolean, place))
        }
        AstKind::Neg(inner) => {
            let found = type_expr(alloc, names, inner.get())?;
            let inner = of_kind(found, Kind::Number, inner.get().place)?;
            let kind = ExprKind::Neg(Boxed::new(alloc, inner)?);
            Ok(typed(kind, Kind::Number, place))
        }
        AstKind::Binary { op, left, right } => {
            let a = type_expr(alloc, names, left.get())?;
            let b = type_expr(alloc, names, right.get())?;
            check_operands(*op, left.get().place, a.kind, right.get().place, b.kind)?;
            let kind = ExprKind::Binary {
                op: *op,
                left: Boxed::new(alloc, a.expr)?,
                right: Boxed::new(alloc, b.expr)?,
            };
            Ok(typed(kind, given_by(*op), place))
        }
    }
}

/// An expression where one of a kind is due.
#[tactic(auto, using(tap_names::proofs::Faults::front, tap_names::proofs::Faults::back, tap_names::proofs::Faults::refused))]
pub fn type_value(
    alloc: Global,
    names: &Names,
    expr: &AstExpr,
    due: Kind,
) -> Result<Expr, TypeFault>
    requires { IsListed names.now }
    ensures { let c = scope_of names.now in
        Judges (value_offences c due expr.now) (expr_of c expr.now) result }
{
    let found = type_expr(alloc, names, expr)?;
    let value = of_kind(found, due, expr.place)?;
    Ok(value)
}

/// Expressions where some of a kind are due.
#[tactic(auto, using(tap_names::proofs::Faults::front, tap_names::proofs::Faults::back, tap_names::proofs::Faults::refused))]
pub fn type_values(
    alloc: Global,
    names: &Names,
    values: &[AstExpr],
    due: Kind,
) -> Result<List<Expr>, TypeFault>
    requires { IsListed names.now }
    ensures { let c = scope_of names.now in
        Judges (flat_map (value_offences c due) values.now) (each (expr_of c) values.now) result }
{
    let mut found = List::new(alloc);
    'values: for value in values {
        found.push(type_value(alloc, names, value, due)?)?;
    }
    Ok(found)
}

fn truth_number(truth: bool) -> i64
    ensures { result ≡ truth_number truth }
{
    if truth { 1 } else { 0 }
}
