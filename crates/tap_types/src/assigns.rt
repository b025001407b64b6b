//! Assignments: targets, and a value for each.

ghost use Rattle.std.specs.Prelude.{◌≡◌, map};
ghost use Rattle.tap_base.specs.Option.{each};
ghost use Rattle.tap_base.specs.Offences.{Clears};
ghost use Rattle.tap_names.specs.Refusals.{Judges};
ghost use Rattle.tap_types.specs.ExprOffences.{judged_in};
ghost use Rattle.tap_types.specs.StmtOffences.{assignment_offences, kind_at, unequal, value_to, values_to};
ghost use Rattle.tap_types.specs.Systems.{assignment_of, expr_of};
ghost use Rattle.tap_types.specs.inner.Typing.{IsListed, scope_of};

use crate::exprs::{type_expr, type_value};
use crate::scope::Names;
use crate::targets::aim_all;
use std::alloc::Global;
use tap_base::{AstExpr, AstTarget, Expr, List, Refusal, RefusalCode, Stmt, item};
use tap_names::{Kind, TypeFault, refusal};

/// Targets, then as many values.
#[tactic(auto, using(tap_names::proofs::Faults::front, tap_names::proofs::Faults::back, tap_names::proofs::Faults::refused))]
pub fn type_assignment(
    alloc: Global,
    names: &Names,
    targets: &[AstTarget],
    values: &[AstExpr],
) -> Result<Stmt, TypeFault>
    requires { IsListed names.now }
    ensures { let c = scope_of names.now in
        Judges (assignment_offences c targets.now values.now) (assignment_of c targets.now values.now) result }
{
    let aimed = aim_all(alloc, names, targets)?;
    check_counts(targets, values)?;
    let values = type_values_to(alloc, names, aimed.kinds.as_slice(), values)?;
    Ok(Stmt::Assign {
        targets: aimed.targets,
        values,
    })
}

/// Whether there are as many values as targets.
fn check_counts(targets: &[AstTarget], values: &[AstExpr]) -> Result<(), Refusal>
    ensures { Clears (unequal targets.now values.now) result }
{
    let Some(first) = targets.first() else {
        return Ok(());
    };
    if targets.len() == values.len() {
        Ok(())
    } else {
        Err(refusal(RefusalCode::K2, first.name.place))
    }
}

/// Values, each of the kind that is written to the target of its number.
#[tactic(auto, using(tap_names::proofs::Faults::front, tap_names::proofs::Faults::back, tap_names::proofs::Faults::refused))]
fn type_values_to(
    alloc: Global,
    names: &Names,
    kinds: &[Kind],
    values: &[AstExpr],
) -> Result<List<Expr>, TypeFault>
    requires { IsListed names.now }
    ensures { let c = scope_of names.now in
        Judges (values_to c (map Some kinds.now) values.now) (each (expr_of c) values.now) result }
{
    let mut found = List::new(alloc);
    'values: for at in 0..values.len() {
        let due = kind_at(kinds, at);
        found.push(type_value_to(alloc, names, &values[at], due)?)?;
    }
    Ok(found)
}

/// The kind of the number.
fn kind_at(kinds: &[Kind], at: usize) -> Option<Kind>
    ensures { result ≡ kind_at (map Some kinds.now) at }
{
    item(kinds, at).copied()
}

#[tactic(auto, using(tap_names::proofs::Faults::front, tap_names::proofs::Faults::back, tap_names::proofs::Faults::refused))]
fn type_value_to(
    alloc: Global,
    names: &Names,
    value: &AstExpr,
    due: Option<Kind>,
) -> Result<Expr, TypeFault>
    requires { IsListed names.now }
    ensures { let c = scope_of names.now in
        Judges (value_to due (judged_in c value.now)) (expr_of c value.now) result }
{
    match due {
        None => {
            let found = type_expr(alloc, names, value)?;
            Ok(found.expr)
        }
        Some(due) => type_value(alloc, names, value, due),
    }
}
