//! Actions whose names are declared.

ghost use Rattle.std.specs.Prelude.{◌≡◌};
ghost use Rattle.tap_types.specs.ActionOffences.{action_offences, actions_offences, after_guard, guard_offences, received_by};
ghost use Rattle.tap_base.specs.Option.{each};
ghost use Rattle.tap_names.specs.Refusals.{Judges};
ghost use Rattle.tap_types.specs.Systems.{action_of, guard_of};
ghost use Rattle.tap_types.specs.inner.Typing.{IsListed, scope_of};

use crate::exprs::type_value;
use crate::scope::Names;
use crate::stmts::type_body;
use crate::uses::{message_named, peer_named, timer_named};
use std::alloc::Global;
use tap_base::{Action, AstAction, AstGuard, Guard, List};
use tap_names::{Kind, TypeFault};

/// The actions of a process.
#[tactic(auto, using(tap_names::proofs::Faults::front, tap_names::proofs::Faults::back, tap_names::proofs::Faults::refused))]
pub fn type_actions(
    alloc: Global,
    names: &Names,
    actions: &[AstAction],
) -> Result<List<Action>, TypeFault>
    requires { IsListed names.now }
    ensures { let c = scope_of names.now in
        Judges (actions_offences c actions.now) (each (action_of c) actions.now) result }
{
    let mut found = List::new(alloc);
    'actions: for action in actions {
        found.push(type_action(alloc, names, action)?)?;
    }
    Ok(found)
}

#[tactic(auto, using(tap_names::proofs::Faults::front, tap_names::proofs::Faults::back, tap_names::proofs::Faults::refused))]
fn type_action(alloc: Global, names: &Names, action: &AstAction) -> Result<Action, TypeFault>
    requires { IsListed names.now }
    ensures { let c = scope_of names.now in
        Judges (action_offences c action.now) (action_of c action.now) result }
{
    let guard = type_guard(alloc, names, &action.guard)?;
    let behind = names_behind(names, &action.guard);
    let body = type_body(alloc, &behind, action.body.as_slice())?;
    Ok(Action {
        guard,
        body,
        place: action.place,
    })
}

#[tactic(auto, using(tap_names::proofs::Faults::front, tap_names::proofs::Faults::back, tap_names::proofs::Faults::refused))]
fn type_guard(alloc: Global, names: &Names, guard: &AstGuard) -> Result<Guard, TypeFault>
    requires { IsListed names.now }
    ensures { let c = scope_of names.now in
        Judges (guard_offences c guard.now) (guard_of c guard.now) result }
{
    match guard {
        AstGuard::Local(expr) => {
            let test = type_value(alloc, names, expr, Kind::Boolean)?;
            Ok(Guard::Local(test))
        }
        AstGuard::Receive { message, from } => {
            let message = message_named(names, message)?;
            let from = peer_named(names, from)?;
            Ok(Guard::Receive { message, from })
        }
        AstGuard::Timeout { timer } => {
            let timer = timer_named(names, timer)?;
            Ok(Guard::Timeout { timer })
        }
    }
}

/// What the names behind a guard stand for: the action receives the guard's message.
fn names_behind<'a>(names: &Names<'a>, guard: &AstGuard) -> Names<'a>
    requires { IsListed names.now }
    ensures scope { scope_of result ≡ after_guard (scope_of names.now) guard.now }
    ensures few { IsListed result }
{
    Names {
        messages: names.messages,
        message_table: names.message_table,
        field_tables: names.field_tables,
        process_table: names.process_table,
        me: names.me,
        constants: names.constants,
        others: names.others,
        received: received_by(names, guard),
    }
}

fn received_by(names: &Names, guard: &AstGuard) -> Option<u32>
    requires { IsListed names.now }
    ensures { result ≡ received_by (scope_of names.now) guard.now }
{
    match guard {
        AstGuard::Receive { message, from: _ } => names.message(message.text.as_str()),
        _ => None,
    }
}
