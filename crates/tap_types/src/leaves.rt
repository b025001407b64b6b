//! Names in expressions: of values, of arrays, and of fields of the message that is received.

ghost use Rattle.std.specs.Prelude.{◌≡◌, option_and_then};
ghost use Rattle.std.specs.Option.{option_map};
ghost use Rattle.tap_base.specs.declared.tree.ExprKind.{ExprKind};
ghost use Rattle.tap_types.specs.ExprOffences.{kind_of_name, name_alone, part_offences};
ghost use Rattle.tap_types.specs.Scopes.{message_in};
ghost use Rattle.tap_types.specs.Systems.{name_kind, node, part_kind};
ghost use Rattle.tap_types.specs.inner.Typing.{Finds, IsListed, Kinds, scope_of};

use crate::scope::{Names, Typed};
use tap_base::{Expr, ExprKind, Place, Refusal, RefusalCode};
use tap_names::{Kind, Named, refusal};

/// An array, by its first cell.
#[derive(Clone, Copy, Debug)]
pub struct ArrayAt {
    pub first: u32,
    pub length: u32,
    pub kind: Kind,
}

pub fn typed(kind: ExprKind, is: Kind, place: Place) -> Typed
    ensures expr { result.expr ≡ node place kind }
    ensures kind { result.kind ≡ is }
{
    Typed {
        expr: Expr { kind, place },
        kind: is,
    }
}

/// A name by itself.
pub fn type_name(named: Option<Named>, place: Place) -> Result<Typed, Refusal>
    ensures { Kinds (name_alone place named) (kind_of_name named) (option_map (node place) (name_kind named)) result }
{
    match named {
        None => Err(refusal(RefusalCode::N1, place)),
        Some(Named::Constant(value)) => { Ok(typed(ExprKind::Number(value), Kind::Number, place)) }
        Some(Named::Input { number, kind }) => Ok(typed(ExprKind::Input(number), kind, place)),
        Some(
            Named::Variable {
                first,
                kind,
                range: _,
            },
        ) => { Ok(typed(ExprKind::Cell(first), kind, place)) }
        Some(_) => Err(refusal(RefusalCode::K1, place)),
    }
}

/// The array that a name stands for.
pub fn array_at(named: Option<Named>, place: Place) -> Result<ArrayAt, Refusal>
    ensures { Finds place named result }
{
    match named {
        None => Err(refusal(RefusalCode::N1, place)),
        Some(
            Named::Array {
                first,
                length,
                kind,
                range: _,
            },
        ) => Ok(ArrayAt {
            first,
            length,
            kind,
        }),
        Some(_) => Err(refusal(RefusalCode::K1, place)),
    }
}

/// A field of the message that the action receives.
pub fn type_part(names: &Names, message: &str, field: &str, place: Place) -> Result<Typed, Refusal>
    requires { IsListed names.now }
    ensures { let c = scope_of names.now in
        Kinds (part_offences c place field.now (message_in c message.now)) (Some Kind.Number)
        (option_and_then (λ k. option_map (node place) (part_kind c k field.now)) (message_in c message.now)) result }
{
    let Some(number) = names.message(message) else {
        return Err(refusal(RefusalCode::N1, place));
    };
    if !names.receives(number) {
        return Err(refusal(RefusalCode::K1, place));
    }
    let Some(field) = names.field(number, field) else {
        return Err(refusal(RefusalCode::N1, place));
    };
    Ok(typed(ExprKind::Part(field), Kind::Number, place))
}
