//! Kinds of operations and of what they stand on.

ghost use Rattle.std.specs.Prelude.{◌≡◌};
ghost use Rattle.tap_names.specs.Kinds.{given_by, taken_by};
ghost use Rattle.tap_base.specs.Offences.{Clears, Settles};
ghost use Rattle.tap_types.specs.ExprOffences.{operand_offences, other_kind};

use crate::scope::Typed;
use tap_base::{Expr, Op, Place, Refusal, RefusalCode};
use tap_names::{Kind, refusal};

/// What both operands have to be; `None` where they are any two of one kind.
fn taken_by(op: Op) -> Option<Kind>
    ensures { result ≡ taken_by op }
{
    match op {
        Op::Or | Op::And => Some(Kind::Boolean),
        Op::Eq | Op::Ne => None,
        _ => Some(Kind::Number),
    }
}

/// What an operation gives.
pub fn given_by(op: Op) -> Kind
    ensures { result ≡ given_by op }
{
    match op {
        Op::Add | Op::Sub | Op::Mul | Op::Div | Op::Mod | Op::Min | Op::Max => Kind::Number,
        _ => Kind::Boolean,
    }
}

/// The expression, where it is of the kind that is due.
pub fn of_kind(found: Typed, due: Kind, place: Place) -> Result<Expr, Refusal>
    ensures { Settles (other_kind due place (Some found.kind)) (Some found.expr) result }
{
    if found.kind == due {
        Ok(found.expr)
    } else {
        Err(refusal(RefusalCode::K1, place))
    }
}

/// Whether both operands are of the kind that the operation takes, or of one kind.
pub fn check_operands(op: Op, p: Place, k: Kind, q: Place, l: Kind) -> Result<(), Refusal>
    ensures { Clears (operand_offences (taken_by op) p (Some k) q (Some l)) result }
{
    match taken_by(op) {
        None => check_kind(q, l, k),
        Some(due) => {
            check_kind(p, k, due)?;
            check_kind(q, l, due)
        }
    }
}

fn check_kind(place: Place, is: Kind, due: Kind) -> Result<(), Refusal>
    ensures { Clears (other_kind due place (Some is)) result }
{
    if is == due {
        Ok(())
    } else {
        Err(refusal(RefusalCode::K1, place))
    }
}
