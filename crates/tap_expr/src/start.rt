//! What an atom begins with.

ghost use Rattle.std.specs.Prelude.{◌≡◌};
ghost use Rattle.tap_expr.specs.inner.ExprSigns.{starting};

use tap_base::{Op, Sign};

/// What an atom begins with.
#[derive(Clone, Copy, Debug)]
pub enum Start {
    Number,
    Truth(bool),
    /// A name, an element of an array, or a field of a message.
    Name,
    /// The lesser or the greater of two.
    Choice(Op),
    /// An expression in parentheses.
    Group,
    /// No atom begins so.
    Nothing,
}

/// What an atom begins with, by the sign of its first token.
pub fn starting(sign: Sign) -> Start
    ensures { result ≡ starting sign }
{
    match sign {
        Sign::Number => Start::Number,
        Sign::True => Start::Truth(true),
        Sign::False => Start::Truth(false),
        Sign::Name => Start::Name,
        Sign::Min => Start::Choice(Op::Min),
        Sign::Max => Start::Choice(Op::Max),
        Sign::Open => Start::Group,
        _ => Start::Nothing,
    }
}
