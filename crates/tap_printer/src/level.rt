//! The levels of the grammar of expressions.

ghost use Rattle.std.specs.Prelude.{◌≡◌};
ghost use Rattle.tap_printer.specs.CanonicalExprs.{is_choice, left_of, level_of, operator, right_of, tightness};
ghost use Rattle.tap_printer.specs.inner.Levels.{as_level};

use tap_base::{Join, Op, Sign};

/// The levels of the grammar, from the loosest: chains by what joins them, and what stands between.
#[derive(Clone, Copy, Debug, PartialEq, Eq)]
pub enum Level {
    Joined(Join),
    Negation,
    Relation,
    Factor,
    Atom,
}

impl Level {
    /// The level of a whole expression.
    pub const WHOLE: Level = Level::Joined(Join::Disjunction);

    /// How far the level stands from the loosest.
    pub fn tightness(self) -> u8
        ensures { result ≡ tightness (as_level self) }
    {
        match self {
            Level::Joined(Join::Disjunction) => 0,
            Level::Joined(Join::Conjunction) => 1,
            Level::Negation => 2,
            Level::Relation => 3,
            Level::Joined(Join::Sum) => 4,
            Level::Joined(Join::Term) => 5,
            Level::Factor => 6,
            Level::Atom => 7,
        }
    }
}

/// The level of an operation.
pub fn operation(op: Op) -> Level
    ensures { as_level result ≡ level_of op }
{
    match op {
        Op::Or => Level::Joined(Join::Disjunction),
        Op::And => Level::Joined(Join::Conjunction),
        Op::Eq | Op::Ne | Op::Lt | Op::Le | Op::Gt | Op::Ge => Level::Relation,
        Op::Add | Op::Sub => Level::Joined(Join::Sum),
        Op::Mul | Op::Div | Op::Mod => Level::Joined(Join::Term),
        Op::Min | Op::Max => Level::Atom,
    }
}

/// The level of an operation's left operand. A chain stands there without parentheses.
pub fn left_side(op: Op) -> Level
    ensures { as_level result ≡ left_of (level_of op) }
{
    match operation(op) {
        Level::Joined(join) => Level::Joined(join),
        _ => Level::Joined(Join::Sum),
    }
}

/// The level of an operation's right operand, which is a part of a chain.
pub fn right_side(op: Op) -> Level
    ensures { as_level result ≡ right_of (level_of op) }
{
    match operation(op) {
        Level::Joined(Join::Disjunction) => Level::Joined(Join::Conjunction),
        Level::Joined(Join::Conjunction) => Level::Negation,
        Level::Joined(Join::Sum) => Level::Joined(Join::Term),
        Level::Joined(Join::Term) => Level::Factor,
        _ => Level::Joined(Join::Sum),
    }
}

/// Whether the operation is the choice of the lesser or the greater.
pub fn is_choice(op: Op) -> bool
    ensures { result ≡ is_choice op }
{
    matches!(op, Op::Min | Op::Max)
}

/// The sign of an operation.
pub fn operator(op: Op) -> Sign
    ensures { result ≡ operator op }
{
    match op {
        Op::Or => Sign::Or,
        Op::And => Sign::And,
        Op::Eq => Sign::Equal,
        Op::Ne => Sign::NotEqual,
        Op::Lt => Sign::Less,
        Op::Le => Sign::LessEqual,
        Op::Gt => Sign::Greater,
        Op::Ge => Sign::GreaterEqual,
        Op::Add => Sign::Plus,
        Op::Sub => Sign::Minus,
        Op::Mul => Sign::Star,
        Op::Div => Sign::Div,
        Op::Mod => Sign::Mod,
        Op::Min => Sign::Min,
        Op::Max => Sign::Max,
    }
}
