//! What a reader of expressions answers.

use tap_base::{AstExpr, NoMemory};

/// What is kept of an expression that was read. A chain may be as long as its text, so what has more
/// than 200 nodes is let go and only read on: no deeper tree is ever built, walked or dropped.
#[derive(Debug, Drop)]
pub enum Built {
    /// The expression, and how many nodes it has: at most 200.
    Whole { expr: AstExpr, nodes: u8 },
    /// More than 200 nodes.
    Large,
}

/// Why no expression was read.
#[derive(Clone, Copy, Debug, PartialEq, Eq)]
pub enum Stuck {
    /// The tokens up to and with the one of this number begin no expression.
    At(usize),
    /// Memory was refused.
    NoMemory,
}

impl From<NoMemory> for Stuck {
    ghost use Rattle.std.specs.Prelude.{◌≡◌};
    ghost use Rattle.tap_expr.specs.declared.found.Stuck.TheVariants as stuck;

    ghost from_gives = { λ _ e. e ≡ stuck.NoMemory };

    fn from(_e: NoMemory) -> Stuck {
        Stuck::NoMemory
    }
}
