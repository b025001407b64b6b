//! Signs that join the parts of a chain, and signs that compare.

ghost use Rattle.std.specs.Prelude.{◌≡◌, ◌<◌, length, IfSome};
ghost use Rattle.tap_lexer.specs.Spans.{AreTexts};
ghost use Rattle.tap_expr.specs.Grammar.{joining, relating};
ghost use Rattle.tap_expr.specs.inner.ExprSigns.{Joins, Relates};

use tap_base::{Join, Op, Sign, Token};
use tap_lexer::Source;

/// The operation by which a sign joins the parts of a chain.
fn joining(join: Join, sign: Sign) -> Option<Op>
    ensures { result ≡ joining join sign }
{
    match (join, sign) {
        (Join::Disjunction, Sign::Or) => Some(Op::Or),
        (Join::Conjunction, Sign::And) => Some(Op::And),
        (Join::Sum, Sign::Plus) => Some(Op::Add),
        (Join::Sum, Sign::Minus) => Some(Op::Sub),
        (Join::Term, Sign::Star) => Some(Op::Mul),
        (Join::Term, Sign::Div) => Some(Op::Div),
        (Join::Term, Sign::Mod) => Some(Op::Mod),
        _ => None,
    }
}

/// The comparison that a sign is.
fn relating(sign: Sign) -> Option<Op>
    ensures { result ≡ relating sign }
{
    match sign {
        Sign::Equal => Some(Op::Eq),
        Sign::NotEqual => Some(Op::Ne),
        Sign::Less => Some(Op::Lt),
        Sign::LessEqual => Some(Op::Le),
        Sign::Greater => Some(Op::Gt),
        Sign::GreaterEqual => Some(Op::Ge),
        _ => None,
    }
}

/// The token at a place with its operation, if it joins the parts of such a chain.
pub fn joiner(source: &Source, join: Join, at: usize) -> Option<(Op, Token)>
    requires { AreTexts source.now.text.now source.now.tokens.now }
    ensures within { IfSome result (λ _. at < length source.now.tokens.now) }
    ensures is { Joins join source.now.text.now source.now.tokens.now at result }
{
    let token = source.token(at)?;
    let op = joining(join, source.sign(token))?;
    Some((op, token))
}

/// The token at a place with its operation, if it compares.
pub fn relator(source: &Source, at: usize) -> Option<(Op, Token)>
    requires { AreTexts source.now.text.now source.now.tokens.now }
    ensures within { IfSome result (λ _. at < length source.now.tokens.now) }
    ensures is { Relates source.now.text.now source.now.tokens.now at result }
{
    let token = source.token(at)?;
    let op = relating(source.sign(token))?;
    Some((op, token))
}
