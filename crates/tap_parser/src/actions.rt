//! Guards, and the actions that they begin.

ghost use Rattle.tap_lexer.specs.Depth.{IsShallow};
ghost use Rattle.tap_lexer.specs.Lexeme.{lexemes};
ghost use Rattle.tap_lexer.specs.Spans.{AreTexts};
ghost use Rattle.tap_lexer.specs.inner.Reading.{Shows};
ghost use Rattle.tap_expr.specs.Grammar.{expression};
ghost use Rattle.tap_expr.specs.inner.ExprReading.{Stops};
ghost use Rattle.tap_parser.specs.Statements.{IsAction, IsGuard};
ghost use Rattle.tap_parser.specs.Systems.{Sized};
ghost use Rattle.tap_parser.specs.inner.Forms.{BodyStops};
ghost use Rattle.tap_parser.specs.inner.Reading.{Answers};

use crate::exprs::read_expr;
use crate::kept::Kept;
use crate::leaves::{expect, read_name};
use crate::nodes::{action, local};
use crate::stmts::read_stmts;
use tap_base::{AstAction, AstGuard, Sign};
use tap_expr::Stuck;
use tap_lexer::{Found, Source};

/// A guard, `->` and statements. The action stands at its first token.
pub fn read_action(source: &Source, at: usize) -> Result<Found<Kept<AstAction>>, Stuck>
    requires texts { AreTexts source.now.text.now source.now.tokens.now }
    requires shallow { IsShallow (lexemes source.now.text.now source.now.tokens.now) }
    ensures { Answers (λ n. IsAction (Sized n)) BodyStops (lexemes source.now.text.now source.now.tokens.now) at result }
{
    let Some(token) = source.token(at) else {
        return Err(Stuck::At(at));
    };
    let guard = read_guard(source, at)?;
    let behind = expect(source, Sign::Arrow, guard.next)?;
    let body = read_stmts(source, behind)?;
    Ok(Found {
        value: action(guard.value, body.value, token.place),
        next: body.next,
    })
}

/// A receive, a timeout, or an expression.
fn read_guard(source: &Source, at: usize) -> Result<Found<Kept<AstGuard>>, Stuck>
    requires texts { AreTexts source.now.text.now source.now.tokens.now }
    requires shallow { IsShallow (lexemes source.now.text.now source.now.tokens.now) }
    ensures { Answers (λ n. IsGuard (Sized n)) (Stops expression)
        (lexemes source.now.text.now source.now.tokens.now) at result }
{
    if source.shows(at, Sign::Rcv) {
        return read_receive(source, at);
    }
    if source.shows(at, Sign::Timeout) {
        let timer = read_name(source, at + 1)?;
        return Ok(Found {
            value: Kept::Whole(AstGuard::Timeout { timer: timer.value }),
            next: timer.next,
        });
    }
    let guard = read_expr(source, at)?;
    Ok(Found {
        value: local(guard.value),
        next: guard.next,
    })
}

/// `rcv`, the message, and the sender.
fn read_receive(source: &Source, at: usize) -> Result<Found<Kept<AstGuard>>, Stuck>
    requires texts { AreTexts source.now.text.now source.now.tokens.now }
    requires shows { Shows Sign.Rcv (lexemes source.now.text.now source.now.tokens.now) at }
    ensures { Answers (λ n. IsGuard (Sized n)) (Stops expression)
        (lexemes source.now.text.now source.now.tokens.now) at result }
{
    let behind = expect(source, Sign::Rcv, at)?;
    let message = read_name(source, behind)?;
    let behind = expect(source, Sign::From, message.next)?;
    let from = read_name(source, behind)?;
    Ok(Found {
        value: Kept::Whole(AstGuard::Receive {
            message: message.value,
            from: from.value,
        }),
        next: from.next,
    })
}
