//! Statements without statements in them.

ghost use Rattle.tap_lexer.specs.Depth.{IsShallow};
ghost use Rattle.tap_lexer.specs.Lexeme.{lexemes};
ghost use Rattle.tap_lexer.specs.Spans.{AreTexts};
ghost use Rattle.tap_lexer.specs.inner.Reading.{Shows};
ghost use Rattle.tap_parser.specs.Statements.{IsStmt};
ghost use Rattle.tap_parser.specs.Systems.{Sized};
ghost use Rattle.tap_parser.specs.inner.Forms.{StmtStops};
ghost use Rattle.tap_parser.specs.inner.Reading.{Answers};

use crate::exprs::{read_expr, read_target};
use crate::forms::{Expression, Target};
use crate::kept::Kept;
use crate::leaves::{expect, read_name};
use crate::lists::{read_separated, read_until};
use crate::nodes::{assignment, choice, send, start};
use tap_base::{AstStmt, Sign};
use tap_expr::Stuck;
use tap_lexer::{Found, Source};

/// Targets, `:=` and values.
pub fn read_assignment(source: &Source, at: usize) -> Result<Found<Kept<AstStmt>>, Stuck>
    requires texts { AreTexts source.now.text.now source.now.tokens.now }
    requires shallow { IsShallow (lexemes source.now.text.now source.now.tokens.now) }
    requires shows { Shows Sign.Name (lexemes source.now.text.now source.now.tokens.now) at }
    ensures { Answers (λ n. IsStmt (Sized n)) StmtStops (lexemes source.now.text.now source.now.tokens.now) at result }
{
    let targets = read_separated::<Target>(source, Sign::Comma, at)?;
    let behind = expect(source, Sign::Becomes, targets.next)?;
    let values = read_separated::<Expression>(source, Sign::Comma, behind)?;
    Ok(Found {
        value: assignment(targets.value, values.value),
        next: values.next,
    })
}

/// `choose` and its target.
pub fn read_choice(source: &Source, at: usize) -> Result<Found<Kept<AstStmt>>, Stuck>
    requires texts { AreTexts source.now.text.now source.now.tokens.now }
    requires shallow { IsShallow (lexemes source.now.text.now source.now.tokens.now) }
    requires shows { Shows Sign.Choose (lexemes source.now.text.now source.now.tokens.now) at }
    ensures { Answers (λ n. IsStmt (Sized n)) StmtStops (lexemes source.now.text.now source.now.tokens.now) at result }
{
    let behind = expect(source, Sign::Choose, at)?;
    let target = read_target(source, behind)?;
    Ok(Found {
        value: choice(target.value),
        next: target.next,
    })
}

/// `send`, the message with its values, and the receiver.
pub fn read_send(source: &Source, at: usize) -> Result<Found<Kept<AstStmt>>, Stuck>
    requires texts { AreTexts source.now.text.now source.now.tokens.now }
    requires shallow { IsShallow (lexemes source.now.text.now source.now.tokens.now) }
    requires shows { Shows Sign.Send (lexemes source.now.text.now source.now.tokens.now) at }
    ensures { Answers (λ n. IsStmt (Sized n)) StmtStops (lexemes source.now.text.now source.now.tokens.now) at result }
{
    let behind = expect(source, Sign::Send, at)?;
    let message = read_name(source, behind)?;
    let behind = expect(source, Sign::Open, message.next)?;
    let values = read_until::<Expression>(source, Sign::Comma, Sign::Close, behind)?;
    let behind = expect(source, Sign::To, values.next)?;
    let to = read_name(source, behind)?;
    Ok(Found {
        value: send(message.value, values.value, to.value),
        next: to.next,
    })
}

/// `start`, the timer and its delay.
pub fn read_start(source: &Source, at: usize) -> Result<Found<Kept<AstStmt>>, Stuck>
    requires texts { AreTexts source.now.text.now source.now.tokens.now }
    requires shallow { IsShallow (lexemes source.now.text.now source.now.tokens.now) }
    requires shows { Shows Sign.Start (lexemes source.now.text.now source.now.tokens.now) at }
    ensures { Answers (λ n. IsStmt (Sized n)) StmtStops (lexemes source.now.text.now source.now.tokens.now) at result }
{
    let behind = expect(source, Sign::Start, at)?;
    let timer = read_name(source, behind)?;
    let behind = expect(source, Sign::After, timer.next)?;
    let delay = read_expr(source, behind)?;
    Ok(Found {
        value: start(timer.value, delay.value),
        next: delay.next,
    })
}

/// `stop` and the timer.
pub fn read_stop(source: &Source, at: usize) -> Result<Found<Kept<AstStmt>>, Stuck>
    requires texts { AreTexts source.now.text.now source.now.tokens.now }
    requires shows { Shows Sign.Stop (lexemes source.now.text.now source.now.tokens.now) at }
    ensures { Answers (λ n. IsStmt (Sized n)) StmtStops (lexemes source.now.text.now source.now.tokens.now) at result }
{
    let behind = expect(source, Sign::Stop, at)?;
    let timer = read_name(source, behind)?;
    Ok(Found {
        value: Kept::Whole(AstStmt::Stop { timer: timer.value }),
        next: timer.next,
    })
}
