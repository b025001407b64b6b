//! Expressions and targets, with what is kept of them.

ghost use Rattle.std.specs.Prelude.{◌≡◌};
ghost use Rattle.tap_lexer.specs.Depth.{IsShallow};
ghost use Rattle.tap_lexer.specs.Lexeme.{lexemes};
ghost use Rattle.tap_lexer.specs.Spans.{AreTexts};
ghost use Rattle.tap_lexer.specs.inner.Reading.{Lacks};
ghost use Rattle.tap_expr.specs.Grammar.{expression};
ghost use Rattle.tap_expr.specs.inner.ExprReading.{Stops};
ghost use Rattle.tap_parser.specs.Statements.{IsTarget};
ghost use Rattle.tap_parser.specs.Systems.{Sized};
ghost use Rattle.tap_parser.specs.inner.Keeping.{kept_of};
ghost use Rattle.tap_parser.specs.inner.Reading.{Answers};

use crate::kept::Kept;
use crate::leaves::{expect, read_name};
use crate::nodes::{element, whole_target};
use tap_base::{AstExpr, AstTarget, Sign};
use tap_expr::{Built, Stuck, read_expr as read_built};
use tap_lexer::{Found, Source};

/// An expression.
pub fn read_expr(source: &Source, at: usize) -> Result<Found<Kept<AstExpr>>, Stuck>
    requires texts { AreTexts source.now.text.now source.now.tokens.now }
    requires shallow { IsShallow (lexemes source.now.text.now source.now.tokens.now) }
    ensures { Answers Sized (Stops expression) (lexemes source.now.text.now source.now.tokens.now) at result }
{
    let found = read_built(source, at)?;
    Ok(Found {
        value: kept(found.value, at),
        next: found.next,
    })
}

/// What is kept of an expression that begins at a place.
fn kept(built: Built, at: usize) -> Kept<AstExpr>
    ensures { result ≡ kept_of built at }
{
    match built {
        Built::Whole { expr, .. } => Kept::Whole(expr),
        Built::Large => Kept::Large(at),
    }
}

/// A variable, or an element of an array.
pub fn read_target(source: &Source, at: usize) -> Result<Found<Kept<AstTarget>>, Stuck>
    requires texts { AreTexts source.now.text.now source.now.tokens.now }
    requires shallow { IsShallow (lexemes source.now.text.now source.now.tokens.now) }
    ensures { Answers (λ n. IsTarget (Sized n)) (Lacks Sign.OpenIndex)
        (lexemes source.now.text.now source.now.tokens.now) at result }
{
    let name = read_name(source, at)?;
    if source.shows(name.next, Sign::OpenIndex) {
        let index = read_expr(source, name.next + 1)?;
        let next = expect(source, Sign::CloseIndex, index.next)?;
        return Ok(Found {
            value: element(name.value, index.value),
            next,
        });
    }
    Ok(Found {
        value: whole_target(name.value),
        next: name.next,
    })
}
