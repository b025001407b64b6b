//! Expressions from a token on, and expressions that all the tokens of a text are.

ghost use Rattle.std.specs.Prelude.{◌≤◌, length};
ghost use Rattle.tap_lexer.specs.Depth.{IsShallow};
ghost use Rattle.tap_lexer.specs.Lexeme.{lexemes};
ghost use Rattle.tap_lexer.specs.Spans.{AreTexts};
ghost use Rattle.tap_lexer.specs.Tokens.{SpellsTokens};
ghost use Rattle.tap_expr.specs.Grammar.{expression};
ghost use Rattle.tap_expr.specs.inner.ExprReading.{Answers};
ghost use Rattle.tap_expr.specs.inner.Exprs.{WholeAnswers, ExprAnswers};

use crate::chains::read_joined;
use crate::depth::first_too_deep;
use crate::fault::ParseFault;
use crate::found::{Built, Stuck};
use crate::places::place_at;
use std::alloc::Global;
use tap_base::{AstExpr, Join, Refusal, RefusalCode, Token};
use tap_lexer::{Found, Source};

/// The one expression that all the tokens of a text spell, or their first offence: S2 at the first token
/// that opens a bracket of depth 33; S1 where they spell no expression, at a token such that those up
/// to and with it begin none, or just behind the last token; S3 where the expression has more than 200
/// nodes, at its first token.
pub fn parse_expr(alloc: Global, text: &[u8], tokens: &[Token]) -> Result<AstExpr, ParseFault>
    requires sized { length text.now ≤ 1048576 }
    requires lexed { SpellsTokens text.now tokens.now }
    ensures { ExprAnswers text.now tokens.now result }
{
    let source = Source {
        alloc,
        text,
        tokens,
    };
    if let Some(at) = first_too_deep(&source) {
        return Err(ParseFault::Refused(Refusal {
            code: RefusalCode::S2,
            place: place_at(&source, at),
        }));
    }
    match read_whole(&source) {
        Ok(Built::Whole { expr, .. }) => Ok(expr),
        Ok(Built::Large) => Err(ParseFault::Refused(Refusal {
            code: RefusalCode::S3,
            place: place_at(&source, 0),
        })),
        Err(Stuck::At(at)) => Err(ParseFault::Refused(Refusal {
            code: RefusalCode::S1,
            place: place_at(&source, at),
        })),
        Err(Stuck::NoMemory) => Err(ParseFault::NoMemory),
    }
}

/// What is kept of the expression that stands at a token, and the number of the token behind it. No
/// bracket may be too deep: how deep the calls go is bounded by nothing else.
pub fn read_expr(source: &Source, at: usize) -> Result<Found<Built>, Stuck>
    requires texts { AreTexts source.now.text.now source.now.tokens.now }
    requires shallow { IsShallow (lexemes source.now.text.now source.now.tokens.now) }
    ensures { Answers expression (lexemes source.now.text.now source.now.tokens.now) at result }
{
    read_joined(source, Join::Disjunction, at)
}

/// What is kept of the expression that all the tokens spell.
fn read_whole(source: &Source) -> Result<Built, Stuck>
    requires texts { AreTexts source.now.text.now source.now.tokens.now }
    requires shallow { IsShallow (lexemes source.now.text.now source.now.tokens.now) }
    ensures { WholeAnswers (lexemes source.now.text.now source.now.tokens.now) result }
{
    let found = read_expr(source, 0)?;
    if found.next < source.tokens.len() {
        return Err(Stuck::At(found.next));
    }
    Ok(found.value)
}
