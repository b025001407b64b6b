//! Expressions down to atoms: chains of parts, comparisons, and the signs before a part.

ghost use Rattle.tap_lexer.specs.Depth.{IsShallow};
ghost use Rattle.tap_lexer.specs.Lexeme.{lexemes};
ghost use Rattle.tap_lexer.specs.Spans.{AreTexts};
ghost use Rattle.tap_expr.specs.Grammar.{joined, part_of, negation, relation, factor};
ghost use Rattle.tap_expr.specs.inner.ExprReading.{Answers};

use crate::atoms::read_atom;
use crate::found::{Built, Stuck};
use crate::nodes::{denial, operation, opposite};
use crate::signs::{joiner, relator};
use tap_base::{Join, Sign};
use tap_lexer::{Found, Source};

/// Parts with joining signs between them, grouped from the left. A whole expression is a
/// disjunction.
#[cycle(expr)]
pub fn read_joined(source: &Source, join: Join, at: usize) -> Result<Found<Built>, Stuck>
    requires texts { AreTexts source.now.text.now source.now.tokens.now }
    requires shallow { IsShallow (lexemes source.now.text.now source.now.tokens.now) }
    ensures { Answers (joined join) (lexemes source.now.text.now source.now.tokens.now) at result }
{
    let Found {
        mut value,
        mut next,
    } = read_part(source, join, at)?;
    'parts: while let Some((op, token)) = joiner(source, join, next) {
        let right = read_part(source, join, next + 1)?;
        value = operation(source.alloc, op, value, right.value, token.place)?;
        next = right.next;
    }
    Ok(Found { value, next })
}

/// A part of a chain.
#[cycle(expr)]
fn read_part(source: &Source, join: Join, at: usize) -> Result<Found<Built>, Stuck>
    requires texts { AreTexts source.now.text.now source.now.tokens.now }
    requires shallow { IsShallow (lexemes source.now.text.now source.now.tokens.now) }
    ensures { Answers (part_of join) (lexemes source.now.text.now source.now.tokens.now) at result }
{
    match join {
        Join::Disjunction => read_joined(source, Join::Conjunction, at),
        Join::Conjunction => read_negation(source, at),
        Join::Sum => read_joined(source, Join::Term, at),
        Join::Term => read_factor(source, at),
    }
}

/// A comparison, or `not` before one.
#[cycle(expr)]
fn read_negation(source: &Source, at: usize) -> Result<Found<Built>, Stuck>
    requires texts { AreTexts source.now.text.now source.now.tokens.now }
    requires shallow { IsShallow (lexemes source.now.text.now source.now.tokens.now) }
    ensures { Answers negation (lexemes source.now.text.now source.now.tokens.now) at result }
{
    let Some(token) = source.token(at) else {
        return Err(Stuck::At(at));
    };
    if source.shows(at, Sign::Not) {
        let inner = read_relation(source, at + 1)?;
        return Ok(Found {
            value: denial(source.alloc, inner.value, token.place)?,
            next: inner.next,
        });
    }
    read_relation(source, at)
}

/// A sum, or two that are compared.
#[cycle(expr)]
fn read_relation(source: &Source, at: usize) -> Result<Found<Built>, Stuck>
    requires texts { AreTexts source.now.text.now source.now.tokens.now }
    requires shallow { IsShallow (lexemes source.now.text.now source.now.tokens.now) }
    ensures { Answers relation (lexemes source.now.text.now source.now.tokens.now) at result }
{
    let left = read_joined(source, Join::Sum, at)?;
    let Some((op, token)) = relator(source, left.next) else {
        return Ok(left);
    };
    let right = read_joined(source, Join::Sum, left.next + 1)?;
    Ok(Found {
        value: operation(source.alloc, op, left.value, right.value, token.place)?,
        next: right.next,
    })
}

/// An atom, or `-` before one.
#[cycle(expr)]
fn read_factor(source: &Source, at: usize) -> Result<Found<Built>, Stuck>
    requires texts { AreTexts source.now.text.now source.now.tokens.now }
    requires shallow { IsShallow (lexemes source.now.text.now source.now.tokens.now) }
    ensures { Answers factor (lexemes source.now.text.now source.now.tokens.now) at result }
{
    let Some(token) = source.token(at) else {
        return Err(Stuck::At(at));
    };
    if source.shows(at, Sign::Minus) {
        let inner = read_atom(source, at + 1)?;
        return Ok(Found {
            value: opposite(source.alloc, inner.value, token.place)?,
            next: inner.next,
        });
    }
    read_atom(source, at)
}
