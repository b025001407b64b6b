//! Atoms.

ghost use Rattle.std.specs.Prelude.{◌≡◌, slice_get, Some};
ghost use Rattle.tap_base.specs.declared.token.Sign.{Sign};
ghost use Rattle.tap_lexer.specs.Depth.{IsShallow};
ghost use Rattle.tap_lexer.specs.Lexeme.{lexeme, lexemes};
ghost use Rattle.tap_lexer.specs.Spans.{AreTexts, IsText};
ghost use Rattle.tap_lexer.specs.inner.Reading.{Stands};
ghost use Rattle.tap_expr.specs.Grammar.{atom, choosing};
ghost use Rattle.tap_expr.specs.inner.ExprReading.{Answers};

use crate::chains::read_joined;
use crate::found::{Built, Stuck};
use crate::nodes::{element, leaf, operation};
use crate::start::{Start, starting};
use tap_base::{AstKind, Join, Op, Sign, Token};
use tap_lexer::{Found, Source};

/// A number, a truth word, or what begins with a name, a choice or a parenthesis.
#[cycle(expr)]
pub fn read_atom(source: &Source, at: usize) -> Result<Found<Built>, Stuck>
    requires texts { AreTexts source.now.text.now source.now.tokens.now }
    requires shallow { IsShallow (lexemes source.now.text.now source.now.tokens.now) }
    ensures { Answers atom (lexemes source.now.text.now source.now.tokens.now) at result }
{
    let Some(token) = source.token(at) else {
        return Err(Stuck::At(at));
    };
    let kind = match starting(source.sign(token)) {
        Start::Number => AstKind::Number(token.value),
        Start::Truth(truth) => AstKind::Truth(truth),
        Start::Name => return read_named(source, token, at),
        Start::Choice(op) => return read_choice(source, op, token, at),
        Start::Group => return read_group(source, token, at),
        Start::Nothing => return Err(Stuck::At(at)),
    };
    Ok(Found {
        value: leaf(kind, token.place),
        next: at + 1,
    })
}

/// A name, an element of an array, or a field of a message.
#[cycle(expr)]
fn read_named(source: &Source, token: Token, at: usize) -> Result<Found<Built>, Stuck>
    requires texts { AreTexts source.now.text.now source.now.tokens.now }
    requires shallow { IsShallow (lexemes source.now.text.now source.now.tokens.now) }
    requires there { slice_get source.now.tokens.now at ≡ Some token }
    requires stands { Stands (lexemes source.now.text.now source.now.tokens.now) at (lexeme source.now.text.now token) }
    requires name { (lexeme source.now.text.now token).sign ≡ Sign.Name }
    ensures { Answers atom (lexemes source.now.text.now source.now.tokens.now) at result }
{
    let name = source.name(token)?;
    if source.shows(at + 1, Sign::OpenIndex) {
        let index = read_joined(source, Join::Disjunction, at + 2)?;
        if !source.shows(index.next, Sign::CloseIndex) {
            return Err(Stuck::At(index.next));
        }
        return Ok(Found {
            value: element(source.alloc, name, index.value, token.place)?,
            next: index.next + 1,
        });
    }
    if source.shows(at + 1, Sign::Dot) {
        let Some(field) = source.token(at + 2) else {
            return Err(Stuck::At(at + 2));
        };
        if !source.shows(at + 2, Sign::Name) {
            return Err(Stuck::At(at + 2));
        }
        let kind = AstKind::Part {
            message: name,
            field: source.name(field)?,
        };
        return Ok(Found {
            value: leaf(kind, token.place),
            next: at + 3,
        });
    }
    Ok(Found {
        value: leaf(AstKind::Name(name), token.place),
        next: at + 1,
    })
}

/// The lesser or the greater of two expressions in parentheses.
#[cycle(expr)]
fn read_choice(source: &Source, op: Op, token: Token, at: usize) -> Result<Found<Built>, Stuck>
    requires texts { AreTexts source.now.text.now source.now.tokens.now }
    requires shallow { IsShallow (lexemes source.now.text.now source.now.tokens.now) }
    requires there { slice_get source.now.tokens.now at ≡ Some token }
    requires stands { Stands (lexemes source.now.text.now source.now.tokens.now) at (lexeme source.now.text.now token) }
    requires choice { choosing (lexeme source.now.text.now token).sign ≡ Some op }
    ensures { Answers atom (lexemes source.now.text.now source.now.tokens.now) at result }
{
    if !source.shows(at + 1, Sign::Open) {
        return Err(Stuck::At(at + 1));
    }
    let left = read_joined(source, Join::Disjunction, at + 2)?;
    if !source.shows(left.next, Sign::Comma) {
        return Err(Stuck::At(left.next));
    }
    let right = read_joined(source, Join::Disjunction, left.next + 1)?;
    if !source.shows(right.next, Sign::Close) {
        return Err(Stuck::At(right.next));
    }
    Ok(Found {
        value: operation(source.alloc, op, left.value, right.value, token.place)?,
        next: right.next + 1,
    })
}

/// An expression in parentheses, which leave no node.
#[cycle(expr)]
fn read_group(source: &Source, token: Token, at: usize) -> Result<Found<Built>, Stuck>
    requires texts { AreTexts source.now.text.now source.now.tokens.now }
    requires shallow { IsShallow (lexemes source.now.text.now source.now.tokens.now) }
    requires there { slice_get source.now.tokens.now at ≡ Some token }
    requires stands { Stands (lexemes source.now.text.now source.now.tokens.now) at (lexeme source.now.text.now token) }
    requires open { (lexeme source.now.text.now token).sign ≡ Sign.Open }
    ensures { Answers atom (lexemes source.now.text.now source.now.tokens.now) at result }
{
    let inner = read_joined(source, Join::Disjunction, at + 1)?;
    if !source.shows(inner.next, Sign::Close) {
        return Err(Stuck::At(inner.next));
    }
    Ok(Found {
        value: inner.value,
        next: inner.next + 1,
    })
}
