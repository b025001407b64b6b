//! Numbers with a sign, bounds, and the ranges between them.

ghost use Rattle.tap_lexer.specs.Lexeme.{lexemes};
ghost use Rattle.tap_lexer.specs.Spans.{AreTexts};
ghost use Rattle.tap_lexer.specs.inner.Reading.{Free};
ghost use Rattle.tap_parser.specs.Declarations.{IsSigned, IsBound, IsScalar, IsType};
ghost use Rattle.tap_parser.specs.inner.Reading.{Tells};

use crate::leaves::{expect, read_name, read_numeral};
use tap_base::{AstScalar, AstType, Bound, Sign};
use tap_expr::Stuck;
use tap_lexer::{Found, Source};

/// A number, or `-` and a number.
pub fn read_signed(source: &Source, at: usize) -> Result<Found<i64>, Stuck>
    requires { AreTexts source.now.text.now source.now.tokens.now }
    ensures { Tells IsSigned Free (lexemes source.now.text.now source.now.tokens.now) at result }
{
    if source.shows(at, Sign::Minus) {
        let number = read_numeral(source, at + 1)?;
        return Ok(Found {
            value: -number.value.value,
            next: number.next,
        });
    }
    let number = read_numeral(source, at)?;
    Ok(Found {
        value: number.value.value,
        next: number.next,
    })
}

/// A number with its sign, or a name.
pub fn read_bound(source: &Source, at: usize) -> Result<Found<Bound>, Stuck>
    requires { AreTexts source.now.text.now source.now.tokens.now }
    ensures { Tells IsBound Free (lexemes source.now.text.now source.now.tokens.now) at result }
{
    if source.shows(at, Sign::Name) {
        let name = read_name(source, at)?;
        return Ok(Found {
            value: Bound::Name(name.value),
            next: name.next,
        });
    }
    let number = read_signed(source, at)?;
    Ok(Found {
        value: Bound::Number(number.value),
        next: number.next,
    })
}

/// `boolean`, or two bounds.
pub fn read_scalar(source: &Source, at: usize) -> Result<Found<AstScalar>, Stuck>
    requires { AreTexts source.now.text.now source.now.tokens.now }
    ensures { Tells IsScalar Free (lexemes source.now.text.now source.now.tokens.now) at result }
{
    if source.shows(at, Sign::Boolean) {
        return Ok(Found {
            value: AstScalar::Boolean,
            next: at + 1,
        });
    }
    let lo = read_bound(source, at)?;
    let behind = expect(source, Sign::Span, lo.next)?;
    let hi = read_bound(source, behind)?;
    Ok(Found {
        value: AstScalar::Between {
            lo: lo.value,
            hi: hi.value,
        },
        next: hi.next,
    })
}

/// A scalar, or an array of one.
pub fn read_type(source: &Source, at: usize) -> Result<Found<AstType>, Stuck>
    requires { AreTexts source.now.text.now source.now.tokens.now }
    ensures { Tells IsType Free (lexemes source.now.text.now source.now.tokens.now) at result }
{
    if source.shows(at, Sign::Array) {
        let length = read_numeral(source, at + 1)?;
        let behind = expect(source, Sign::Of, length.next)?;
        let of = read_scalar(source, behind)?;
        return Ok(Found {
            value: AstType::Array {
                length: length.value.value,
                of: of.value,
            },
            next: of.next,
        });
    }
    let scalar = read_scalar(source, at)?;
    Ok(Found {
        value: AstType::Scalar(scalar.value),
        next: scalar.next,
    })
}
