//! Constants, inputs and variables.

ghost use Rattle.tap_lexer.specs.Lexeme.{lexemes};
ghost use Rattle.tap_lexer.specs.Spans.{AreTexts};
ghost use Rattle.tap_lexer.specs.inner.Reading.{Free, Lacks};
ghost use Rattle.tap_parser.specs.Declarations.{IsConst, IsInput, IsVar, IsBound, Optional};
ghost use Rattle.tap_parser.specs.inner.Reading.{Tells};

use crate::bounds::{read_bound, read_scalar, read_signed, read_type};
use crate::leaves::{expect, read_name};
use tap_base::{AstConst, AstType, AstVar, Bound, Sign};
use tap_expr::Stuck;
use tap_lexer::{Found, Source};

/// A name and its number.
pub fn read_const(source: &Source, at: usize) -> Result<Found<AstConst>, Stuck>
    requires { AreTexts source.now.text.now source.now.tokens.now }
    ensures { Tells IsConst Free (lexemes source.now.text.now source.now.tokens.now) at result }
{
    let name = read_name(source, at)?;
    let behind = expect(source, Sign::Equal, name.next)?;
    let number = read_signed(source, behind)?;
    Ok(Found {
        value: AstConst {
            name: name.value,
            value: number.value,
        },
        next: number.next,
    })
}

/// A name and its scalar.
pub fn read_input(source: &Source, at: usize) -> Result<Found<AstVar>, Stuck>
    requires { AreTexts source.now.text.now source.now.tokens.now }
    ensures { Tells IsInput Free (lexemes source.now.text.now source.now.tokens.now) at result }
{
    let name = read_name(source, at)?;
    let behind = expect(source, Sign::Colon, name.next)?;
    let scalar = read_scalar(source, behind)?;
    Ok(Found {
        value: AstVar {
            name: name.value,
            kind: AstType::Scalar(scalar.value),
            initial: None,
        },
        next: scalar.next,
    })
}

/// A name, its type, and its initial value if it has one.
pub fn read_var(source: &Source, at: usize) -> Result<Found<AstVar>, Stuck>
    requires { AreTexts source.now.text.now source.now.tokens.now }
    ensures { Tells IsVar (Lacks Sign.Equal) (lexemes source.now.text.now source.now.tokens.now) at result }
{
    let name = read_name(source, at)?;
    let behind = expect(source, Sign::Colon, name.next)?;
    let kind = read_type(source, behind)?;
    let initial = read_initial(source, kind.next)?;
    Ok(Found {
        value: AstVar {
            name: name.value,
            kind: kind.value,
            initial: initial.value,
        },
        next: initial.next,
    })
}

/// `=` and a bound, or nothing.
fn read_initial(source: &Source, at: usize) -> Result<Found<Option<Bound>>, Stuck>
    requires { AreTexts source.now.text.now source.now.tokens.now }
    ensures { Tells (Optional IsBound Sign.Equal) (Lacks Sign.Equal)
        (lexemes source.now.text.now source.now.tokens.now) at result }
{
    if source.shows(at, Sign::Equal) {
        let bound = read_bound(source, at + 1)?;
        return Ok(Found {
            value: Some(bound.value),
            next: bound.next,
        });
    }
    Ok(Found {
        value: None,
        next: at,
    })
}
