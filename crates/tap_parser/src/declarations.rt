//! Fields of messages, and messages.

ghost use Rattle.tap_lexer.specs.Depth.{IsShallow};
ghost use Rattle.tap_lexer.specs.Lexeme.{lexemes};
ghost use Rattle.tap_lexer.specs.Spans.{AreTexts};
ghost use Rattle.tap_lexer.specs.inner.Reading.{Free, Lacks};
ghost use Rattle.tap_parser.specs.Declarations.{IsField, IsMessage, IsNumber, Optional};
ghost use Rattle.tap_parser.specs.inner.Reading.{Answers, Tells};

use crate::forms::Field;
use crate::kept::Kept;
use crate::leaves::{expect, read_name, read_numeral};
use crate::lists::read_separated;
use crate::nodes::message;
use tap_base::{AstField, AstMessage, Sign};
use tap_expr::Stuck;
use tap_lexer::{Found, Source};

/// A name, a width, and the fixed value if there is one.
pub fn read_field(source: &Source, at: usize) -> Result<Found<AstField>, Stuck>
    requires { AreTexts source.now.text.now source.now.tokens.now }
    ensures { Tells IsField (Lacks Sign.Equal) (lexemes source.now.text.now source.now.tokens.now) at result }
{
    let name = read_name(source, at)?;
    let behind = expect(source, Sign::Colon, name.next)?;
    let width = read_numeral(source, behind)?;
    let behind = expect(source, Sign::Bits, width.next)?;
    let fixed = read_fixed(source, behind)?;
    Ok(Found {
        value: AstField {
            name: name.value,
            width: width.value.value,
            fixed: fixed.value,
        },
        next: fixed.next,
    })
}

/// `=` and a number, or nothing.
fn read_fixed(source: &Source, at: usize) -> Result<Found<Option<i64>>, Stuck>
    requires { AreTexts source.now.text.now source.now.tokens.now }
    ensures { Tells (Optional IsNumber Sign.Equal) (Lacks Sign.Equal)
        (lexemes source.now.text.now source.now.tokens.now) at result }
{
    if source.shows(at, Sign::Equal) {
        let number = read_numeral(source, at + 1)?;
        return Ok(Found {
            value: Some(number.value.value),
            next: number.next,
        });
    }
    Ok(Found {
        value: None,
        next: at,
    })
}

/// A message with its fields.
pub fn read_message(source: &Source, at: usize) -> Result<Found<Kept<AstMessage>>, Stuck>
    requires texts { AreTexts source.now.text.now source.now.tokens.now }
    requires shallow { IsShallow (lexemes source.now.text.now source.now.tokens.now) }
    ensures { Answers (λ n. IsMessage) Free (lexemes source.now.text.now source.now.tokens.now) at result }
{
    let behind = expect(source, Sign::Message, at)?;
    let name = read_name(source, behind)?;
    let behind = expect(source, Sign::Begin, name.next)?;
    let fields = read_separated::<Field>(source, Sign::Semicolon, behind)?;
    let next = expect(source, Sign::End, fields.next)?;
    Ok(Found {
        value: message(name.value, fields.value),
        next,
    })
}
