//! Single tokens.

ghost use Rattle.std.specs.Prelude.{pos, ◌≤ℤ◌, IfOk};
ghost use Rattle.tap_lexer.specs.Lexeme.{lexemes};
ghost use Rattle.tap_lexer.specs.Spans.{AreTexts};
ghost use Rattle.tap_lexer.specs.inner.Reading.{Free};
ghost use Rattle.tap_parser.specs.Declarations.{IsName};
ghost use Rattle.tap_parser.specs.inner.Forms.{IsNumeral};
ghost use Rattle.tap_parser.specs.inner.Reading.{Expects, Tells};

use tap_base::{Ident, Place, Sign};
use tap_expr::Stuck;
use tap_lexer::{Found, Source};

/// A number where it stands.
#[derive(Clone, Copy, Debug)]
pub struct Numeral {
    pub value: i64,
    pub place: Place,
}

/// A token with the sign: the number of the token after it.
pub fn expect(source: &Source, sign: Sign, at: usize) -> Result<usize, Stuck>
    requires { AreTexts source.now.text.now source.now.tokens.now }
    ensures { Expects sign (lexemes source.now.text.now source.now.tokens.now) at result }
{
    if source.shows(at, sign) {
        Ok(at + 1)
    } else {
        Err(Stuck::At(at))
    }
}

/// A name.
pub fn read_name(source: &Source, at: usize) -> Result<Found<Ident>, Stuck>
    requires { AreTexts source.now.text.now source.now.tokens.now }
    ensures { Tells IsName Free (lexemes source.now.text.now source.now.tokens.now) at result }
{
    let Some(token) = source.take(at, Sign::Name) else {
        return Err(Stuck::At(at));
    };
    Ok(Found {
        value: Ident {
            text: source.name(token)?,
            place: token.place,
        },
        next: at + 1,
    })
}

/// A number, which is never negative.
pub fn read_numeral(source: &Source, at: usize) -> Result<Found<Numeral>, Stuck>
    requires { AreTexts source.now.text.now source.now.tokens.now }
    ensures natural { IfOk result (λ f. pos 0 ≤ℤ f.value.value) }
    ensures told { Tells IsNumeral Free (lexemes source.now.text.now source.now.tokens.now) at result }
{
    let Some(token) = source.take(at, Sign::Number) else {
        return Err(Stuck::At(at));
    };
    Ok(Found {
        value: Numeral {
            value: token.value,
            place: token.place,
        },
        next: at + 1,
    })
}
