//! How deep the brackets go.

ghost use Rattle.std.specs.Prelude.{◌≡◌};
ghost use Rattle.tap_lexer.specs.Depth.{opens, closes};
ghost use Rattle.tap_lexer.specs.Lexeme.{lexemes};
ghost use Rattle.tap_lexer.specs.Spans.{AreTexts};
ghost use Rattle.tap_expr.specs.inner.Exprs.{Deepens};

use tap_base::Sign;
use tap_lexer::Source;

/// The depth that no bracket may have.
const DEEPEST: usize = 33;

fn opens(sign: Sign) -> bool
    ensures { result ≡ opens sign }
{
    matches!(sign, Sign::Open | Sign::OpenIndex | Sign::If | Sign::Do)
}

fn closes(sign: Sign) -> bool
    ensures { result ≡ closes sign }
{
    matches!(sign, Sign::Close | Sign::CloseIndex | Sign::Fi | Sign::Od)
}

/// The number of the first token that opens a bracket of depth 33. The depth counts the brackets that
/// were opened less those that were closed, so what closes too much makes room.
pub fn first_too_deep(source: &Source) -> Option<usize>
    requires { AreTexts source.now.text.now source.now.tokens.now }
    ensures { Deepens (lexemes source.now.text.now source.now.tokens.now) result }
{
    let mut opened: usize = 0;
    let mut closed: usize = 0;
    let mut at = 0;
    'tokens: while let Some(token) = source.token(at) {
        let sign = source.sign(token);
        if opens(sign) && opened + 1 == closed + DEEPEST {
            return Some(at);
        }
        opened += usize::from(opens(sign));
        closed += usize::from(closes(sign));
        at += 1;
    }
    None
}
