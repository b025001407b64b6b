//! Places of tokens by their numbers.

ghost use Rattle.std.specs.Prelude.{◌≡◌, ◌≤◌, length};
ghost use Rattle.tap_lexer.specs.Places.{end_of, place_at};
ghost use Rattle.tap_lexer.specs.Spans.{AreTexts};
ghost use Rattle.tap_expr.specs.inner.Exprs.{ArePlaced};

use tap_base::Place;
use tap_lexer::Source;

/// The place of a token, or where there is none of this number, the place just behind the last token;
/// 1:1 without tokens.
pub fn place_at(source: &Source, at: usize) -> Place
    requires sized { length source.now.text.now ≤ 1048576 }
    requires texts { AreTexts source.now.text.now source.now.tokens.now }
    requires placed { ArePlaced source.now.tokens.now }
    ensures { result ≡ place_at source.now.tokens.now at }
{
    match source.token(at) {
        Some(token) => token.place,
        None => end_of(source),
    }
}

/// The place just behind the last token.
fn end_of(source: &Source) -> Place
    requires sized { length source.now.text.now ≤ 1048576 }
    requires texts { AreTexts source.now.text.now source.now.tokens.now }
    requires placed { ArePlaced source.now.tokens.now }
    ensures { result ≡ end_of source.now.tokens.now }
{
    match source.token(source.tokens.len().saturating_sub(1)) {
        Some(token) => Place {
            line: token.place.line,
            column: token.place.column + (token.end - token.start),
        },
        None => Place { line: 1, column: 1 },
    }
}
