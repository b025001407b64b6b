//! One blank, comment or token.

ghost use Rattle.std.specs.Prelude.{◌≡◌, ◌+◌, ◌^◌, ◌<◌, ◌≤◌, true, false, length, slice_get, Some, drop};
ghost use Rattle.tap_lexer.specs.Bytes.{is_blank, is_hash, after, along};
ghost use Rattle.tap_lexer.specs.Tokens.{IsToken, value};
ghost use Rattle.tap_lexer.specs.inner.Lexing.{Steps};

use crate::classes::{Class, is_blank, run};
use crate::longest::{byte_at, front, longest_token};
use crate::numbers::number_value;
use tap_base::{Place, Refusal, RefusalCode, Token, TokenKind};

/// One blank, comment or token that was read, and the byte after it with its place.
#[derive(Clone, Copy, Debug)]
pub struct Step {
    pub token: Option<Token>,
    pub at: usize,
    pub place: Place,
}

/// Reads the blank, the comment or the token that begins at a byte.
pub fn read_step(text: &[u8], at: usize, place: Place) -> Result<Step, Refusal>
    requires size { length text.now ≤ 1048576 }
    requires there { at < length text.now }
    requires line { place.line ≤ at + 1 }
    requires column { place.column ≤ at + 1 }
    ensures { Steps text.now at place result }
{
    let byte = text[at];
    if is_blank(byte) {
        return Ok(Step {
            token: None,
            at: at + 1,
            place: after(byte, place),
        });
    }
    if byte == b'#' {
        return comment(byte, text, at, place);
    }
    token(byte, text, at, place)
}

/// A comment, up to the end of its line.
fn comment(byte: u8, text: &[u8], at: usize, place: Place) -> Result<Step, Refusal>
    requires size { length text.now ≤ 1048576 }
    requires there { slice_get text.now at ≡ Some byte }
    requires within { at < length text.now }
    requires hash { is_hash byte ≡ true }
    requires line { place.line ≤ at + 1 }
    requires column { place.column ≤ at + 1 }
    ensures { Steps text.now at place result }
{
    let count = run(Class::Comment, from(text, at + 1));
    let end = at + 1 + count;
    let place = along(1 + count, place);
    let step = Step {
        token: None,
        at: end,
        place,
    };
    let Some(last) = byte_at(text, end) else {
        return Ok(step);
    };
    if last == b'\n' {
        return Ok(step);
    }
    Err(Refusal {
        code: RefusalCode::L1,
        place,
    })
}

/// The longest token there.
fn token(byte: u8, text: &[u8], at: usize, place: Place) -> Result<Step, Refusal>
    requires size { length text.now ≤ 1048576 }
    requires there { slice_get text.now at ≡ Some byte }
    requires within { at < length text.now }
    requires no_blank { is_blank byte ≡ false }
    requires no_hash { is_hash byte ≡ false }
    requires line { place.line ≤ at + 1 }
    requires column { place.column ≤ at + 1 }
    ensures { Steps text.now at place result }
{
    let rest = from(text, at);
    let Some((kind, count)) = longest_token(rest) else {
        return Err(Refusal {
            code: RefusalCode::L1,
            place,
        });
    };
    let Some(value) = token_value(kind, front(rest, count)) else {
        return Err(Refusal {
            code: RefusalCode::L2,
            place,
        });
    };
    let token = Token {
        kind,
        start: at as u32,
        end: (at + count) as u32,
        value,
        place,
    };
    Ok(Step {
        token: Some(token),
        at: at + count,
        place: along(count, place),
    })
}

/// The value of a token; none if it is a number that is too large.
fn token_value(kind: TokenKind, bytes: &[u8]) -> Option<i64>
    requires { IsToken kind bytes.now }
    ensures { result ≡ value kind bytes.now }
{
    match kind {
        TokenKind::Number => number_value(bytes),
        _ => Some(0),
    }
}

/// The bytes from an index on.
fn from(text: &[u8], at: usize) -> &[u8]
    requires { at ≤ length text.now }
    ensures { result.now ≡ drop at text.now }
{
    &text[at..]
}

/// The place after a byte.
fn after(byte: u8, place: Place) -> Place
    requires line { place.line < 2 ^ 31 }
    requires column { place.column < 2 ^ 31 }
    ensures { result ≡ after byte place }
{
    if byte == b'\n' {
        Place {
            line: place.line + 1,
            column: 1,
        }
    } else {
        along(1, place)
    }
}

/// The place after some bytes of one line.
fn along(count: usize, place: Place) -> Place
    requires count { count < 2 ^ 31 }
    requires column { place.column < 2 ^ 31 }
    ensures { result ≡ along count place }
{
    Place {
        line: place.line,
        column: place.column + count as u32,
    }
}
