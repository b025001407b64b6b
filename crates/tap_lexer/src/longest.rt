//! The longest token at the front of a text.

ghost use Rattle.std.specs.Prelude.{◌≡◌, ◌≤◌, ◌&&◌, nat_le, length, slice_get, Some, false, take};
ghost use Rattle.std.specs.Char.{is_ascii_digit, is_ascii_alphabetic};
ghost use Rattle.tap_lexer.specs.Words.{symbols, words, is_in};
ghost use Rattle.tap_lexer.specs.inner.Lexing.{Begins, word_kind};

use crate::classes::{Class, run};
use crate::spellings::{symbol_sign, word_sign};
use tap_base::TokenKind;

/// The kind and the length in bytes of the longest token at the front; none if no token stands there.
pub fn longest_token(text: &[u8]) -> Option<(TokenKind, usize)>
    ensures { Begins text.now result }
{
    let first = byte_at(text, 0)?;
    if first.is_ascii_alphabetic() {
        let count = run(Class::Word, text);
        return Some((word_kind(front(text, count)), count));
    }
    if first.is_ascii_digit() {
        return Some((TokenKind::Number, run(Class::Digit, text)));
    }
    longest_symbol(first, text)
}

/// What a letter with all that goes it on is.
fn word_kind(bytes: &[u8]) -> TokenKind
    ensures { result ≡ word_kind bytes.now }
{
    match word_sign(bytes) {
        Some(_) => TokenKind::Word,
        None => TokenKind::Name,
    }
}

/// No symbol has more than two bytes.
fn longest_symbol(first: u8, text: &[u8]) -> Option<(TokenKind, usize)>
    requires there { slice_get text.now 0 ≡ Some first }
    requires no_letter { is_ascii_alphabetic first ≡ false }
    requires no_digit { is_ascii_digit first ≡ false }
    ensures { Begins text.now result }
{
    if starts_symbol(text, 2) {
        return Some((TokenKind::Symbol, 2));
    }
    if starts_symbol(text, 1) {
        return Some((TokenKind::Symbol, 1));
    }
    None
}

/// Whether the first bytes, so many, are a symbol.
fn starts_symbol(text: &[u8], count: usize) -> bool
    ensures { result ≡ (nat_le count (length text.now) && is_in symbols (take count text.now)) }
{
    count <= text.len() && symbol_sign(front(text, count)).is_some()
}

/// The byte at an index, if there is one.
pub fn byte_at(text: &[u8], at: usize) -> Option<u8>
    ensures { result ≡ slice_get text.now at }
{
    text.get(at).copied()
}

/// The first bytes.
pub fn front(text: &[u8], count: usize) -> &[u8]
    requires { count ≤ length text.now }
    ensures { result.now ≡ take count text.now }
{
    &text[..count]
}
