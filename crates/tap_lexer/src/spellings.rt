//! The words of the language and its symbols, and the sign of each.

ghost use Rattle.std.specs.Prelude.{◌≡◌};
ghost use Rattle.tap_lexer.specs.Words.{declaring_words, acting_words, reckoning_words, words, symbols, sign_in, sign_of};

use tap_base::{Sign, TokenKind};

/// The sign of a token with these bytes.
pub fn sign_of(kind: TokenKind, bytes: &[u8]) -> Sign
    ensures { result ≡ sign_of kind bytes.now }
{
    match kind {
        TokenKind::Name => Sign::Name,
        TokenKind::Number => Sign::Number,
        TokenKind::Word => word_sign(bytes).unwrap_or(Sign::Name),
        TokenKind::Symbol => symbol_sign(bytes).unwrap_or(Sign::Name),
    }
}

/// The sign of a word of the language.
pub fn word_sign(bytes: &[u8]) -> Option<Sign>
    ensures { result ≡ sign_in words bytes.now }
{
    if let Some(sign) = declaring_word(bytes) {
        return Some(sign);
    }
    if let Some(sign) = acting_word(bytes) {
        return Some(sign);
    }
    reckoning_word(bytes)
}

/// The sign of a word of declarations.
fn declaring_word(bytes: &[u8]) -> Option<Sign>
    ensures { result ≡ sign_in declaring_words bytes.now }
{
    match bytes {
        b"message" => Some(Sign::Message),
        b"begin" => Some(Sign::Begin),
        b"end" => Some(Sign::End),
        b"bits" => Some(Sign::Bits),
        b"process" => Some(Sign::Process),
        b"const" => Some(Sign::Const),
        b"inp" => Some(Sign::Inp),
        b"var" => Some(Sign::Var),
        b"timer" => Some(Sign::Timer),
        b"boolean" => Some(Sign::Boolean),
        b"array" => Some(Sign::Array),
        b"of" => Some(Sign::Of),
        _ => None,
    }
}

/// The sign of a word of actions.
fn acting_word(bytes: &[u8]) -> Option<Sign>
    ensures { result ≡ sign_in acting_words bytes.now }
{
    match bytes {
        b"rcv" => Some(Sign::Rcv),
        b"from" => Some(Sign::From),
        b"timeout" => Some(Sign::Timeout),
        b"skip" => Some(Sign::Skip),
        b"choose" => Some(Sign::Choose),
        b"send" => Some(Sign::Send),
        b"to" => Some(Sign::To),
        b"start" => Some(Sign::Start),
        b"after" => Some(Sign::After),
        b"stop" => Some(Sign::Stop),
        b"if" => Some(Sign::If),
        b"fi" => Some(Sign::Fi),
        b"do" => Some(Sign::Do),
        b"times" => Some(Sign::Times),
        b"od" => Some(Sign::Od),
        _ => None,
    }
}

/// The sign of a word of expressions.
fn reckoning_word(bytes: &[u8]) -> Option<Sign>
    ensures { result ≡ sign_in reckoning_words bytes.now }
{
    match bytes {
        b"and" => Some(Sign::And),
        b"or" => Some(Sign::Or),
        b"not" => Some(Sign::Not),
        b"div" => Some(Sign::Div),
        b"mod" => Some(Sign::Mod),
        b"min" => Some(Sign::Min),
        b"max" => Some(Sign::Max),
        b"true" => Some(Sign::True),
        b"false" => Some(Sign::False),
        _ => None,
    }
}

/// The sign of a symbol.
pub fn symbol_sign(bytes: &[u8]) -> Option<Sign>
    ensures { result ≡ sign_in symbols bytes.now }
{
    match bytes {
        b":=" => Some(Sign::Becomes),
        b".." => Some(Sign::Span),
        b"." => Some(Sign::Dot),
        b"->" => Some(Sign::Arrow),
        b"[]" => Some(Sign::Box),
        b"[" => Some(Sign::OpenIndex),
        b"]" => Some(Sign::CloseIndex),
        b"(" => Some(Sign::Open),
        b")" => Some(Sign::Close),
        b"," => Some(Sign::Comma),
        b";" => Some(Sign::Semicolon),
        b":" => Some(Sign::Colon),
        b"=" => Some(Sign::Equal),
        b"!=" => Some(Sign::NotEqual),
        b"<" => Some(Sign::Less),
        b"<=" => Some(Sign::LessEqual),
        b">" => Some(Sign::Greater),
        b">=" => Some(Sign::GreaterEqual),
        b"+" => Some(Sign::Plus),
        b"-" => Some(Sign::Minus),
        b"*" => Some(Sign::Star),
        _ => None,
    }
}
