//! A text with its tokens.

ghost use Rattle.std.specs.Prelude.{◌≡◌, ◌<◌, length, drop, slice_get, slice_range, true, false, IfOk, IfSome};
ghost use Rattle.tap_lexer.specs.Lexeme.{lexeme, lexemes};
ghost use Rattle.tap_lexer.specs.Leaves.{ident};
ghost use Rattle.tap_lexer.specs.Spans.{AreTexts, IsText};
ghost use Rattle.tap_lexer.specs.Words.{sign_of};
ghost use Rattle.tap_lexer.specs.inner.Reading.{Lacks, Seen, Shows, Taken};

use crate::spellings::sign_of;
use std::alloc::Global;
use tap_base::{Ident, NoMemory, Sign, Text, Token};

/// A text with its tokens, and the allocator of what is read from them.
#[derive(Clone, Copy)]
pub struct Source<'a> {
    pub alloc: Global,
    pub text: &'a [u8],
    pub tokens: &'a [Token],
}

impl Source<'_> {
    /// The token at a place.
    pub fn token(&self, at: usize) -> Option<Token>
        ensures value { result ≡ slice_get self.now.tokens.now at }
        ensures within { IfSome result (λ _. at < length self.now.tokens.now) }
        ensures seen { Seen self.now.text.now self.now.tokens.now at result }
    {
        token_at(self.tokens, at)
    }

    /// The token at a place, if it has the sign.
    pub fn take(&self, at: usize, sign: Sign) -> Option<Token>
        requires { AreTexts self.now.text.now self.now.tokens.now }
        ensures within { IfSome result (λ _. at < length self.now.tokens.now) }
        ensures text { IfSome result (λ t. IsText self.now.text.now t) }
        ensures taken { Taken sign self.now.text.now self.now.tokens.now at result }
    {
        let token = self.token(at)?;
        if self.sign(token) == sign {
            Some(token)
        } else {
            None
        }
    }

    /// Whether a token with the sign stands at a place.
    pub fn shows(&self, at: usize, sign: Sign) -> bool
        requires { AreTexts self.now.text.now self.now.tokens.now }
        ensures within { result ≡ true → at < length self.now.tokens.now }
        ensures there { result ≡ true → Shows sign (lexemes self.now.text.now self.now.tokens.now) at }
        ensures lacks { result ≡ false → Lacks sign (drop at (lexemes self.now.text.now self.now.tokens.now)) }
    {
        match self.token(at) {
            Some(token) => self.sign(token) == sign,
            None => false,
        }
    }

    /// The sign of a token.
    pub fn sign(&self, token: Token) -> Sign
        requires { IsText self.now.text.now token }
        ensures { result ≡ sign_of token.kind (slice_range self.now.text.now token.start token.end) }
    {
        sign_of(
            token.kind,
            &self.text[token.start as usize..token.end as usize],
        )
    }

    /// The bytes of a token as a text.
    pub fn name(&self, token: Token) -> Result<Text, NoMemory>
        requires { IsText self.now.text.now token }
        ensures { IfOk result (λ t. t ≡ slice_range self.now.text.now token.start token.end) }
    {
        let bytes = &self.text[token.start as usize..token.end as usize];
        Ok(Text {
            items: String::from_utf8_lossy(self.alloc, bytes)?,
        })
    }

    /// The bytes of a token as a text, and its place.
    pub fn ident(&self, token: Token) -> Result<Ident, NoMemory>
        requires { IsText self.now.text.now token }
        ensures { IfOk result (λ i. i ≡ ident (lexeme self.now.text.now token)) }
    {
        Ok(Ident {
            text: self.name(token)?,
            place: token.place,
        })
    }
}

fn token_at(tokens: &[Token], at: usize) -> Option<Token>
    ensures { result ≡ slice_get tokens.now at }
{
    tokens.get(at).copied()
}
