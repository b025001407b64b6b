//! The tokens of a text.

ghost use Rattle.std.specs.Prelude.{◌≡◌, ◌≤◌, ◌++◌, length, IfOk, OnOk};
ghost use Rattle.tap_lexer.specs.Spans.{AreTexts, InOrder};
ghost use Rattle.tap_lexer.specs.inner.Lexing.{Answers, Shows, one_of};

use crate::fault::LexFault;
use crate::steps::read_step;
use std::alloc::Global;
use tap_base::{List, NoMemory, Place, Token};

/// The tokens of a text, or its first offence: L1 at a byte outside the alphabet or at which nothing
/// begins, L2 at the first digit of a number above 9223372036854775807.
pub fn lex(alloc: Global, text: &[u8]) -> Result<List<Token>, LexFault>
    requires { length text.now ≤ 1048576 }
    ensures outcome { Answers text.now result }
    ensures spans { Shows text.now result }
    ensures texts { IfOk result (λ tokens. AreTexts text.now tokens) }
    ensures order { IfOk result (λ tokens. InOrder 0 tokens) }
{
    let mut tokens = List::new(alloc);
    let mut at = 0;
    let mut place = Place { line: 1, column: 1 };
    'pieces: while at < text.len() {
        let piece = read_step(text, at, place)?;
        append(&mut tokens, piece.token)?;
        at = piece.at;
        place = piece.place;
    }
    Ok(tokens)
}

/// Puts a token, if there is one, behind the others.
fn append(tokens: &mut List<Token>, token: Option<Token>) -> Result<(), NoMemory>
    ensures { OnOk result (tokens.new ≡ tokens.old ++ one_of token) }
{
    match token {
        Some(token) => tokens.push(token),
        None => Ok(()),
    }
}
