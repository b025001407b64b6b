//! Whole texts.

ghost use Rattle.std.specs.Prelude.{◌≤◌, length};
ghost use Rattle.tap_lexer.specs.Depth.{IsShallow};
ghost use Rattle.tap_lexer.specs.Lexeme.{lexemes};
ghost use Rattle.tap_lexer.specs.Spans.{AreTexts};
ghost use Rattle.tap_lexer.specs.Tokens.{SpellsTokens};
ghost use Rattle.tap_parser.specs.inner.Texts.{SystemAnswers, TextAnswers};

use crate::kept::Kept;
use crate::processes::read_system;
use std::alloc::Global;
use tap_base::{Ast, Refusal, RefusalCode, Token};
use tap_expr::{ParseFault, Stuck, first_too_deep, place_at};
use tap_lexer::Source;

/// The one tree that the tokens of a text spell, or their first offence: S2 at the first token that opens
/// a bracket of depth 33; otherwise S1 where they spell no tree, at a token such that those up to and with
/// it begin none, or just behind the last token, which is 1:1 without tokens; otherwise S3 at the first
/// token of the first expression that has more than 200 nodes.
pub fn parse(alloc: Global, text: &[u8], tokens: &[Token]) -> Result<Ast, ParseFault>
    requires sized { length text.now ≤ 1048576 }
    requires lexed { SpellsTokens text.now tokens.now }
    ensures { TextAnswers text.now tokens.now result }
{
    let source = Source {
        alloc,
        text,
        tokens,
    };
    if let Some(at) = first_too_deep(&source) {
        return Err(ParseFault::Refused(Refusal {
            code: RefusalCode::S2,
            place: place_at(&source, at),
        }));
    }
    match read_whole(&source) {
        Ok(Kept::Whole(tree)) => Ok(tree),
        Ok(Kept::Large(at)) => Err(ParseFault::Refused(Refusal {
            code: RefusalCode::S3,
            place: place_at(&source, at),
        })),
        Err(Stuck::At(at)) => Err(ParseFault::Refused(Refusal {
            code: RefusalCode::S1,
            place: place_at(&source, at),
        })),
        Err(Stuck::NoMemory) => Err(ParseFault::NoMemory),
    }
}

/// What is kept of the tree that all the tokens spell.
fn read_whole(source: &Source) -> Result<Kept<Ast>, Stuck>
    requires texts { AreTexts source.now.text.now source.now.tokens.now }
    requires shallow { IsShallow (lexemes source.now.text.now source.now.tokens.now) }
    ensures { SystemAnswers (lexemes source.now.text.now source.now.tokens.now) result }
{
    let found = read_system(source, 0)?;
    if found.next < source.tokens.len() {
        return Err(Stuck::At(found.next));
    }
    Ok(found.value)
}
