//! The tokens of a text.

use super::texts::repeated;
use std::alloc::Global;
use std::fmt::Write;
use std::process::Abort;
use std::test::Fail;
use tap_base::{Ident, List, Place, Sign, Token, TokenKind};
use tap_lexer::{LexFault, Source, lex, sign_of};

/// The tokens of a text.
fn tokens_of(rt: &impl Abort, alloc: Global, text: &str) -> Result<List<Token>, LexFault> {
    assert!(rt; text.len() <= 1048576);
    lex(alloc, text.as_bytes())
}

/// The tokens of a text, a line for each: its kind, its bytes, its value and its place.
fn shown(rt: &impl Abort, alloc: Global, text: &str) -> Result<String, Fail> {
    let mut lines = String::new(alloc);
    match tokens_of(rt, alloc, text) {
        Ok(tokens) => {
            for token in tokens.as_slice() {
                let Token {
                    kind,
                    start,
                    end,
                    value,
                    place,
                } = *token;
                writeln!(
                    lines,
                    "{kind:?} {start}..{end} {value} {}:{}",
                    place.line, place.column
                )?;
            }
        }
        Err(fault) => writeln!(lines, "{fault:?}")?,
    }
    Ok(lines)
}

#[test]
fn a_text_has_tokens(rt: HostRuntime) -> Result<(), Fail> {
    let table = [
        ("", ""),
        ("8bits", "Number 0..1 8 1:1\nWord 1..5 0 1:2\n"),
        ("1a", "Number 0..1 1 1:1\nName 1..2 0 1:2\n"),
        (
            "x..y",
            "Name 0..1 0 1:1\nSymbol 1..3 0 1:2\nName 3..4 0 1:4\n",
        ),
        (
            "1..2",
            "Number 0..1 1 1:1\nSymbol 1..3 0 1:2\nNumber 3..4 2 1:4\n",
        ),
        (
            "x.y",
            "Name 0..1 0 1:1\nSymbol 1..2 0 1:2\nName 2..3 0 1:3\n",
        ),
        ("...", "Symbol 0..2 0 1:1\nSymbol 2..3 0 1:3\n"),
        (":=", "Symbol 0..2 0 1:1\n"),
        (":==", "Symbol 0..2 0 1:1\nSymbol 2..3 0 1:3\n"),
        (": =", "Symbol 0..1 0 1:1\nSymbol 2..3 0 1:3\n"),
        ("[]", "Symbol 0..2 0 1:1\n"),
        ("[ ]", "Symbol 0..1 0 1:1\nSymbol 2..3 0 1:3\n"),
        (
            "[[]]",
            "Symbol 0..1 0 1:1\nSymbol 1..3 0 1:2\nSymbol 3..4 0 1:4\n",
        ),
        ("->", "Symbol 0..2 0 1:1\n"),
        ("-->", "Symbol 0..1 0 1:1\nSymbol 1..3 0 1:2\n"),
        ("!=", "Symbol 0..2 0 1:1\n"),
        ("<=", "Symbol 0..2 0 1:1\n"),
        (">==", "Symbol 0..2 0 1:1\nSymbol 2..3 0 1:3\n"),
        ("a # ", "Name 0..1 0 1:1\n"),
        ("#", ""),
        ("# ! _ ##", ""),
        ("a # b\n c", "Name 0..1 0 1:1\nName 7..8 0 2:2\n"),
        ("a#\n#\n\nc", "Name 0..1 0 1:1\nName 6..7 0 4:1\n"),
        ("\t\r\nif", "Word 3..5 0 2:1\n"),
        ("if\r\tfi", "Word 0..2 0 1:1\nWord 4..6 0 1:5\n"),
        ("processx", "Name 0..8 0 1:1\n"),
        ("process", "Word 0..7 0 1:1\n"),
        ("Process", "Name 0..7 0 1:1\n"),
        ("a_1Z", "Name 0..4 0 1:1\n"),
        (
            "9223372036854775807",
            "Number 0..19 9223372036854775807 1:1\n",
        ),
        ("0000000000000000000000000000007", "Number 0..31 7 1:1\n"),
        (
            "0000000000000000000000000000009223372036854775807",
            "Number 0..49 9223372036854775807 1:1\n",
        ),
    ];
    for (text, wanted) in table {
        let found = shown(&rt, rt.alloc(), text)?;
        assert!(rt; found.as_str() == wanted, "{text}: {found}");
    }
    Ok(())
}

/// Of the longest text, which is a pair of bytes again and again: how many tokens it has, and the place of the last; or
/// its code.
fn long_shown(rt: &impl Abort, alloc: Global, pair: &str) -> Result<String, Fail> {
    let text = repeated(alloc, "", pair, 524288, "")?;
    match tokens_of(rt, alloc, text.as_str()) {
        Ok(tokens) => match tokens.as_slice().last() {
            Some(Token { place, .. }) => {
                let Place { line, column } = *place;
                Ok(format!(in alloc; "{} {line}:{column}", tokens.len())?)
            }
            None => Ok(format!(in alloc; "none")?),
        },
        Err(LexFault::Refused(refusal)) => Ok(format!(in alloc; "{:?}", refusal.code)?),
        Err(LexFault::NoMemory) => Ok(format!(in alloc; "no memory")?),
    }
}

#[test]
fn the_longest_text_has_tokens(rt: HostRuntime) -> Result<(), Fail> {
    let table = [
        ("a ", "524288 1:1048575"),
        ("\n1", "524288 524289:1"),
        ("ab", "1 1:1"),
        ("10", "L2"),
        ("#\n", "none"),
    ];
    for (pair, wanted) in table {
        let found = long_shown(&rt, rt.alloc(), pair)?;
        assert!(rt; found.as_str() == wanted, "{pair:?}: {found}");
    }
    Ok(())
}

#[test]
fn a_token_has_a_sign(rt: HostRuntime) {
    let table = [
        (TokenKind::Name, "x", Sign::Name),
        (TokenKind::Number, "12", Sign::Number),
        (TokenKind::Word, "message", Sign::Message),
        (TokenKind::Word, "od", Sign::Od),
        (TokenKind::Symbol, "[]", Sign::Box),
        (TokenKind::Symbol, "*", Sign::Star),
    ];
    for (kind, bytes, wanted) in table {
        assert_eq!(rt; sign_of(kind, bytes.as_bytes()), wanted, "{bytes}");
    }
}

/// The first token of a text as a name with its place, if it is one.
fn first_name(rt: &impl Abort, alloc: Global, text: &[u8]) -> Result<Option<Ident>, Fail> {
    assert!(rt; text.len() <= 1048576);
    let Ok(tokens) = lex(alloc, text) else {
        return Ok(None);
    };
    let source = Source {
        alloc,
        text,
        tokens: tokens.as_slice(),
    };
    match source.take(0, Sign::Name) {
        Some(token) => Ok(Some(source.ident(token)?)),
        None => Ok(None),
    }
}

#[test]
fn a_name_has_a_place(rt: HostRuntime) -> Result<(), Fail> {
    let table = [
        ("# one\n  seen := 12", "seen 2:3"),
        ("12", "none"),
        (":= 1", "none"),
        ("begin", "none"),
        ("", "none"),
        ("!", "none"),
    ];
    for (text, wanted) in table {
        let alloc = rt.alloc();
        let found = match first_name(&rt, alloc, text.as_bytes())? {
            Some(Ident { text, place }) => {
                format!(in alloc; "{} {}:{}", text.as_str(), place.line, place.column)?
            }
            None => format!(in alloc; "none")?,
        };
        assert!(rt; found.as_str() == wanted, "{text}: {found}");
    }
    Ok(())
}
