//! The expression that a text spells.

use super::texts::{repeated, unmarked};
use std::alloc::Global;
use std::process::Abort;
use std::test::Fail;
use tap_base::{AstExpr, AstKind, Place};
use tap_expr::{ParseFault, parse_expr};
use tap_lexer::{LexFault, lex};

fn parsed(rt: &impl Abort, alloc: Global, text: &[u8]) -> Result<AstExpr, ParseFault> {
    assert!(rt; text.len() <= 1048576);
    match lex(alloc, text) {
        Ok(tokens) => parse_expr(alloc, text, tokens.as_slice()),
        Err(LexFault::Refused(refusal)) => Err(ParseFault::Refused(refusal)),
        Err(LexFault::NoMemory) => Err(ParseFault::NoMemory),
    }
}

/// An expression with the column of each node behind it.
fn shown(alloc: Global, expr: &AstExpr) -> Result<String, Fail> {
    let kind = match &expr.kind {
        AstKind::Number(number) => format!(in alloc; "{number}")?,
        AstKind::Truth(truth) => format!(in alloc; "{truth}")?,
        AstKind::Name(name) => format!(in alloc; "{}", name.as_str())?,
        AstKind::Index { name, index } => {
            let index = shown(alloc, index.get())?;
            format!(in alloc; "{}[{index}]", name.as_str())?
        }
        AstKind::Part { message, field } => {
            format!(in alloc; "{}.{}", message.as_str(), field.as_str())?
        }
        AstKind::Not(inner) => {
            let inner = shown(alloc, inner.get())?;
            format!(in alloc; "Not({inner})")?
        }
        AstKind::Neg(inner) => {
            let inner = shown(alloc, inner.get())?;
            format!(in alloc; "Neg({inner})")?
        }
        AstKind::Binary { op, left, right } => {
            let left = shown(alloc, left.get())?;
            let right = shown(alloc, right.get())?;
            format!(in alloc; "{op:?}({left} {right})")?
        }
    };
    Ok(format!(in alloc; "{kind}@{}", expr.place.column)?)
}

/// The first offence of a text with its place, or `none`.
fn offence(rt: &impl Abort, alloc: Global, text: &[u8]) -> Result<String, Fail> {
    match parsed(rt, alloc, text) {
        Ok(_) => Ok(format!(in alloc; "none")?),
        Err(ParseFault::Refused(refusal)) => {
            let Place { line, column } = refusal.place;
            Ok(format!(in alloc; "{:?} {line}:{column}", refusal.code)?)
        }
        Err(ParseFault::NoMemory) => Ok(format!(in alloc; "no memory")?),
    }
}

#[test]
fn an_expression_has_nodes_and_places(rt: HostRuntime) -> Result<(), Fail> {
    let table = [
        ("1 - 2 - 3", "Sub(Sub(1@1 2@5)@3 3@9)@7"),
        ("1 + 2 * 3", "Add(1@1 Mul(2@5 3@9)@7)@3"),
        ("- 1 + 2", "Add(Neg(1@3)@1 2@7)@5"),
        (
            "not a = b and c or d",
            "Or(And(Not(Eq(a@5 b@9)@7)@1 c@15)@11 d@20)@17",
        ),
        ("a or b and c", "Or(a@1 And(b@6 c@12)@8)@3"),
        ("min(1, max(2, 3))", "Min(1@5 Max(2@12 3@15)@8)@1"),
        ("x[y[1]]", "x[y[1@5]@3]@1"),
        ("m.f", "m.f@1"),
        ("((1))", "1@3"),
        (
            "(1 - (2 - 3)) * 4",
            "Mul(Sub(1@2 Sub(2@7 3@11)@9)@4 4@17)@15",
        ),
        ("1 div 2 mod 3", "Mod(Div(1@1 2@7)@3 3@13)@9"),
        ("true != (false)", "Ne(true@1 false@10)@6"),
        (
            "((((((((((((((((((((((((((((((((1))))))))))))))))))))))))))))))))",
            "1@33",
        ),
    ];
    for (text, wanted) in table {
        let found = match parsed(&rt, rt.alloc(), text.as_bytes()) {
            Ok(expr) => shown(rt.alloc(), &expr)?,
            Err(fault) => format!(in rt.alloc(); "{fault:?}")?,
        };
        assert!(rt; found.as_str() == wanted, "{text}: {found}");
    }
    Ok(())
}

#[test]
fn no_expression_stands_at_the_mark(rt: HostRuntime) -> Result<(), Fail> {
    let table = [
        "^",
        "^  # nothing\n",
        "^)",
        "^skip",
        "^.f",
        "a < b ^< c",
        "a = b ^!= c",
        "1 +^",
        "1 +^  # and no more\n",
        "1 + ^)",
        "1 +\n  ^* 2",
        "1 ^2",
        "1 ^; 2",
        "1 ^:= 2",
        "(1^",
        "(1 ^]",
        "(^)",
        "x[ ^]",
        "x[1^)",
        "x ^[] 1",
        "x[1]^[2]",
        "m.^1",
        "m.^",
        "m.f^.g",
        "min ^1",
        "min(1^)",
        "min(1, 2^, 3)",
        "max(1, 2^",
        "not ^not a",
        "1 - - ^- 1",
        "a and ^or b",
        "true^(1)",
    ];
    for marked in table {
        let (text, place) = unmarked(rt.alloc(), marked.as_bytes())?;
        let wanted = format!(in rt.alloc(); "S1 {}:{}", place.line, place.column)?;
        let found = offence(&rt, rt.alloc(), text.as_slice())?;
        assert!(rt; found.as_str() == wanted.as_str(), "{marked}: {found}");
    }
    Ok(())
}

#[test]
fn the_limits_of_an_expression_are_told_in_order(rt: HostRuntime) -> Result<(), Fail> {
    let table = [
        ("", "(", 32, "1", "S1 1:34"),
        ("", "(", 33, "1", "S2 1:33"),
        (")", "(", 33, "1", "S1 1:1"),
        (")", "(", 34, "1", "S2 1:35"),
        ("1 2", "(", 33, "", "S2 1:36"),
        ("", "x[", 33, "", "S2 1:66"),
        ("", "if ", 32, "", "S1 1:1"),
        ("", "do ", 33, "", "S2 1:97"),
        ("", "(1)", 40, "", "S1 1:4"),
        ("1", "+1", 99, "", "none"),
        ("-1", "+1", 99, "", "none"),
        ("1", "+1", 100, "", "S3 1:1"),
        ("  1", "+1", 100, "", "S3 1:3"),
        ("(1", "*1", 100, ")", "S3 1:1"),
        ("x[1", "+1", 99, "]", "none"),
        ("x[-1", "+1", 99, "]", "S3 1:1"),
        ("1", "+1", 100, " 1", "S1 1:203"),
        ("1", "+1", 519999, "", "S3 1:1"),
        ("1", "and 1", 209714, "", "S3 1:1"),
        ("1", "*1", 519999, " 2", "S1 1:1040001"),
        ("1", "or 1", 262143, "or", "S1 1:1048576"),
    ];
    for (front, part, times, back, wanted) in table {
        let text = repeated(rt.alloc(), front, part, times, back)?;
        let found = offence(&rt, rt.alloc(), text.as_bytes())?;
        assert!(rt;
            found.as_str() == wanted,
            "{front} and {times} times {part}: {found}"
        );
    }
    Ok(())
}
