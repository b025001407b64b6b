//! Statements, and the branches in which statements stand.

ghost use Rattle.tap_lexer.specs.Depth.{IsShallow};
ghost use Rattle.tap_lexer.specs.Lexeme.{lexemes};
ghost use Rattle.tap_lexer.specs.Spans.{AreTexts};
ghost use Rattle.tap_lexer.specs.inner.Reading.{Shows};
ghost use Rattle.tap_parser.specs.Statements.{AreBranches, AreStmts, IsBranch, IsStmt};
ghost use Rattle.tap_parser.specs.Systems.{Sized};
ghost use Rattle.tap_parser.specs.inner.Forms.{BodyStops, BranchesStop, StmtStops};
ghost use Rattle.tap_parser.specs.inner.Reading.{Answers};

use crate::exprs::read_expr;
use crate::kept::{Kept, appended, listed};
use crate::leaves::{expect, read_numeral};
use crate::nodes::{branch, repetition, selection};
use crate::simple::{read_assignment, read_choice, read_send, read_start, read_stop};
use tap_base::{AstBranch, AstStmt, List, Sign};
use tap_expr::Stuck;
use tap_lexer::{Found, Source};

/// Statements with `;` between them.
#[cycle(stmts)]
pub fn read_stmts(source: &Source, at: usize) -> Result<Found<Kept<List<AstStmt>>>, Stuck>
    requires texts { AreTexts source.now.text.now source.now.tokens.now }
    requires shallow { IsShallow (lexemes source.now.text.now source.now.tokens.now) }
    ensures { Answers (λ n. AreStmts (Sized n)) BodyStops (lexemes source.now.text.now source.now.tokens.now) at result }
{
    let first = read_stmt(source, at)?;
    let mut value = listed(source.alloc, first.value)?;
    let mut next = first.next;
    'stmts: while source.shows(next, Sign::Semicolon) {
        let stmt = read_stmt(source, next + 1)?;
        value = appended(value, stmt.value)?;
        next = stmt.next;
    }
    Ok(Found { value, next })
}

/// A statement, by its first token.
#[cycle(stmts)]
fn read_stmt(source: &Source, at: usize) -> Result<Found<Kept<AstStmt>>, Stuck>
    requires texts { AreTexts source.now.text.now source.now.tokens.now }
    requires shallow { IsShallow (lexemes source.now.text.now source.now.tokens.now) }
    ensures { Answers (λ n. IsStmt (Sized n)) StmtStops (lexemes source.now.text.now source.now.tokens.now) at result }
{
    let Some(token) = source.token(at) else {
        return Err(Stuck::At(at));
    };
    match source.sign(token) {
        Sign::Skip => Ok(Found {
            value: Kept::Whole(AstStmt::Skip),
            next: at + 1,
        }),
        Sign::Name => read_assignment(source, at),
        Sign::Choose => read_choice(source, at),
        Sign::Send => read_send(source, at),
        Sign::Start => read_start(source, at),
        Sign::Stop => read_stop(source, at),
        Sign::If => read_selection(source, at),
        Sign::Do => read_loop(source, at),
        _ => Err(Stuck::At(at)),
    }
}

/// `if`, branches, and `fi`.
#[cycle(stmts)]
fn read_selection(source: &Source, at: usize) -> Result<Found<Kept<AstStmt>>, Stuck>
    requires texts { AreTexts source.now.text.now source.now.tokens.now }
    requires shallow { IsShallow (lexemes source.now.text.now source.now.tokens.now) }
    requires shows { Shows Sign.If (lexemes source.now.text.now source.now.tokens.now) at }
    ensures { Answers (λ n. IsStmt (Sized n)) StmtStops (lexemes source.now.text.now source.now.tokens.now) at result }
{
    let behind = expect(source, Sign::If, at)?;
    let branches = read_branches(source, behind)?;
    let next = expect(source, Sign::Fi, branches.next)?;
    Ok(Found {
        value: selection(branches.value),
        next,
    })
}

/// `do`, a number, `times`, branches, and `od`.
#[cycle(stmts)]
fn read_loop(source: &Source, at: usize) -> Result<Found<Kept<AstStmt>>, Stuck>
    requires texts { AreTexts source.now.text.now source.now.tokens.now }
    requires shallow { IsShallow (lexemes source.now.text.now source.now.tokens.now) }
    requires shows { Shows Sign.Do (lexemes source.now.text.now source.now.tokens.now) at }
    ensures { Answers (λ n. IsStmt (Sized n)) StmtStops (lexemes source.now.text.now source.now.tokens.now) at result }
{
    let behind = expect(source, Sign::Do, at)?;
    let count = read_numeral(source, behind)?;
    let behind = expect(source, Sign::Times, count.next)?;
    let branches = read_branches(source, behind)?;
    let next = expect(source, Sign::Od, branches.next)?;
    Ok(Found {
        value: repetition(count.value, branches.value),
        next,
    })
}

/// Branches with `[]` between them.
#[cycle(stmts)]
fn read_branches(source: &Source, at: usize) -> Result<Found<Kept<List<AstBranch>>>, Stuck>
    requires texts { AreTexts source.now.text.now source.now.tokens.now }
    requires shallow { IsShallow (lexemes source.now.text.now source.now.tokens.now) }
    ensures { Answers (λ n. AreBranches (Sized n)) BranchesStop (lexemes source.now.text.now source.now.tokens.now) at result }
{
    let first = read_branch(source, at)?;
    let mut value = listed(source.alloc, first.value)?;
    let mut next = first.next;
    'branches: while source.shows(next, Sign::Box) {
        let branch = read_branch(source, next + 1)?;
        value = appended(value, branch.value)?;
        next = branch.next;
    }
    Ok(Found { value, next })
}

/// A guard, `->` and statements.
#[cycle(stmts)]
fn read_branch(source: &Source, at: usize) -> Result<Found<Kept<AstBranch>>, Stuck>
    requires texts { AreTexts source.now.text.now source.now.tokens.now }
    requires shallow { IsShallow (lexemes source.now.text.now source.now.tokens.now) }
    ensures { Answers (λ n. IsBranch (Sized n)) BodyStops (lexemes source.now.text.now source.now.tokens.now) at result }
{
    let guard = read_expr(source, at)?;
    let behind = expect(source, Sign::Arrow, guard.next)?;
    let body = read_stmts(source, behind)?;
    Ok(Found {
        value: branch(guard.value, body.value),
        next: body.next,
    })
}
