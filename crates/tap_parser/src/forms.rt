//! Forms that stand in lists.

ghost use Rattle.std.specs.Prelude.{ℕ, List, Option};
ghost use Rattle.tap_base.specs.declared.token.Sign.TheVariants as sign;
ghost use Rattle.tap_lexer.specs.Depth.{IsShallow};
ghost use Rattle.tap_lexer.specs.Lexeme.{Lexeme, lexemes};
ghost use Rattle.tap_lexer.specs.Spans.{AreTexts};
ghost use Rattle.tap_lexer.specs.inner.Reading.{Free, Lacks};
ghost use Rattle.tap_expr.specs.Grammar.{expression};
ghost use Rattle.tap_expr.specs.inner.ExprReading.{Stops};
ghost use Rattle.tap_parser.specs.Declarations.{IsConst, IsField, IsInput, IsMessage, IsName, IsVar};
ghost use Rattle.tap_parser.specs.Statements.{IsAction, IsTarget};
ghost use Rattle.tap_parser.specs.Systems.{IsProcess, Sized};
ghost use Rattle.tap_parser.specs.inner.Forms.{BodyStops};
ghost use Rattle.tap_parser.specs.inner.Reading.{Answers};

use crate::actions::read_action;
use crate::declarations::{read_field, read_message};
use crate::exprs::{read_expr, read_target};
use crate::kept::{Kept, unspoiled};
use crate::leaves::read_name;
use crate::processes::read_process;
use crate::vars::{read_const, read_input, read_var};
use tap_base::{
    AstAction, AstConst, AstExpr, AstField, AstMessage, AstProcess, AstTarget, AstVar, Ident,
};
use tap_expr::Stuck;
use tap_lexer::{Found, Source};

/// A form that stands in lists.
pub trait Form {
    /// What is read.
    type Value: Drop;

    ghost spelled: { Option ℕ → Self.Value → List Lexeme → List Lexeme → Type 0 };

    ghost stops: { List Lexeme → Type 0 };

    /// The form at a place.
    fn read(source: &Source, at: usize) -> Result<Found<Kept<Self::Value>>, Stuck>
        requires texts { AreTexts source.now.text.now source.now.tokens.now }
        requires shallow { IsShallow (lexemes source.now.text.now source.now.tokens.now) }
        ensures { Answers spelled stops (lexemes source.now.text.now source.now.tokens.now) at result };
}

/// A constant.
pub struct Constant;

impl Form for Constant {
    type Value = AstConst;

    ghost spelled = { λ n. IsConst };

    ghost stops = { Free };

    fn read(source: &Source, at: usize) -> Result<Found<Kept<AstConst>>, Stuck> {
        unspoiled(read_const(source, at))
    }
}

/// An input.
pub struct Input;

impl Form for Input {
    type Value = AstVar;

    ghost spelled = { λ n. IsInput };

    ghost stops = { Free };

    fn read(source: &Source, at: usize) -> Result<Found<Kept<AstVar>>, Stuck> {
        unspoiled(read_input(source, at))
    }
}

/// A variable.
pub struct Variable;

impl Form for Variable {
    type Value = AstVar;

    ghost spelled = { λ n. IsVar };

    ghost stops = { Lacks sign.Equal };

    fn read(source: &Source, at: usize) -> Result<Found<Kept<AstVar>>, Stuck> {
        unspoiled(read_var(source, at))
    }
}

/// A timer.
pub struct Timer;

impl Form for Timer {
    type Value = Ident;

    ghost spelled = { λ n. IsName };

    ghost stops = { Free };

    fn read(source: &Source, at: usize) -> Result<Found<Kept<Ident>>, Stuck> {
        unspoiled(read_name(source, at))
    }
}

/// A field of a message.
pub struct Field;

impl Form for Field {
    type Value = AstField;

    ghost spelled = { λ n. IsField };

    ghost stops = { Lacks sign.Equal };

    fn read(source: &Source, at: usize) -> Result<Found<Kept<AstField>>, Stuck> {
        unspoiled(read_field(source, at))
    }
}

/// A message.
pub struct Message;

impl Form for Message {
    type Value = AstMessage;

    ghost spelled = { λ n. IsMessage };

    ghost stops = { Free };

    fn read(source: &Source, at: usize) -> Result<Found<Kept<AstMessage>>, Stuck> {
        read_message(source, at)
    }
}

/// An expression.
pub struct Expression;

impl Form for Expression {
    type Value = AstExpr;

    ghost spelled = { Sized };

    ghost stops = { Stops expression };

    fn read(source: &Source, at: usize) -> Result<Found<Kept<AstExpr>>, Stuck> {
        read_expr(source, at)
    }
}

/// A target.
pub struct Target;

impl Form for Target {
    type Value = AstTarget;

    ghost spelled = { λ n. IsTarget (Sized n) };

    ghost stops = { Lacks sign.OpenIndex };

    fn read(source: &Source, at: usize) -> Result<Found<Kept<AstTarget>>, Stuck> {
        read_target(source, at)
    }
}

/// An action.
pub struct Action;

impl Form for Action {
    type Value = AstAction;

    ghost spelled = { λ n. IsAction (Sized n) };

    ghost stops = { BodyStops };

    fn read(source: &Source, at: usize) -> Result<Found<Kept<AstAction>>, Stuck> {
        read_action(source, at)
    }
}

/// A process.
pub struct Process;

impl Form for Process {
    type Value = AstProcess;

    ghost spelled = { λ n. IsProcess (Sized n) };

    ghost stops = { Free };

    fn read(source: &Source, at: usize) -> Result<Found<Kept<AstProcess>>, Stuck> {
        read_process(source, at)
    }
}
