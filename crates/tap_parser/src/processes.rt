//! Processes, and the messages and processes of a system.

ghost use Rattle.tap_lexer.specs.Depth.{IsShallow};
ghost use Rattle.tap_lexer.specs.Lexeme.{lexemes};
ghost use Rattle.tap_lexer.specs.Rows.{Rows};
ghost use Rattle.tap_lexer.specs.Spans.{AreTexts};
ghost use Rattle.tap_lexer.specs.inner.Reading.{Free, Lacks};
ghost use Rattle.tap_parser.specs.Declarations.{IsMessage};
ghost use Rattle.tap_parser.specs.Systems.{IsProcess, Sized};
ghost use Rattle.tap_parser.specs.inner.Forms.{AreDeclared, AreSystem};
ghost use Rattle.tap_parser.specs.inner.Reading.{Answers};

use crate::forms::{Action, Constant, Input, Message, Process, Timer, Variable};
use crate::kept::Kept;
use crate::leaves::{expect, read_name};
use crate::lists::{read_block, read_row, read_until};
use crate::nodes::{Declared, process, tree};
use tap_base::{Ast, AstMessage, AstProcess, List, Sign};
use tap_expr::Stuck;
use tap_lexer::{Found, Source};

/// `process`, a name, and what is declared.
pub fn read_process(source: &Source, at: usize) -> Result<Found<Kept<AstProcess>>, Stuck>
    requires texts { AreTexts source.now.text.now source.now.tokens.now }
    requires shallow { IsShallow (lexemes source.now.text.now source.now.tokens.now) }
    ensures { Answers (λ n. IsProcess (Sized n)) Free (lexemes source.now.text.now source.now.tokens.now) at result }
{
    let behind = expect(source, Sign::Process, at)?;
    let name = read_name(source, behind)?;
    let parts = read_declared(source, name.next)?;
    Ok(Found {
        value: process(name.value, parts.value),
        next: parts.next,
    })
}

/// Constants, inputs, variables, timers, `begin`, actions, and `end`.
fn read_declared(source: &Source, at: usize) -> Result<Found<Kept<Declared>>, Stuck>
    requires texts { AreTexts source.now.text.now source.now.tokens.now }
    requires shallow { IsShallow (lexemes source.now.text.now source.now.tokens.now) }
    ensures { Answers (λ n. AreDeclared (Sized n)) Free (lexemes source.now.text.now source.now.tokens.now) at result }
{
    let consts = read_block::<Constant>(source, Sign::Const, Sign::Semicolon, at)?;
    let inputs = read_block::<Input>(source, Sign::Inp, Sign::Semicolon, consts.next)?;
    let vars = read_block::<Variable>(source, Sign::Var, Sign::Semicolon, inputs.next)?;
    let timers = read_block::<Timer>(source, Sign::Timer, Sign::Comma, vars.next)?;
    let behind = expect(source, Sign::Begin, timers.next)?;
    let actions = read_until::<Action>(source, Sign::Box, Sign::End, behind)?;
    let value = vars.value.and(timers.value.and(actions.value));
    Ok(Found {
        value: consts.value.and(inputs.value.and(value)),
        next: actions.next,
    })
}

/// The messages that begin a system.
fn read_messages(source: &Source, at: usize) -> Result<Found<Kept<List<AstMessage>>>, Stuck>
    requires texts { AreTexts source.now.text.now source.now.tokens.now }
    requires shallow { IsShallow (lexemes source.now.text.now source.now.tokens.now) }
    ensures { Answers (λ n. Rows IsMessage) (Lacks Sign.Message)
        (lexemes source.now.text.now source.now.tokens.now) at result }
{
    if source.shows(at, Sign::Message) {
        return read_row::<Message>(source, Sign::Message, at);
    }
    Ok(Found {
        value: Kept::Whole(List::new(source.alloc)),
        next: at,
    })
}

/// Messages and processes.
pub fn read_system(source: &Source, at: usize) -> Result<Found<Kept<Ast>>, Stuck>
    requires texts { AreTexts source.now.text.now source.now.tokens.now }
    requires shallow { IsShallow (lexemes source.now.text.now source.now.tokens.now) }
    ensures { Answers (λ n. AreSystem (Sized n)) (Lacks Sign.Process)
        (lexemes source.now.text.now source.now.tokens.now) at result }
{
    let messages = read_messages(source, at)?;
    let processes = read_row::<Process>(source, Sign::Process, messages.next)?;
    Ok(Found {
        value: tree(messages.value, processes.value),
        next: processes.next,
    })
}
