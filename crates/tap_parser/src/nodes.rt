//! Nodes of trees, as long as no expression in them is too large.

ghost use Rattle.std.specs.Prelude.{◌≡◌, Some, None};
ghost use Rattle.tap_parser.specs.inner.Keeping.{both, mapped};
ghost use Rattle.tap_parser.specs.declared.kept.Kept.TheVariants.{Whole};

use crate::kept::Kept;
use crate::leaves::Numeral;
use tap_base::{
    Ast, AstAction, AstBranch, AstConst, AstExpr, AstField, AstGuard, AstMessage, AstProcess,
    AstStmt, AstTarget, AstVar, Ident, List, Place,
};

/// A message with its fields.
pub fn message(name: Ident, fields: Kept<List<AstField>>) -> Kept<AstMessage>
    ensures { result ≡ mapped (λ l. record { name = name; fields = l }) fields }
{
    match fields {
        Kept::Whole(fields) => Kept::Whole(AstMessage { name, fields }),
        Kept::Large(at) => Kept::Large(at),
    }
}

/// A target without an index.
pub fn whole_target(name: Ident) -> Kept<AstTarget>
    ensures { result ≡ Whole (record { name = name; index = None }) }
{
    Kept::Whole(AstTarget { name, index: None })
}

/// A target with its index.
pub fn element(name: Ident, index: Kept<AstExpr>) -> Kept<AstTarget>
    ensures { result ≡ mapped (λ e. record { name = name; index = Some e }) index }
{
    match index {
        Kept::Whole(index) => Kept::Whole(AstTarget {
            name,
            index: Some(index),
        }),
        Kept::Large(at) => Kept::Large(at),
    }
}

/// An assignment.
pub fn assignment(targets: Kept<List<AstTarget>>, values: Kept<List<AstExpr>>) -> Kept<AstStmt>
    ensures { result ≡ both (λ t v. AstStmt.Assign t v) targets values }
{
    match targets.and(values) {
        Kept::Whole((targets, values)) => Kept::Whole(AstStmt::Assign { targets, values }),
        Kept::Large(at) => Kept::Large(at),
    }
}

/// A choice for a target.
pub fn choice(target: Kept<AstTarget>) -> Kept<AstStmt>
    ensures { result ≡ mapped (λ t. AstStmt.Choose t) target }
{
    match target {
        Kept::Whole(target) => Kept::Whole(AstStmt::Choose { target }),
        Kept::Large(at) => Kept::Large(at),
    }
}

/// A send.
pub fn send(message: Ident, values: Kept<List<AstExpr>>, to: Ident) -> Kept<AstStmt>
    ensures { result ≡ mapped (λ v. AstStmt.Send message v to) values }
{
    match values {
        Kept::Whole(values) => Kept::Whole(AstStmt::Send {
            message,
            values,
            to,
        }),
        Kept::Large(at) => Kept::Large(at),
    }
}

/// A start of a timer.
pub fn start(timer: Ident, delay: Kept<AstExpr>) -> Kept<AstStmt>
    ensures { result ≡ mapped (λ e. AstStmt.Start timer e) delay }
{
    match delay {
        Kept::Whole(delay) => Kept::Whole(AstStmt::Start { timer, delay }),
        Kept::Large(at) => Kept::Large(at),
    }
}

/// A selection.
pub fn selection(branches: Kept<List<AstBranch>>) -> Kept<AstStmt>
    ensures { result ≡ mapped (λ b. AstStmt.If b) branches }
{
    match branches {
        Kept::Whole(branches) => Kept::Whole(AstStmt::If { branches }),
        Kept::Large(at) => Kept::Large(at),
    }
}

/// A loop. It stands at its number.
pub fn repetition(count: Numeral, branches: Kept<List<AstBranch>>) -> Kept<AstStmt>
    ensures { result ≡ mapped (λ b. AstStmt.Loop count.value count.place b) branches }
{
    match branches {
        Kept::Whole(branches) => Kept::Whole(AstStmt::Loop {
            count: count.value,
            place: count.place,
            branches,
        }),
        Kept::Large(at) => Kept::Large(at),
    }
}

/// A branch.
pub fn branch(guard: Kept<AstExpr>, body: Kept<List<AstStmt>>) -> Kept<AstBranch>
    ensures { result ≡ both (λ g b. record { guard = g; body = b }) guard body }
{
    match guard.and(body) {
        Kept::Whole((guard, body)) => Kept::Whole(AstBranch { guard, body }),
        Kept::Large(at) => Kept::Large(at),
    }
}

/// A guard over the variables.
pub fn local(guard: Kept<AstExpr>) -> Kept<AstGuard>
    ensures { result ≡ mapped (λ e. AstGuard.Local e) guard }
{
    match guard {
        Kept::Whole(guard) => Kept::Whole(AstGuard::Local(guard)),
        Kept::Large(at) => Kept::Large(at),
    }
}

/// An action.
pub fn action(guard: Kept<AstGuard>, body: Kept<List<AstStmt>>, place: Place) -> Kept<AstAction>
    ensures { result ≡ both (λ g b. record { guard = g; body = b; place = place }) guard body }
{
    match guard.and(body) {
        Kept::Whole((guard, body)) => Kept::Whole(AstAction { guard, body, place }),
        Kept::Large(at) => Kept::Large(at),
    }
}

/// The declarations of a process, in their order.
pub type Declared = (
    List<AstConst>,
    (List<AstVar>, (List<AstVar>, (List<Ident>, List<AstAction>))),
);

/// A process.
pub fn process(name: Ident, parts: Kept<Declared>) -> Kept<AstProcess>
    ensures { result ≡ mapped (λ d. record { name = name; consts = d.0; inputs = d.1.0; vars = d.1.1.0; timers = d.1.1.1.0; actions = d.1.1.1.1 }) parts }
{
    match parts {
        Kept::Whole((consts, (inputs, (vars, (timers, actions))))) => Kept::Whole(AstProcess {
            name,
            consts,
            inputs,
            vars,
            timers,
            actions,
        }),
        Kept::Large(at) => Kept::Large(at),
    }
}

/// A whole tree.
pub fn tree(messages: Kept<List<AstMessage>>, processes: Kept<List<AstProcess>>) -> Kept<Ast>
    ensures { result ≡ both (λ m p. record { messages = m; processes = p }) messages processes }
{
    match messages.and(processes) {
        Kept::Whole((messages, processes)) => Kept::Whole(Ast {
            messages,
            processes,
        }),
        Kept::Large(at) => Kept::Large(at),
    }
}
