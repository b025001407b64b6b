//! What the grammar of expressions promises by itself.

ghost use Rattle.tap_expr.specs.ExprText.{OneFront, OneEnd};
ghost use Rattle.tap_expr.specs.Grammar.{OneTree};
ghost use Rattle.tap_expr.specs.WorkedGrammar.{GroupsFromTheLeft, ParenthesesLeaveNoNode};
ghost use Rattle.tap_expr.specs.inner.ExprReading.{OneReading};

/// Tokens spell at most one expression; and of the readings of their front at which nothing can go
/// on there is at most one.
pub fn one_tree()
    ensures tree { OneTree }
    ensures reading { OneReading }
{}

/// Where the place of S1 is a token, no tokens that agree up to and with it spell an expression.
pub fn one_front()
    ensures { OneFront }
{}

/// Tokens are an expression or have an offence of one code, and never both.
pub fn one_end()
    ensures { OneEnd }
{}

/// The grammar, worked on small texts.
pub fn expressions_are_worked()
    ensures left { GroupsFromTheLeft }
    ensures parentheses { ParenthesesLeaveNoNode }
{}
