//! What the definition of tokens promises by itself.

ghost use Rattle.tap_lexer.specs.TokenSpans.{SameOffences, SameTokens};
ghost use Rattle.tap_lexer.specs.Tokens.{OneOutcome};

/// A text has at most one outcome.
pub fn one_outcome()
    ensures { OneOutcome }
{}

/// The tokens of a text, read from left to right, are those that its spans have.
pub fn same_tokens()
    ensures { SameTokens }
{}

/// So is its first offence.
pub fn same_offences()
    ensures { SameOffences }
{}
