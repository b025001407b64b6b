//! What words draw of the choices of register code.

ghost use Rattle.code_draws.specs.Leading.{ChoicesAreDraws};

/// Where a run of a body of verified code has come to a choice, the option that a word takes there is
/// the draw of this word.
pub fn choices_are_draws()
    ensures { ChoicesAreDraws }
{}
