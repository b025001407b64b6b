//! The definitions worked on small cases.

ghost use Rattle.drawn_choices.specs.Worked.{DrawsAreWorked, OptionsAreWorked, WordsAreWorked};

/// Options, draws, and the words of generators.
pub fn draws_are_worked()
    ensures options { OptionsAreWorked }
    ensures draws { DrawsAreWorked }
    ensures words { WordsAreWorked }
{}
