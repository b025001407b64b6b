//! What follows of draws.

ghost use Rattle.drawn_choices.specs.Draws.{OneIsDrawn};

/// Words draw at most one list of choices that leads a body to its end.
pub fn one_is_drawn()
    ensures { OneIsDrawn }
{}
