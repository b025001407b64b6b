//! What holds of draws in every resolved system that is judged right.

ghost use Rattle.drawn_bodies.specs.Acting.{ActionsAreDrawn};
ghost use Rattle.drawn_bodies.specs.Drawn.{BodiesAreDrawn};

/// Each body of such a system, whatever it fittingly begins with, has options after any choices, and
/// words draw choices that lead to its end.
pub fn bodies_are_drawn()
    ensures { BodiesAreDrawn }
{}

/// In each fitting state of such a system any generator draws the choices of an enabled action, and it
/// is done as by the label with these choices.
pub fn actions_are_drawn()
    ensures { ActionsAreDrawn }
{}
