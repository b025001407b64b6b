//! What follows from exact choice.

ghost use Rattle.exact_choice.specs.Choice.{OneChoice};
ghost use Rattle.exact_choice.specs.Draws.{OneDraw};
ghost use Rattle.exact_choice.specs.Rejects.{OneReject};

/// In one state and with one standing of the cursors at most one action of a process can be chosen, and
/// the cursors then stand in one way.
pub fn one_choice()
    ensures { OneChoice }
{}

/// In one state and with one standing of the lists at most one error of a process can be rejected, and the
/// lists then stand in one way.
pub fn one_reject()
    ensures { OneReject }
{}

/// In one state and with one standing of the generators at most one list of choices that leads an action
/// to its end is drawn, and the generators then stand in one way.
pub fn one_draw()
    ensures { OneDraw }
{}
