//! The definitions worked on small runs.

ghost use Rattle.exact_choice.specs.Worked.{NotTwice, TurnsGoRound};
ghost use Rattle.exact_choice.specs.WorkedRejects.{ByArrival, NotByChannel};

/// Two actions that are always enabled take turns, and none of them runs twice in a row.
pub fn choice_is_worked()
    ensures round { TurnsGoRound }
    ensures twice { NotTwice }
{}

/// Errors of two peers are rejected in the order in which they arrived, and not by the order of their channels.
pub fn order_is_worked()
    ensures arrival { ByArrival }
    ensures channel { NotByChannel }
{}
