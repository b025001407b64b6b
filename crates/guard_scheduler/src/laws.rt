//! What follows for those that rest on picks.

ghost use Rattle.guard_scheduler.specs.Laws.{ComesNearer, IsFair, OneIsFirst};

/// At most one place is the first true one, so what is picked is determined.
pub fn one_is_first()
    ensures { OneIsFirst }
{}

/// A true place that is passed over stands nearer to the cursor afterwards.
pub fn comes_nearer()
    ensures { ComesNearer }
{}

/// Of as many picks in a row as there are places, a place that is true each time is picked in one.
pub fn is_fair()
    ensures { IsFair }
{}
