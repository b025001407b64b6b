//! Laws of steps: what decides them, what they keep, and where they go on.

ghost use Rattle.abstract_run.specs.Kept.{StepsKeep};
ghost use Rattle.abstract_run.specs.Progress.{ActionsGoOn, FallsGoOn, TicksGoOn};
ghost use Rattle.abstract_run.specs.Safe.{SameSteps};

/// Two records that say the same have the same steps from each fitting state.
pub fn same_steps()
    ensures { SameSteps }
{}

/// Where bodies keep ranges, a step from a fitting state leaves one, what it sends fits, and there
/// are as many cells as before, less what its label takes out, and those that were sent.
pub fn steps_keep_fitting()
    ensures { StepsKeep }
{}

/// Where bodies keep ranges, in a fitting state with nothing falling an enabled action of a process
/// that is not down has a step with choices that lead its body to its end, where each channel has room
/// for what it may send.
pub fn actions_go_on()
    ensures { ActionsGoOn }
{}

/// In a fitting state with nothing falling each process that is not down can take any reading.
pub fn ticks_go_on()
    ensures { TicksGoOn }
{}

/// Where a cut falls in a fitting state, the stop that it asks for is possible.
pub fn falls_go_on()
    ensures { FallsGoOn }
{}
