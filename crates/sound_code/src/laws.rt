//! What verified code keeps, whatever is run.

ghost use Rattle.sound_code.specs.Ranges.{CodeBeginsInRange, CodeKeepsRanges};
ghost use Rattle.sound_code.specs.Promises.{BodiesRun, GuardsRun, PartsEnd, RunsAreSteps, StepsFit, StepsJoin};

/// From any values, inputs and choices each guard and each body of verified code ends within its
/// cost, or comes to a choice that is refused.
pub fn parts_end()
    ensures { PartsEnd }
{}

/// From a moment that fits, each instruction leads to one that fits, divides by no 0, and stops at
/// nothing but the end and a choice that is refused.
pub fn steps_fit()
    ensures { StepsFit }
{}

/// From fitting values each body leaves fitting values within its cost, its sends and its choices,
/// or comes to a choice that is refused.
pub fn bodies_run()
    ensures { BodiesRun }
{}

/// A run of verified code is what its instructions lead to, one after another.
pub fn runs_are_steps()
    ensures { RunsAreSteps }
{}

/// Instructions that lead to a moment, and on from it, lead together.
pub fn steps_join()
    ensures { StepsJoin }
{}

/// From fitting values the code of a local guard ends within its cost, with 0 or 1 in its result.
pub fn guards_run()
    ensures { GuardsRun }
{}

/// Each body of verified code that comes to its end, whatever it fittingly begins with and whichever
/// choices it takes, keeps cells and timers within their ranges, sends at most 64 fitting messages to
/// others that receive them, and takes its choices from the front.
pub fn code_keeps_ranges()
    ensures { CodeKeepsRanges }
{}

/// Verified code has at most 64 processes, each with at most 4,096 variables, and each variable begins
/// within its range.
pub fn code_begins_in_range()
    ensures { CodeBeginsInRange }
{}
