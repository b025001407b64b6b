//! An action of a system, whose choices come from a source.

ghost use Rattle.tap_exec.specs.Semantics.{semantics_of};
ghost use Rattle.abstract_run.specs.Fits.{Fits};
ghost use Rattle.abstract_run.specs.Safe.{IsSafe};
ghost use Rattle.abstract_run.specs.inner.ByChoices.{Acts, acted_in};

use crate::acts::{Performed, act};
use crate::guards::action_at;
use crate::state::{State, StepFault};
use std::alloc::Global;
use tap_base::System;
use tap_exec::Choices;

/// Does an action where it is enabled, its process is not down, and its body comes to its end with
/// choices from the source. Answers its sends, and what is left of the source. An action that is not
/// possible is answered by `NotEnabled`, and leaves the state as it was, as `NoMemory` does.
pub fn act_by<C: Choices + Drop>(
    alloc: Global,
    system: &System,
    state: &mut State,
    process: u32,
    action: u32,
    choices: C,
) -> Result<Performed<C>, StepFault>
    requires safe { IsSafe system.now }
    requires fits { Fits (semantics_of system.now) state.old }
    ensures { Acts (acted_in C.takes C.spent system.now state.old process action choices) state.old result state.new }
{
    let Some(action) = action_at(system, process, action) else {
        return Err(StepFault::NotEnabled);
    };
    let messages = system.messages.as_slice();
    act(alloc, messages, state, process, action, choices)
}
