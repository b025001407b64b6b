//! What a machine is made of.

ghost use Rattle.std.specs.Prelude.{◌≡◌, ◌≤◌, ◌++◌, ℕ, map, replicate, length, slice_get, Some, IfOk, OnOk};
ghost use Rattle.abstract_run.specs.Opening.{opening_cells};
ghost use Rattle.register_code.specs.declared.code.CodeAction.{CodeAction};
ghost use Rattle.register_code.specs.Registers.{variable_of};
ghost use Rattle.action_machine.specs.Machines.{AreAtMost, counters_of, temporaries_of};

use action_code::{CodeAction, CodeVariable};
use std::alloc::Global;
use tap_base::{List, NoMemory};

/// Each cell of a variable with its initial value.
fn push_cells(all: &mut List<i64>, variable: &CodeVariable) -> Result<(), NoMemory>
    ensures { OnOk result (all.new ≡ all.old ++ replicate variable.now.cells variable.now.initial) }
{
    for at in 0..variable.cells {
        all.push(variable.initial)?;
    }
    Ok(())
}

/// Each cell with the initial value of its variable.
#[tactic(auto, using(crate::proofs::Made::opening_more))]
pub(crate) fn initial_cells(
    alloc: Global,
    variables: &[CodeVariable],
) -> Result<List<i64>, NoMemory>
    ensures { IfOk result (λ cells. cells ≡ opening_cells (map variable_of variables.now)) }
{
    let mut all = List::new(alloc);
    for variable in variables {
        push_cells(&mut all, variable)?;
    }
    Ok(all)
}

/// The greatest number of temporaries of an action.
pub(crate) fn most_temporaries(actions: &[CodeAction]) -> usize
    ensures { AreAtMost temporaries_of actions.now result }
{
    let mut most = 0;
    for action in actions {
        most = action.temporaries.len().max(most);
    }
    most
}

/// The greatest number of instructions of a guard or a body of an action.
pub(crate) fn most_counters(actions: &[CodeAction]) -> usize
    ensures { AreAtMost counters_of actions.now result }
{
    let mut most = 0;
    for action in actions {
        most = action.guard.len().max(action.body.len()).max(most);
    }
    most
}
