//! Systems that are checked.

ghost use Rattle.std.specs.Prelude.{◌≡◌, ◌<◌, Some, length, map, slice_get};
ghost use Rattle.std.specs.Option.{option_map};
ghost use Rattle.tap_base.specs.Lists.{Each};
ghost use Rattle.tap_base.specs.Resolved.{IsResolved};
ghost use Rattle.width_check.specs.Checking.{Checks};
ghost use Rattle.width_check.specs.Cost as spec;
ghost use Rattle.width_check.specs.IsChecked.{IsChecked};
ghost use Rattle.width_check.specs.inner.Answering.{IsCheap};

use crate::actions::judge_system;
use crate::costs::action_cost;
use crate::fault::WidthFault;
use std::alloc::Global;
use std::marker::Model;
use tap_base::{Action, Process, System};

/// A resolved system in which no value leaves its width, no divisor may be 0, no index leaves its
/// array, and no action costs or sends too much.
#[derive(Debug, Drop)]
pub struct Checked {
    system: System,
}

impl Model for Checked {
    ghost use Rattle.tap_base.specs.declared.system.System.{System as SystemValue};
    ghost use Rattle.width_check.specs.IsChecked.{IsChecked};
    ghost use Rattle.tap_base.specs.contracts.system.System as system_contract;

    ghost Value = { SystemValue };

    ghost coded = { system_contract.the_row.coded };

    ghost view = { λ c. c.system };

    ghost invariant = { λ c. IsChecked c.system };
}

/// The system as checked, where it has no offence; else it comes back unchanged, beside its first
/// offence. `NoMemory` comes where memory was refused.
///
/// The system has to be resolved, as each one is that `resolve` gives.
pub fn check(alloc: Global, system: System) -> Result<Checked, (System, WidthFault)>
    requires { IsResolved system }
    ensures { Checks system result }
{
    match judge_system(alloc, &system) {
        Ok(()) => Ok(Checked { system }),
        Err(fault) => Err((system, fault)),
    }
}

fn greatest_cost(actions: &[Action]) -> u32
    requires { Each IsCheap actions.now }
    ensures { result ≡ spec.greatest (map spec.action_cost actions.now) }
{
    let mut most = 0;
    for action in actions {
        most = most.max(action_cost(action));
    }
    most
}

fn process_at(processes: &[Process], at: usize) -> &Process
    requires { at < length processes.now }
    ensures { slice_get processes.now at ≡ Some result.now }
{
    &processes[at]
}

impl Checked {
    /// The system that was checked.
    pub fn system(&self) -> &System
        ensures system { result.now ≡ self.now }
        ensures checked { IsChecked self.now }
    {
        &self.system
    }

    /// The system that was checked, given away.
    pub fn into_system(self) -> System
        ensures system { result ≡ self }
        ensures checked { IsChecked self }
    {
        let Checked { system } = self;
        system
    }

    /// The greatest cost of the actions of a process that there is, or 0 where it has none.
    pub fn cost(&self, process: u32) -> u32
        requires { process < length self.now.processes }
        ensures { option_map spec.process_cost (slice_get self.now.processes process) ≡ Some result }
    {
        let process = process_at(self.system.processes.as_slice(), process as usize);
        greatest_cost(process.actions.as_slice())
    }
}
