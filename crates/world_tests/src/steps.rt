//! Labels that are possible, and labels that are not.

ghost use Rattle.abstract_run.specs.Fits.{Fits};
ghost use Rattle.abstract_run.specs.Safe.{IsSafe};
ghost use Rattle.tap_exec.specs.Semantics.{semantics_of};

use super::opened::system_of;
use super::texts::LETTERS;
use abstract_run::{Label, State, StepFault, init, step};
use std::alloc::Global;
use std::process::Abort;
use std::test::Fail;
use tap_base::{List, NoMemory, System};
use tap_settings::inputs_of;

/// A label without choices, by its processes.
#[derive(Clone, Copy, Debug)]
enum Deed {
    Act(u32),
    Idle(u32),
    Down(u32),
    Stop(u32),
    Arrive(u32, u32),
    Lose(u32, u32),
    Reject(u32, u32),
    Void,
}

/// What is tried from the opening state on, and whether it is possible.
const ROWS: &[(Deed, bool)] = &[
    (Deed::Idle(0), false),
    (Deed::Arrive(0, 1), false),
    (Deed::Act(0), true),
    (Deed::Act(1), false),
    (Deed::Idle(1), true),
    (Deed::Arrive(1, 0), false),
    (Deed::Arrive(0, 1), true),
    (Deed::Idle(1), false),
    (Deed::Reject(0, 1), false),
    (Deed::Act(1), true),
    (Deed::Act(1), false),
    (Deed::Down(0), false),
    (Deed::Stop(0), false),
    (Deed::Void, true),
    (Deed::Act(0), true),
    (Deed::Lose(0, 1), true),
    (Deed::Lose(0, 1), false),
    (Deed::Act(0), false),
    (Deed::Idle(0), true),
];

/// The label.
fn label_of(alloc: Global, deed: Deed) -> Label {
    match deed {
        Deed::Act(process) => Label::Act {
            process,
            action: 0,
            choices: List::new(alloc),
        },
        Deed::Idle(process) => Label::Idle { process },
        Deed::Down(process) => Label::Down { process },
        Deed::Stop(process) => Label::Stop {
            process,
            receivers: List::new(alloc),
        },
        Deed::Arrive(from, to) => Label::Arrive { from, to },
        Deed::Lose(from, to) => Label::Lose { from, to, place: 0 },
        Deed::Reject(from, to) => Label::Reject { from, to, place: 0 },
        Deed::Void => Label::Void,
    }
}

/// Does a label where it is possible, and tells whether it was.
fn try_deed(alloc: Global, system: &System, state: &mut State, deed: Deed) -> Result<bool, NoMemory>
    requires safe { IsSafe system.now }
    requires fits { Fits (semantics_of system.now) state.old }
    ensures { Fits (semantics_of system.now) state.new }
{
    let label = label_of(alloc, deed);
    match step(alloc, system, state, &label) {
        Ok(_) => Ok(true),
        Err(StepFault::NotEnabled) => Ok(false),
        Err(StepFault::NoMemory) => Err(NoMemory),
    }
}

/// All rows come out as they say.
fn check_rows(
    rt: &impl Abort,
    alloc: Global,
    system: &System,
    state: &mut State,
) -> Result<(), Fail>
    requires safe { IsSafe system.now }
    requires fits { Fits (semantics_of system.now) state.old }
{
    for (deed, possible) in ROWS {
        let did = try_deed(alloc, system, state, *deed)?;
        assert_eq!(rt; did, *possible, "{deed:?}");
    }
    Ok(())
}

#[test]
fn labels_are_done_where_they_are_possible(rt: HostRuntime) -> Result<(), Fail> {
    let system = system_of(rt.alloc(), LETTERS)?;
    let inputs = inputs_of(rt.alloc(), &system, &[])?;
    let mut state = init(rt.alloc(), &system, &inputs)?;
    check_rows(&rt, rt.alloc(), &system, &mut state)
}
