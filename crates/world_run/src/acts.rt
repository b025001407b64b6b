//! An action whose choices are drawn.

ghost use Rattle.std.specs.Prelude.{◌≡◌, ◌≤◌, true, FitsSigned, OnOk};
ghost use Rattle.std.specs.Int.{w64};
ghost use Rattle.tap_base.specs.Lists.{Each};
ghost use Rattle.abstract_run.specs.Enabled.{is_enabled};
ghost use Rattle.abstract_run.specs.Step.{is_live};
ghost use Rattle.exact_choice.specs.Runnable.{IsRunnable};
ghost use Rattle.world_run.specs.Served.{IsSteady};
ghost use Rattle.world_run.specs.inner.Serving.{DidAct, said_by};

use crate::course::Course;
use crate::deeds::Deeds;
use crate::generators::take;
use crate::given::Given;
use crate::labels::cells_behind;
use abstract_run::{Label, Performed, StepFault, act_by};
use drawn_choices::Drawing;
use tap_base::{List, NoMemory};

/// Does an enabled action with the choices that the generator of its process draws, and records it.
/// Cursors and errors are left to the caller.
pub(crate) fn act(
    given: &Given<'_>,
    course: &mut Course,
    process: u32,
    action: u32,
    deeds: &mut Deeds,
) -> Result<(), NoMemory>
    requires runnable { IsRunnable given.now.system.now }
    requires steady { IsSteady (said_by given.now) course.old }
    requires room { course.old.cells ≤ 100000 }
    requires live { is_live course.old.state process ≡ true }
    requires enabled { is_enabled (said_by given.now) course.old.state process action ≡ true }
    ensures acted { OnOk result (DidAct (said_by given.now) process action course.old course.new deeds.old deeds.new) }
    ensures turnstiles { course.new.turnstiles ≡ course.old.turnstiles }
    ensures errors { course.new.errors ≡ course.old.errors }
{
    let generator = take(&mut course.generators, process);
    let taken = List::new(given.alloc);
    let drawing = Drawing { generator, taken };
    let state = &mut course.state;
    match act_by(given.alloc, given.system, state, process, action, drawing) {
        Ok(Performed { sends, choices }) => {
            let Drawing {
                generator,
                taken: choices,
            } = choices;
            course.generators.set(process as usize, generator);
            read(choices.as_slice());
            let label = Label::Act {
                process,
                action,
                choices,
            };
            course.cells = cells_behind(given.system, &label, course.cells, sends.len());
            deeds.keep(label, &course.state, sends)
        }
        Err(StepFault::NotEnabled) => unreachable!(),
        Err(StepFault::NoMemory) => Err(NoMemory),
    }
}

/// Reads choices, each of which is a number of 64 bits.
fn read(choices: &[i64])
    ensures { Each (FitsSigned w64) choices.now }
{
    for i in 0..choices.len() {
        let _choice = choices[i];
    }
}
