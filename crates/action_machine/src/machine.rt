//! The machine of one process.

ghost use Rattle.std.specs.Prelude.{◌≡◌, ◌<◌, length, slice_get, Some, IfOk};
ghost use Rattle.action_machine.specs.Machines.{HasAction, HasGuard, InputsFit, IsMachineOf, IsNew, guard_of};
ghost use Rattle.action_machine.specs.Runs.{CanRun, RunsAction};

use crate::making::{initial_cells, most_counters, most_temporaries};
use crate::running::finish;
use crate::steps::Steps;
use action_code::{Code, CodeAction, CodeProcess, Verified};
use code_steps::{Core, judge};
use drawn_steps::Outbox;
use rand_pcg::Lcg64Xsh32;
use std::alloc::Global;
use std::marker::Model;
use std::sync::ledger::Ledger;
use tap_base::NoMemory;
use timer_core::Timers;

/// The cells and inputs of a process, with room for the registers and counters of each of its
/// actions.
#[derive(Debug, Drop)]
pub struct Machine {
    process: u32,
    cells: usize,
    kept: usize,
    core: Core,
}

impl Model for Machine {
    ghost use Rattle.std.specs.Prelude.{◌≤◌, drop, length, take};
    ghost use Rattle.action_machine.specs.Machines.{Placed};

    ghost Value = { Placed };

    ghost view = { λ m. record { process = m.process; cells = take m.cells (take m.kept m.core.registers); inputs = drop m.cells (take m.kept m.core.registers); registers_room = m.core.registers_room; counters_room = m.core.counters_room } };

    ghost invariant = { λ m. (m.cells ≤ m.kept) × (m.kept ≤ length m.core.registers) };
}

fn process_of(code: &Code, number: u32) -> &CodeProcess
    requires { number < length code.now.processes }
    ensures { slice_get code.now.processes number ≡ Some result.now }
{
    &code.processes.as_slice()[number as usize]
}

fn action_of(process: &CodeProcess, number: u32) -> &CodeAction
    requires { number < length process.now.actions }
    ensures { slice_get process.now.actions number ≡ Some result.now }
{
    &process.actions.as_slice()[number as usize]
}

impl Machine {
    /// A machine of a process with these inputs: each cell has the initial value of its variable. No
    /// other call takes memory.
    pub fn new(
        alloc: Global,
        code: &Verified,
        process: u32,
        inputs: &[i64],
    ) -> Result<Machine, NoMemory>
        requires { InputsFit code.now process inputs.now }
        ensures { IfOk result (λ m. IsNew code.now process inputs.now m) }
    {
        let declared = process_of(code.code(), process);
        let mut registers = initial_cells(alloc, declared.variables.as_slice())?;
        let cells = registers.len();
        registers.append_slice(inputs)?;
        let kept = registers.len();
        let actions = declared.actions.as_slice();
        let temporaries = most_temporaries(actions);
        let counters = most_counters(actions);
        let core = Core::new(alloc, registers.into_vec(), temporaries, counters)?;
        Ok(Machine {
            process,
            cells,
            kept,
            core,
        })
    }

    /// The cells.
    pub fn cells(&self) -> &[i64]
        ensures { result.now ≡ self.now.cells }
    {
        &self.core.registers()[..self.cells]
    }

    /// Whether the local guard of an action holds. The code is that of the machine's making.
    pub fn guard(&mut self, code: &Verified, action: u32) -> bool
        requires machine { IsMachineOf code.now self.old }
        requires guard { HasGuard code.now self.old.process action }
        ensures value { (a : HasAction code.now self.old.process action) → result ≡ guard_of code.now self.old action a }
        ensures same { self.new ≡ self.old }
    {
        let code = code.code();
        let process = process_of(code, self.process);
        let action = action_of(process, action);
        judge(&mut self.core, self.kept, action)
    }

    /// Runs the body of an action, with the choices that the generator draws. The code is that of the
    /// machine's making. The outbox was made for it and is empty; it has then what the action sent and
    /// chose. The steps grow by the instructions that run.
    pub fn run<L: Ledger>(
        &mut self,
        code: &Verified,
        action: u32,
        message: &[i64],
        draw: &mut Lcg64Xsh32,
        timers: &mut Timers,
        out: &mut Outbox,
        steps: &mut Steps<L>,
    )
        requires machine { IsMachineOf code.now self.old }
        requires can { CanRun code.now self.old action message.now timers.old out.old }
        ensures runs { RunsAction code.now action message.now self.old self.new timers.old timers.new draw.old draw.new out.old out.new steps.old.book.total steps.new.book.total }
        ensures machine { IsMachineOf code.now self.new }
    {
        let code = code.code();
        let process = process_of(code, self.process);
        let action = action_of(process, action);
        let messages = code.messages.as_slice();
        let instrs = action.body.as_slice();
        // Only a call tells that the timers are fit.
        let _time = timers.time();
        self.core
            .open(self.kept, action.temporaries.as_slice(), instrs.len());
        finish(
            &mut self.core,
            messages,
            instrs,
            message,
            draw,
            timers,
            out,
            steps,
        );
    }
}
