//! A body that runs to its end.

ghost use Rattle.drawn_steps.specs.Acting.{scene};
ghost use Rattle.action_machine.specs.Runs.{Begins, CountsFinish};

use crate::steps::Steps;
use action_code::{CodeMessage, Instr};
use code_steps::{Core, instr_at};
use drawn_steps::{Outbox, act};
use rand_pcg::Lcg64Xsh32;
use std::sync::ledger::Ledger;
use timer_core::Timers;

/// The instructions of a body, from the next one to the end.
pub(crate) fn finish<L: Ledger>(
    core: &mut Core,
    messages: &[CodeMessage],
    instrs: &[Instr],
    received: &[i64],
    generator: &mut Lcg64Xsh32,
    timers: &mut Timers,
    out: &mut Outbox,
    steps: &mut Steps<L>,
)
    requires { Begins messages.now instrs.now received.now (scene core.old timers.old out.old generator.old) }
    ensures { CountsFinish messages.now instrs.now received.now (scene core.old timers.old out.old generator.old) (scene core.new timers.new out.new generator.new) steps.old.book.total steps.new.book.total }
{
    'instrs: while core.next() < instrs.len() {
        let instr = instr_at(instrs, core.next());
        act(core, instr, messages, received, generator, timers, out);
        steps.tick();
    }
}
