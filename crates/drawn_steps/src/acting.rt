//! Any one instruction.

ghost use Rattle.std.specs.Prelude.{◌≡◌, ◌<◌, ◌^◌, true};
ghost use Rattle.std.specs.List.{list_all};
ghost use Rattle.register_code.specs.Declarations.{field_fits};
ghost use Rattle.drawn_steps.specs.Acting.{Acts, CanAct, scene};
ghost use Rattle.drawn_steps.specs.Boxes.{AreThere};

use crate::choosing::choose;
use crate::outbox::Outbox;
use crate::selecting::select;
use crate::sending::send;
use crate::timing::{start, stop};
use code_steps::{Core, move_on};
use rand_pcg::Lcg64Xsh32;
use register_code::{CodeMessage, Instr};
use timer_core::Timers;

/// One instruction, with these messages and received values.
pub fn act(
    core: &mut Core,
    instr: Instr,
    messages: &[CodeMessage],
    received: &[i64],
    generator: &mut Lcg64Xsh32,
    timers: &mut Timers,
    out: &mut Outbox,
)
    requires can { CanAct messages.now received.now instr core.old timers.old out.old }
    requires fields { list_all (λ m. list_all field_fits m.fields) messages.now ≡ true }
    requires small { core.old.next < 2 ^ 63 }
    requires there { AreThere out.old }
    ensures { Acts messages.now received.now instr (scene core.old timers.old out.old generator.old) (scene core.new timers.new out.new generator.new) }
{
    match instr {
        Instr::Choose { r, lo, hi } => choose(core, r, lo, hi, generator, out),
        Instr::Select { r, first, count } => select(core, r, first, count, generator, out),
        Instr::Send {
            message,
            first,
            count,
            to,
        } => send(core, messages, message, first, count, to, out),
        Instr::Start { timer, a } => start(core, timer, a, timers),
        Instr::Stop { timer } => stop(core, timer, timers),
        _ => move_on(core, instr, received),
    }
}
