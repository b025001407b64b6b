//! The code of a guard.

ghost use Rattle.std.specs.Prelude.{◌≡◌, ◌<◌, ◌≤◌, pos, length, slice_get, take, Some};
ghost use Rattle.std.specs.Ordering.{int_eq};
ghost use Rattle.code_steps.specs.Guarding.{ComesTo, IsInGuard, KeepsFirst, StartsGuard, StepsTo, TellsGuard};

use crate::plain::move_on;
use crate::registers::Core;
use register_code::{CodeAction, Instr};

/// The instruction of this number.
pub fn instr_at(instrs: &[Instr], at: usize) -> Instr
    requires { at < length instrs.now }
    ensures { slice_get instrs.now at ≡ Some result }
{
    instrs[at]
}

/// One instruction of a guard.
fn step(core: &mut Core, instrs: &[Instr])
    requires guards { IsInGuard instrs.now core.old }
    requires inside { core.old.next < length instrs.now }
    ensures guards { IsInGuard instrs.now core.new }
    ensures comes { StepsTo instrs.now core.old core.new }
    ensures keeps { KeepsFirst instrs.now core.old core.new }
{
    move_on(core, instr_at(instrs, core.next()), &[]);
}

/// The instructions of a guard, from the next one to the end.
#[tactic(auto, using(crate::proofs::Guards::comes_nowhere, crate::proofs::Guards::comes_on, crate::proofs::Guards::guard_falls))]
pub fn finish(core: &mut Core, instrs: &[Instr])
    requires { IsInGuard instrs.now core.old }
    ensures guards { IsInGuard instrs.now core.new }
    ensures comes { ComesTo instrs.now core.old core.new }
    ensures keeps { KeepsFirst instrs.now core.old core.new }
    ensures ended { core.new.next ≡ length instrs.now }
{
    'instrs: while core.next() < instrs.len() {
        step(core, instrs);
    }
}

fn is_one(x: i64) -> bool
    ensures { result ≡ int_eq x (pos 1) }
{
    x == 1
}

/// Whether the guard of an action holds, where the first registers are the cells and the inputs. They
/// stay as they are.
pub fn judge(core: &mut Core, keep: usize, action: &CodeAction) -> bool
    requires { StartsGuard action.now keep core.old }
    ensures value { TellsGuard action.now keep core.old result }
    ensures keeps { take keep core.new.registers ≡ take keep core.old.registers }
    ensures inside { keep ≤ length core.new.registers }
    ensures room { (core.new.registers_room ≡ core.old.registers_room) × (core.new.counters_room ≡ core.old.counters_room) }
{
    core.open(keep, action.temporaries.as_slice(), action.guard.len());
    finish(core, action.guard.as_slice());
    is_one(core.get(action.result as usize))
}
